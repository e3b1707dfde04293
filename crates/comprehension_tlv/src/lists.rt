//! A whole list of objects.
ghost use Rattle.std.specs.Prelude.{◌≡◌, ◌+◌, ◌≤◌, List, length, Some, IfSome, IfOk, IsOkAnd, IfErr, option_copied};
ghost use Rattle.comprehension_tlv.specs.Model.{Object, IsObjects};
ghost use Rattle.comprehension_tlv.specs.Reading.{Gives, IsOutline, outline, flaw, first_value, value_of};

use crate::faults::TlvFault;
use crate::walks::Walk;

/// A walk over the objects that fill the bytes.
pub fn walk(bytes: &[u8]) -> Walk<'_>
    ensures spelled { IsOutline 0 bytes.now result }
    ensures exact { result ≡ outline bytes.now }
{
    Walk::over(bytes)
}

/// The value of the first object with the tag, whichever flag it has. The whole list is looked at: a fault comes exactly
/// where it isn't a list of objects.
pub fn find<'a>(bytes: &'a [u8], tag: u16) -> Result<Option<&'a [u8]>, TlvFault>
    ensures found { IfOk result (λ value. (objects : List Object) × IsObjects bytes.now objects
        × (option_copied value ≡ first_value tag objects)) }
    ensures only { (objects : List Object) → IsObjects bytes.now objects
        → IsOkAnd result (λ value. option_copied value ≡ first_value tag objects) }
    ensures fault { IfErr result (λ fault. flaw bytes.now ≡ Some fault) }
    ensures fits { IfOk result (λ value. IfSome (option_copied value) (λ found. length found + 2 ≤ length bytes.now)) }
    ensures exact { Gives option_copied result (value_of tag bytes.now) }
{
    let mut parts = walk(bytes);
    let mut found = None;
    while let Some(part) = parts.next()? {
        if found.is_none() && part.tag == tag {
            found = Some(part.value);
        }
    }
    Ok(found)
}
