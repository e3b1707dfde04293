//! One BER template.
ghost use Rattle.std.specs.Prelude.{◌≡◌, ◌+◌, ◌≤◌, ℕ, List, length, IfOk, IsOkAnd};
ghost use Rattle.comprehension_tlv.specs.Model.{IsTemplate};
ghost use Rattle.comprehension_tlv.specs.Reading.{Gives, template_of};

use crate::faults::TlvFault;
use crate::objects::read_value;

/// The tag and the content of one BER template that fills the bytes. Its tag may be any byte, and its own faults have
/// the place 0. `Trailing` comes exactly where bytes follow it.
#[tactic(auto, unfolding(crate::specs::Reading::template_of))]
pub fn read_template(bytes: &[u8]) -> Result<(u8, &[u8]), TlvFault>
    ensures found { IfOk result (λ x. IsTemplate bytes.now x.0 x.1.now) }
    ensures only { (tag : ℕ) (content : List ℕ) → IsTemplate bytes.now tag content
        → IsOkAnd result (λ x. (x.0 ≡ tag) × (x.1.now ≡ content)) }
    ensures fits { IfOk result (λ x. length x.1.now + 2 ≤ length bytes.now) }
    ensures exact { Gives (λ x. (x.0, x.1.now)) result (template_of bytes.now) }
{
    let (tag, rest) = bytes.split_first().ok_or(TlvFault::CutShort(0))?;
    let (content, rest) = read_value(rest, 0)?;
    if !rest.is_empty() {
        return Err(TlvFault::Trailing(bytes.len() - rest.len()));
    }
    Ok((*tag, content))
}
