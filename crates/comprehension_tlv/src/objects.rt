//! One object at the front of some bytes.
ghost use Rattle.std.specs.Prelude.{◌<◌, length, IfOk};
ghost use Rattle.comprehension_tlv.specs.Reading.{Gives, tag_at, length_at, value_at, object_at};
ghost use Rattle.comprehension_tlv.specs.Seen.{object_of};

use crate::faults::TlvFault;

/// One comprehension-TLV object.
#[derive(Clone, Copy, Debug, PartialEq, Eq)]
pub struct Part<'a> {
    /// Whether the comprehension flag is set.
    pub flag: bool,
    /// The tag as a number: `7F 00 13` and `13` are one tag.
    pub tag: u16,
    /// The value, where it stands in the bytes read.
    pub value: &'a [u8],
}

/// b8 of a tag in one byte.
pub const FLAG: u8 = 0x80;

/// b16 of the two bytes of a long tag.
const LONG_FLAG: u16 = 0x8000;

/// The flag and the tag, and the bytes after them. `at` is the place of the object.
#[tactic(auto, unfolding(crate::specs::Reading::tag_at))]
#[inline(always)]
fn read_tag(bytes: &[u8], at: usize) -> Result<(bool, u16, &[u8]), TlvFault>
    ensures exact { Gives (λ x. (x.0, x.1, x.2.now)) result (tag_at at bytes.now) }
    ensures shorter { IfOk result (λ x. length x.2.now < length bytes.now) }
{
    match bytes {
        [] => Err(TlvFault::CutShort(at)),
        [0x00 | 0x80 | 0xFF, ..] => Err(TlvFault::NoTag(at)),
        [0x7F, high, low, rest @ ..] => {
            let number = u16::from_be_bytes([*high, *low]);
            Ok((number >= LONG_FLAG, number % LONG_FLAG, rest))
        }
        [0x7F, ..] => Err(TlvFault::CutShort(at)),
        [first, rest @ ..] => Ok((*first >= FLAG, u16::from(*first % FLAG), rest)),
    }
}

/// The length of a value, and the bytes after it. `at` is the place of the object.
#[tactic(auto, unfolding(crate::specs::Reading::length_at))]
#[inline(always)]
fn read_length(bytes: &[u8], at: usize) -> Result<(usize, &[u8]), TlvFault>
    ensures exact { Gives (λ x. (x.0, x.1.now)) result (length_at at bytes.now) }
    ensures shorter { IfOk result (λ x. length x.1.now < length bytes.now) }
{
    match bytes {
        [length @ 0x00..=0x7F, rest @ ..] => Ok((usize::from(*length), rest)),
        [0x81, length, rest @ ..] => Ok((usize::from(*length), rest)),
        [0x82, high, low, rest @ ..] => {
            Ok((usize::from(u16::from_be_bytes([*high, *low])), rest))
        }
        [] | [0x81 | 0x82, ..] => Err(TlvFault::CutShort(at)),
        [_, ..] => Err(TlvFault::BadLength(at)),
    }
}

/// The length and the value after it, and the bytes after them. `at` is the place of the object.
#[tactic(auto, unfolding(crate::specs::Reading::value_at))]
#[inline(always)]
pub fn read_value(bytes: &[u8], at: usize) -> Result<(&[u8], &[u8]), TlvFault>
    ensures exact { Gives (λ x. (x.0.now, x.1.now)) result (value_at at bytes.now) }
    ensures shorter { IfOk result (λ x. length x.1.now < length bytes.now) }
{
    let (length, rest) = read_length(bytes, at)?;
    rest.split_at_checked(length).ok_or(TlvFault::CutShort(at))
}

/// The object that begins the bytes, and the bytes after it. `at` is the place of the object.
#[tactic(auto, unfolding(crate::specs::Reading::object_at))]
#[inline(always)]
pub fn read_object(bytes: &[u8], at: usize) -> Result<(Part<'_>, &[u8]), TlvFault>
    ensures exact { Gives (λ x. (object_of x.0, x.1.now)) result (object_at at bytes.now) }
    ensures shorter { IfOk result (λ x. length x.1.now < length bytes.now) }
{
    let (flag, tag, rest) = read_tag(bytes, at)?;
    let (value, rest) = read_value(rest, at)?;
    Ok((Part { flag, tag, value }, rest))
}
