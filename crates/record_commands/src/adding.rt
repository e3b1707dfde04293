//! The sum of two numbers in bytes, the highest first.
ghost use Rattle.std.specs.Prelude.{◌≡◌, ◌+◌, ◌-◌, ◌^◌, ◌<◌, ◌≤◌, if◌then◌else◌, IfSome, None, Some, length, nat_le, nat_lt, slice_index_or};
ghost use Rattle.file_model.specs.Records.{number_of, bytes_of};

use uicc_types::AnswerData;

// The byte at this place of a number with so many bytes before it, which are 0.
fn byte_at(number: &[u8], skipped: usize, at: usize) -> u8
    requires { at < skipped + length number.now }
    ensures { result ≡ (if nat_lt at skipped then 0 else slice_index_or number.now (at - skipped) 0) }
{
    if at < skipped {
        0
    } else {
        number[at - skipped]
    }
}

// Adds a number to another one, from the last byte on, and tells whether something is carried out of the first.
fn add(sum: &mut [u8], added: &[u8]) -> bool
    requires { length added.now ≤ length sum.old }
    ensures sum { sum.new ≡ bytes_of (length sum.old) (number_of sum.old + number_of added.now) }
    ensures carry { result ≡ nat_le (256 ^ length sum.old) (number_of sum.old + number_of added.now) }
{
    let skipped = sum.len() - added.len();
    let mut carry = 0;
    let mut at = sum.len();
    while at > 0 {
        at -= 1;
        let total = u16::from(sum[at]) + u16::from(byte_at(added, skipped, at)) + carry;
        sum[at] = (total % 256) as u8;
        carry = total / 256;
    }
    carry > 0
}

/// The sum in as many bytes as the first number has; none where it doesn't fit.
pub fn sum_of(bytes: &[u8], added: &[u8]) -> Option<AnswerData>
    requires short { length bytes.now ≤ 255 }
    requires fits { length added.now ≤ length bytes.now }
    ensures width { IfSome result (λ sum. length sum ≡ length bytes.now) }
    ensures value { result ≡ (if nat_le (256 ^ length bytes.now) (number_of bytes.now + number_of added.now) then None
        else Some (bytes_of (length bytes.now) (number_of bytes.now + number_of added.now))) }
{
    let mut buffer = [0; 255];
    let sum = &mut buffer[..bytes.len()];
    sum.copy_from_slice(bytes);
    if add(sum, added) {
        None
    } else {
        Some(AnswerData::from_slice(sum))
    }
}
