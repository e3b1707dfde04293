//! Writing an answer APDU.
ghost use Rattle.std.specs.Prelude.{◌≡◌, ◌+◌, ◌≤◌, ◌++◌, length, take, drop};
ghost use Rattle.uicc_types.specs.Answers.{answer_bytes};

use uicc_types::Answer;

/// Writes the data of an answer and then its two status bytes at the beginning of `out`, and answers how many bytes
/// these are. The rest of `out` stays as it was.
pub fn write_answer(answer: &Answer, out: &mut [u8; 258]) -> usize
    ensures count { result ≡ length answer.now.body + 2 }
    ensures written { take result out.new ≡ answer_bytes answer.now }
    ensures rest { drop result out.new ≡ drop result out.old }
{
    let body = answer.body.as_slice();
    let end = body.len();
    out[..end].copy_from_slice(body);
    out[end..end + 2].copy_from_slice(&answer.status.0.to_be_bytes());
    end + 2
}
