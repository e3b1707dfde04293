//! The link's own answers, and how much of an answer a terminal takes.
ghost use Rattle.std.specs.Prelude.{◌≡◌, ◌≤◌, length};
ghost use Rattle.apdu_form.specs.Model.{ne_of, cut_to};
ghost use Rattle.t0_link.specs.Carrying.{cut_answer_to};
ghost use Rattle.t0_link.specs.Linking.{announced, counting, fetched, kept_of, status_alone};

use uicc_types::{Answer, AnswerData, Full, StatusWord};

/// SW1 of `61XX`: so many bytes of data wait for GET RESPONSE.
pub const MORE_DATA: u8 = 0x61;

/// SW1 of `6CXX`: so many bytes are there, and not as many as were asked for.
pub const WRONG_LE: u8 = 0x6C;

// A status that counts bytes, where `00` stands for 256.
fn counting(sw1: u8, count: usize) -> StatusWord
    ensures { result ≡ counting sw1 count }
{
    StatusWord(u16::from(sw1) * 256 + (count % 256) as u16)
}

// How many bytes P3 counts, where `00` stands for 256.
fn count_of(p3: u8) -> usize
    ensures { result ≡ ne_of p3 }
{
    if p3 == 0 { 256 } else { usize::from(p3) }
}

// The first bytes, at most so many as are expected.
fn front(bytes: &[u8], expected: Option<u16>) -> &[u8]
    ensures value { result.now ≡ cut_to expected bytes.now }
    ensures shorter { length result.now ≤ length bytes.now }
{
    match expected {
        Some(expected) => &bytes[..bytes.len().min(usize::from(expected))],
        None => bytes,
    }
}

/// Answers a status without data.
pub fn answer_status(status: StatusWord, out: &mut Answer)
    ensures { out.new ≡ status_alone status }
{
    out.body.clear();
    out.status = status;
}

// Answers the same, with so many of its data as are expected.
fn answer_same(answer: &Answer, expected: Option<u16>, out: &mut Answer)
    ensures { out.new ≡ cut_answer_to expected answer.now }
{
    out.body.clear();
    match out.body.append(front(answer.body.as_slice(), expected)) {
        Ok(()) => out.status = answer.status,
        Err(Full) => unreachable!(),
    }
}

/// Answers for a card whose answer to a command stays here: its status, or that it has so many data.
pub fn announce(kept: &Answer, out: &mut Answer)
    ensures { out.new ≡ announced kept.now }
{
    match kept.body.as_slice().len() {
        0 => answer_status(kept.status, out),
        count => answer_status(counting(MORE_DATA, count), out),
    }
}

/// Answers GET RESPONSE out of what is kept, with so many of its data as are expected. The data are copied this once.
pub fn fetch(p3: u8, expected: Option<u16>, kept: &mut Answer, out: &mut Answer)
    ensures answer { out.new ≡ cut_answer_to expected (fetched p3 (kept_of kept.old)).answer }
    ensures kept { kept_of kept.new ≡ (fetched p3 (kept_of kept.old)).kept }
{
    let count = kept.body.as_slice().len();
    if count == 0 {
        answer_status(StatusWord::CONDITIONS_NOT_SATISFIED, out);
    } else if count == count_of(p3) {
        answer_same(kept, expected, out);
        kept.body.clear();
    } else {
        answer_status(counting(WRONG_LE, count), out);
    }
}

/// Cuts an answer to so many data as are expected.
pub fn cut(expected: Option<u16>, out: &mut Answer)
    ensures { out.new ≡ cut_answer_to expected out.old }
{
    let body = out.body.as_slice();
    if let Some(expected) = expected
        && usize::from(expected) < body.len()
    {
        let front = AnswerData::from_slice(&body[..usize::from(expected)]);
        out.body = front;
    }
}
