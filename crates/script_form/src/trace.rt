//! Trace lines, written.
ghost use Rattle.std.specs.Prelude.{◌≡◌, ◌+◌, ◌*◌, ◌≤◌, ◌++◌, ◌∷◌, [], decimal, length, take, IsErr, OnErr, OnOk};
ghost use Rattle.std.specs.Char.{to_ascii_uppercase};
ghost use Rattle.std.specs.Io.KnownBytes.{append_known};
ghost use Rattle.hex.specs.Hex.{encode_lower, encode_upper};
ghost use Rattle.uicc_types.specs.Told.{Becomes};
ghost use Rattle.byte_streams.specs.Streams.{CountsEach, TakesFront};
ghost use Rattle.script_form.specs.Traces.{IsPut, trace_text};
ghost use Rattle.script_form.specs.declared.trace.TraceLine.TheVariants as line;

use crate::handset::Note;
use crate::notes::{LONGEST_NOTE, put_note};
use arrayvec::ArrayVec;
use byte_streams::{Failed, Sink};
use hex::encode_to_slice;
use itoa::Buffer;
use uicc_types::{Answer, ApduBytes, LONGEST_COMMAND, Octets, StatusWord};

/// One line of a trace.
#[derive(Debug, Drop)]
pub enum TraceLine {
    /// A command was sent.
    Command(ApduBytes),
    /// The card answered it.
    Answer(Answer),
    /// Power was lost in a command or a reset.
    Cut,
    /// A command was sent to a card without power.
    Off,
    /// The card was reset.
    Reset,
    /// The handset noted something.
    Note(Note),
    /// A terminal responded to a proactive command.
    Response(Octets),
    /// A terminal reported an event.
    Event(Octets),
    /// The words of the command line are in no form.
    Usage,
    /// The line of the script with this number, counted from 1, is wrong.
    Line(u32),
    /// The script could not be read on.
    ReadFailed,
    /// There was no memory to begin with.
    NoMemory,
    /// The card's memory failed.
    EepromFailed,
    /// What the memory holds is no card: the check at this place is the first that fails.
    NotACard(usize),
    /// The applet that is registered on this shelf is not there.
    NoApplet(u8),
    /// So many lines were given to a handset, so many commands it sent, fetches, responses and envelopes among them, and so
    /// often the card was busy.
    Counts {
        lines: u64,
        commands: u64,
        fetches: u64,
        responses: u64,
        envelopes: u64,
        busy: u64,
    },
}

/// Writes one line with its end, in one call of `put`. It fails only where the sink did, which has then taken the
/// beginning of the line, be it none or all.
#[tactic(auto, unfolding(crate::specs::Traces::trace_text))]
pub fn write_trace<W: Sink>(sink: &mut W, line: &TraceLine) -> Result<(), Failed>
    ensures ok { OnOk result (W.taken sink.new ≡ append_known (W.taken sink.old) (trace_text line.now)) }
    ensures err { OnErr result
        (Becomes (TakesFront (trace_text line.now)) (W.taken sink.old) (W.taken sink.new)) }
    ensures cause { CountsEach (W.faults sink.old) (W.faults sink.new) (IsErr result) }
{
    match line {
        TraceLine::Command(apdu) => write_command(sink, apdu.as_slice()),
        TraceLine::Answer(answer) => write_answer(sink, answer),
        TraceLine::Cut => sink.put(b"! cut\n"),
        TraceLine::Off => sink.put(b"! off\n"),
        TraceLine::Reset => sink.put(b"! reset\n"),
        TraceLine::Note(note) => write_note(sink, note),
        TraceLine::Response(data) => write_bytes(sink, b"< ", data.as_slice()),
        TraceLine::Event(event) => write_bytes(sink, b"* event ", event.as_slice()),
        TraceLine::Usage => sink.put(b"usage\n"),
        TraceLine::Line(number) => write_number(sink, b"line ", u64::from(*number)),
        TraceLine::ReadFailed => sink.put(b"read failed\n"),
        TraceLine::NoMemory => sink.put(b"no memory\n"),
        TraceLine::EepromFailed => sink.put(b"eeprom failed\n"),
        TraceLine::NotACard(at) => write_number(sink, b"not a card ", *at as u64),
        TraceLine::NoApplet(shelf) => write_number(sink, b"no applet ", u64::from(*shelf)),
        TraceLine::Counts {
            lines,
            commands,
            fetches,
            responses,
            envelopes,
            busy,
        } => write_counts(
            sink, *lines, *commands, *fetches, *responses, *envelopes, *busy,
        ),
    }
}

/// Writes the line of a command as `write_trace` does.
pub fn write_command<W: Sink>(sink: &mut W, apdu: &[u8]) -> Result<(), Failed>
    requires { length apdu.now ≤ LONGEST_COMMAND }
    ensures ok { OnOk result (W.taken sink.new ≡ append_known (W.taken sink.old) (trace_text (line.Command apdu.now))) }
    ensures err { OnErr result
        (Becomes (TakesFront (trace_text (line.Command apdu.now))) (W.taken sink.old) (W.taken sink.new)) }
    ensures cause { CountsEach (W.faults sink.old) (W.faults sink.new) (IsErr result) }
{
    // Most lines show few bytes, and are put together in a short buffer, since all of a buffer is filled with zeros before and raised after.
    match apdu.len() {
        0..=7 => put_command::<18, W>(sink, apdu),
        8..=15 => put_command::<34, W>(sink, apdu),
        16..=23 => put_command::<50, W>(sink, apdu),
        24..=31 => put_command::<66, W>(sink, apdu),
        _ => put_command::<LONGEST, W>(sink, apdu),
    }
}

/// The bytes of a command's header (ISO 7816-4, 5.1).
const HEADER: usize = 4;

#[tactic(auto, unfolding(crate::specs::Traces::trace_text))]
fn put_command<const N: usize, W: Sink>(sink: &mut W, apdu: &[u8]) -> Result<(), Failed>
    requires fits { 2 * length apdu.now + 3 ≤ N }
    requires size { N ≤ LONGEST }
    ensures put { IsPut (trace_text (line.Command apdu.now)) (W.taken sink.old) (W.taken sink.new) result }
    ensures cause { CountsEach (W.faults sink.old) (W.faults sink.new) (IsErr result) }
{
    let mut text = ArrayVec::from([0; N]);
    // The digits of the header, whose length is known here, are written without a loop.
    let size = match apdu.split_at_checked(HEADER) {
        Some((header, rest)) => fill_line(text.as_mut_slice(), b'>', header, rest),
        None => fill_line(text.as_mut_slice(), b'>', apdu, &[]),
    };
    sink.put(&text.as_slice()[..size])
}

/// Writes the line of an answer as `write_trace` does.
pub fn write_answer<W: Sink>(sink: &mut W, answer: &Answer) -> Result<(), Failed>
    ensures ok { OnOk result (W.taken sink.new ≡ append_known (W.taken sink.old)
        (trace_text (line.Answer answer.now))) }
    ensures err { OnErr result
        (Becomes (TakesFront (trace_text (line.Answer answer.now))) (W.taken sink.old) (W.taken sink.new)) }
    ensures cause { CountsEach (W.faults sink.old) (W.faults sink.new) (IsErr result) }
{
    let body = answer.body.as_slice();
    match body.len() {
        0 => put_answer::<18, W>(sink, body, answer.status),
        1..=13 => put_answer::<34, W>(sink, body, answer.status),
        14..=21 => put_answer::<50, W>(sink, body, answer.status),
        22..=29 => put_answer::<66, W>(sink, body, answer.status),
        _ => put_answer::<LONGEST, W>(sink, body, answer.status),
    }
}

#[tactic(auto, unfolding(crate::specs::Traces::trace_text))]
fn put_answer<const N: usize, W: Sink>(
    sink: &mut W,
    body: &[u8],
    status: StatusWord,
) -> Result<(), Failed>
    requires fits { 2 * length body.now + 7 ≤ N }
    requires size { N ≤ LONGEST }
    ensures put { IsPut (trace_text (line.Answer (record { body = body.now; status = status })))
        (W.taken sink.old) (W.taken sink.new) result }
    ensures cause { CountsEach (W.faults sink.old) (W.faults sink.new) (IsErr result) }
{
    let mut text = ArrayVec::from([0; N]);
    let size = fill_line(text.as_mut_slice(), b'<', body, &status.0.to_be_bytes());
    sink.put(&text.as_slice()[..size])
}

/// Fills in the line of a command or an answer at the front of `text`, and answers how many bytes it has: a mark, a space, the digits of
/// the bytes, and the end. It is inlined where the length of `text` is known.
#[inline(always)]
fn fill_line(text: &mut [u8], mark: u8, body: &[u8], status: &[u8]) -> usize
    requires fits { 2 * length body.now + 2 * length status.now + 3 ≤ length text.old }
    ensures line { take result text.new ≡ mark ∷ 32 ∷ encode_upper (body.now ++ status.now) ++ 10 ∷ [] }
    ensures within { result ≤ length text.new }
{
    text[0] = mark;
    text[1] = b' ';
    2 + fill_digits(&mut text[2..], body, status)
}

/// Fills in the digits of the bytes, and the end. All of `text` is raised, in a step for 16 bytes each, and what is no letter stays as
/// it is.
#[inline(always)]
fn fill_digits(text: &mut [u8], body: &[u8], status: &[u8]) -> usize
    requires fits { 2 * length body.now + 2 * length status.now + 1 ≤ length text.old }
    ensures line { take result text.new ≡ encode_upper (body.now ++ status.now) ++ 10 ∷ [] }
    ensures size { result ≡ 2 * length body.now + 2 * length status.now + 1 }
    ensures within { result ≤ length text.new }
{
    let middle = 2 * body.len();
    let end = middle + 2 * status.len();
    put_digits(body, &mut text[..middle]);
    put_digits(status, &mut text[middle..end]);
    text[end] = b'\n';
    text.make_ascii_uppercase();
    end + 1
}

/// So many bytes at the front are written without a loop, where there are as many.
const FRONT: usize = 8;

/// Writes two digits for each byte over `digits`, the letters in lower case.
fn put_digits(bytes: &[u8], digits: &mut [u8])
    requires { length digits.old ≡ 2 * length bytes.now }
    ensures { digits.new ≡ encode_lower bytes.now }
{
    match bytes.split_at_checked(FRONT) {
        Some((front, rest)) => {
            let (first, others) = digits.split_at_mut(2 * FRONT);
            encode_over(front, first);
            encode_over(rest, others);
        }
        None => encode_over(bytes, digits),
    }
}

/// Writes the digits of any number of bytes.
fn encode_over(bytes: &[u8], digits: &mut [u8])
    requires { length digits.old ≡ 2 * length bytes.now }
    ensures { digits.new ≡ encode_lower bytes.now }
{
    match encode_to_slice(bytes, digits) {
        Ok(()) => {}
        Err(_) => unreachable!(),
    }
}

/// Writes the line of a note as `write_trace` does.
pub fn write_note<W: Sink>(sink: &mut W, note: &Note) -> Result<(), Failed>
    ensures ok { OnOk result (W.taken sink.new ≡ append_known (W.taken sink.old) (trace_text (line.Note note.now))) }
    ensures err { OnErr result
        (Becomes (TakesFront (trace_text (line.Note note.now))) (W.taken sink.old) (W.taken sink.new)) }
    ensures cause { CountsEach (W.faults sink.old) (W.faults sink.new) (IsErr result) }
{
    let mut text = ArrayVec::<u8, LONGEST_NOTE>::new();
    put_note(&mut text, note);
    sink.put(text.as_slice())
}

/// The bytes of the longest line: a mark of two bytes, the digits of the longest command, and the end.
const LONGEST: usize = 2 + 2 * LONGEST_COMMAND + 1;

/// The most bytes whose digits are written at once. Most lines show few, and letters are raised at once where their number is known.
const FEW: usize = 16;

/// Writes a line of words and the digits of bytes after them.
fn write_bytes<W: Sink>(sink: &mut W, words: &[u8], bytes: &[u8]) -> Result<(), Failed>
    requires fits { length words.now + 2 * length bytes.now + 1 ≤ LONGEST }
    ensures put { IsPut (words.now ++ encode_upper bytes.now ++ 10 ∷ []) (W.taken sink.old) (W.taken sink.new) result }
    ensures cause { CountsEach (W.faults sink.old) (W.faults sink.new) (IsErr result) }
{
    let mut text = ArrayVec::<u8, LONGEST>::new();
    put_text(&mut text, words);
    put_hex(&mut text, bytes);
    put_text(&mut text, b"\n");
    sink.put(text.as_slice())
}

/// Writes a line of words and a number after them.
#[tactic(auto, using(crate::proofs::EncodeWithLemmas::joined_digits))]
fn write_number<W: Sink>(sink: &mut W, words: &[u8], number: u64) -> Result<(), Failed>
    requires fits { length words.now + 21 ≤ LONGEST }
    ensures put { IsPut (words.now ++ decimal number ++ 10 ∷ []) (W.taken sink.old) (W.taken sink.new) result }
    ensures cause { CountsEach (W.faults sink.old) (W.faults sink.new) (IsErr result) }
{
    let mut text = ArrayVec::<u8, LONGEST>::new();
    put_count(&mut text, words, number);
    put_text(&mut text, b"\n");
    sink.put(text.as_slice())
}

/// Writes the line of the counts of a long run.
#[tactic(auto, using(crate::proofs::EncodeWithLemmas::joined_digits), unfolding(crate::specs::Traces::trace_text))]
fn write_counts<W: Sink>(
    sink: &mut W,
    lines: u64,
    commands: u64,
    fetches: u64,
    responses: u64,
    envelopes: u64,
    busy: u64,
) -> Result<(), Failed>
    ensures put { IsPut (trace_text (line.Counts lines commands fetches responses envelopes busy))
        (W.taken sink.old) (W.taken sink.new) result }
    ensures cause { CountsEach (W.faults sink.old) (W.faults sink.new) (IsErr result) }
{
    let mut text = ArrayVec::<u8, LONGEST>::new();
    put_count(&mut text, b"lines ", lines);
    put_count(&mut text, b" commands ", commands);
    put_count(&mut text, b" fetches ", fetches);
    put_count(&mut text, b" responses ", responses);
    put_count(&mut text, b" envelopes ", envelopes);
    put_count(&mut text, b" busy ", busy);
    put_text(&mut text, b"\n");
    sink.put(text.as_slice())
}

/// Adds words and a number after them.
fn put_count(text: &mut ArrayVec<u8, LONGEST>, words: &[u8], count: u64)
    requires { length text.old.items + length words.now + 20 ≤ LONGEST }
    ensures items { text.new.items ≡ text.old.items ++ words.now ++ decimal count }
    ensures size { length text.new.items ≤ length text.old.items + length words.now + 20 }
{
    put_text(text, words);
    put_text(text, Buffer::new().format(count).as_bytes());
}

/// Puts words and the digits of a number after them into an empty buffer, with the end of the line.
pub fn put_numbered<const N: usize>(text: &mut ArrayVec<u8, N>, words: &[u8], digits: &[u8])
    requires empty { text.old.items ≡ [] }
    requires fits { length words.now + length digits.now + 1 ≤ N }
    ensures { text.new.items ≡ words.now ++ digits.now ++ 10 ∷ [] }
{
    put_text(text, words);
    put_text(text, digits);
    put_text(text, b"\n");
}

/// Adds `part` at the end.
pub fn put_text<const N: usize>(text: &mut ArrayVec<u8, N>, part: &[u8])
    requires { length text.old.items + length part.now ≤ N }
    ensures items { text.new.items ≡ text.old.items ++ part.now }
    ensures size { length text.new.items ≡ length text.old.items + length part.now }
{
    match text.try_extend_from_slice(part) {
        Ok(()) => {}
        Err(_) => unreachable!(),
    }
}

/// Adds two digits for each byte at the end, the letters in upper case.
pub fn put_hex<const N: usize>(text: &mut ArrayVec<u8, N>, bytes: &[u8])
    requires { length text.old.items + 2 * length bytes.now ≤ N }
    ensures items { text.new.items ≡ text.old.items ++ encode_upper bytes.now }
    ensures size { length text.new.items ≡ length text.old.items + 2 * length bytes.now }
{
    let mut rest = bytes;
    while !rest.is_empty() {
        let (few, behind) = rest.split_at(rest.len().min(FEW));
        put_few(text, few);
        rest = behind;
    }
}

/// Adds the digits of at most `FEW` bytes.
fn put_few<const N: usize>(text: &mut ArrayVec<u8, N>, bytes: &[u8])
    requires few { length bytes.now ≤ FEW }
    requires room { length text.old.items + 2 * length bytes.now ≤ N }
    ensures items { text.new.items ≡ text.old.items ++ encode_upper bytes.now }
    ensures size { length text.new.items ≡ length text.old.items + 2 * length bytes.now }
{
    let mut digits = [0; 2 * FEW];
    let size = 2 * bytes.len();
    put_digits(bytes, &mut digits[..size]);
    digits.make_ascii_uppercase();
    put_text(text, &digits[..size]);
}
