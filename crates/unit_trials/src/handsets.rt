//! A handset that stays from row to row, and is answered what no card here answers.
ghost use Rattle.std.specs.Prelude.{◌≡◌, IsTrue};
ghost use Rattle.handset_model.specs.History.{span_of};
ghost use Rattle.handset_model.specs.Legal.{IsBounded};

use crate::rows::Row;
use byte_streams::{Failed, ListSink};
use script_form::{
    HandsetLine, TraceLine, handset_line, read_line, write_command, write_note, write_trace,
};
use terminal_side::{Phone, PhoneStep};
use uicc_types::{Answer, OutOfMemory, StatusWord};

/// `phone new`: one that is started. `phone next`: what it does next, as a trace shows it, or `nothing`; where that is a reset, it is carried
/// out. `phone answer BYTES`: the card answers these data and status. `phone off`: the card has lost power. `phone hears LINE`: a line of a
/// script, which a handset hears that rests. `phone serves TIMES BYTES ..`: so many times, what it does next is answered with each of
/// these in turn, and it comes to what it did first.
pub fn show_phone(phone: &mut Phone, row: &mut Row<'_>) -> Result<(), OutOfMemory> {
    match row.word() {
        "new" => {
            *phone = Phone::new();
            phone.start();
        }
        "next" => show_next(phone, row)?,
        "answer" => {
            let bytes = row.word();
            take_answer(phone, bytes, row);
        }
        "off" => phone.lost_power(),
        "hears" => hear(phone, row),
        "serves" => serve(phone, row)?,
        _ => row.reject(),
    }
    Ok(())
}

/// The room for the longest line of a trace.
const ROOM: usize = 600;

fn show_next(phone: &mut Phone, row: &mut Row<'_>) -> Result<(), OutOfMemory> {
    let mut sink = ListSink::new(row.alloc(), ROOM, &[])?;
    let written = write_next(phone, &mut sink);
    match sink.taken() {
        [line @ .., b'\n'] if written.is_ok() => row.show_characters(line),
        _ => row.show("nothing"),
    }
    Ok(())
}

/// Writes what the handset does next. Where that is a reset, it is carried out.
fn write_next(phone: &mut Phone, sink: &mut ListSink) -> Result<(), Failed> {
    match phone.next() {
        Some(PhoneStep::Send(apdu)) => write_command(sink, apdu.as_slice()),
        Some(PhoneStep::Note(note)) => write_note(sink, &note),
        Some(PhoneStep::Reset) => {
            phone.start();
            write_trace(sink, &TraceLine::Reset)
        }
        None => Ok(()),
    }
}

/// The card answers with the data and the status of a word.
fn take_answer(phone: &mut Phone, word: &str, row: &mut Row<'_>) {
    let bytes = row.bytes_in(word);
    let mut answer = Answer::new();
    match bytes.as_slice() {
        [data @ .., high, low] if answer.body.append(data).is_ok() => {
            answer.status = StatusWord(u16::from_be_bytes([*high, *low]));
            phone.take_answer(&answer);
        }
        _ => row.reject(),
    }
}

fn serve(phone: &mut Phone, row: &mut Row<'_>) -> Result<(), OutOfMemory> {
    let times = row.number();
    let mut answers = Vec::new(row.alloc());
    for word in row.words() {
        row.need(answers.push(word));
    }
    for turn in 0..times {
        for answer in &answers {
            if turn == 0 {
                row.part();
                show_next(phone, row)?;
            } else if phone.next().is_none() {
                row.show_number(", nothing in turn ", turn);
            }
            take_answer(phone, answer, row);
        }
    }
    Ok(())
}

/// Tells the handset what a line says, where it rests and the line says something to one that is within its bounds.
fn hear(phone: &mut Phone, row: &mut Row<'_>) {
    let line = match read_line(row.text().as_bytes(), 1) {
        Ok(line) => handset_line(&line),
        Err(_) => None,
    };
    match line {
        Some(line) if phone.next().is_none() && is_bounded(&line) => {
            if phone.clock().saturating_add(u64::from(span_of(&line))) < 1 << 63 {
                phone.hear(&line);
            }
        }
        _ => row.reject(),
    }
}

/// Whether the values of the line are within their bounds.
fn is_bounded(line: &HandsetLine) -> bool
    ensures { IsTrue result → IsBounded line.now }
{
    match line {
        HandsetLine::UserType(text) => text.as_slice().len() <= 30,
        HandsetLine::UserPick(id) => *id >= 1,
        HandsetLine::UserDial(digits) => matches!(digits.as_slice().len(), 1..=20),
        HandsetLine::NetPlace(place) => matches!(place.as_slice().len(), 1..=32),
        _ => true,
    }
}

/// How many seconds pass with the line.
fn span_of(line: &HandsetLine) -> u32
    ensures { result ≡ span_of line.now }
{
    match line {
        HandsetLine::Time(seconds) => *seconds,
        _ => 0,
    }
}
