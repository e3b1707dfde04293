//! Lines of a trace, as they are written.

use crate::rows::Row;
use byte_streams::{Failed, ListSink};
use script_form::{Note, TraceLine, write_note, write_trace};
use uicc_types::{Answer, OutOfMemory, StatusWord};

/// `trace LINE`: what a sink takes whose second call fails, where the line is written twice.
pub fn show_trace(row: &mut Row<'_>) -> Result<(), OutOfMemory> {
    let line = trace_line(row);
    let mut sink = ListSink::new(row.alloc(), LONGEST, &[2])?;
    let first = (write_trace(&mut sink, &line), sink.calls());
    let second = (write_trace(&mut sink, &line), sink.calls());
    show_taken(&sink, first, second, row);
    Ok(())
}

/// `note NOTE`: the same of a note, which is written by itself.
pub fn show_note(row: &mut Row<'_>) -> Result<(), OutOfMemory> {
    let name = row.word();
    let note = note(name, row);
    let mut sink = ListSink::new(row.alloc(), LONGEST, &[2])?;
    let first = (write_note(&mut sink, &note), sink.calls());
    let second = (write_note(&mut sink, &note), sink.calls());
    show_taken(&sink, first, second, row);
    Ok(())
}

/// No line has more bytes.
const LONGEST: usize = 600;

/// What was answered to a line that was written, and how often the sink had been called then.
type Written = (Result<(), Failed>, u64);

/// What was taken. It is told too where the first time didn't take one call, or the second didn't fail.
fn show_taken(sink: &ListSink, first: Written, second: Written, row: &mut Row<'_>) {
    row.show_quoted("", sink.taken());
    if first != (Ok(()), 1) {
        row.show(", not in one call");
    }
    if second != (Err(Failed), 2) {
        row.show(", not refused in the next");
    }
}

/// The line that a row's words name.
fn trace_line(row: &mut Row<'_>) -> TraceLine {
    match row.word() {
        "command" => TraceLine::Command(row.list()),
        "answer" => TraceLine::Answer(Answer {
            body: row.list(),
            status: StatusWord(row.double_byte()),
        }),
        "response" => TraceLine::Response(row.list()),
        "event" => TraceLine::Event(row.list()),
        "line" => TraceLine::Line(row.large_number()),
        "not-a-card" => TraceLine::NotACard(row.large_number() as usize),
        "no-applet" => TraceLine::NoApplet(row.small_number()),
        "counts" => TraceLine::Counts {
            lines: row.count(),
            commands: row.count(),
            fetches: row.count(),
            responses: row.count(),
            envelopes: row.count(),
            busy: row.count(),
        },
        name => named_line(name, row),
    }
}

/// The line that one word names.
fn named_line(name: &str, row: &mut Row<'_>) -> TraceLine {
    match name {
        "cut" => TraceLine::Cut,
        "off" => TraceLine::Off,
        "reset" => TraceLine::Reset,
        "usage" => TraceLine::Usage,
        "read-failed" => TraceLine::ReadFailed,
        "no-memory" => TraceLine::NoMemory,
        "eeprom-failed" => TraceLine::EepromFailed,
        _ => TraceLine::Note(note(name, row)),
    }
}

/// The note with a name and a row's further words.
fn note(name: &str, row: &mut Row<'_>) -> Note {
    match name {
        "text" => Note::Text(row.list()),
        "ask" => Note::Ask(row.list()),
        "choose" => Note::Choose(row.small_number()),
        "menu" => Note::Menu(row.small_number()),
        "tone" => Note::Tone(row.small_number()),
        "idle" => Note::Idle(row.list()),
        "call" => Note::Call,
        "barred" => Note::Barred,
        "busy" => Note::Busy,
        _ => {
            row.reject();
            Note::Busy
        }
    }
}
