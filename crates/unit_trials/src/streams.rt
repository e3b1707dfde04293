//! Sources, sinks, and the reader of lines.

use crate::rows::Row;
use byte_streams::{
    InputSource, LineReader, ListSink, NextLine, OutputSink, Sink, SliceSource, Source,
};
use std::io;
use std::io::{ErrorKind, Read, Write};

/// `reader FAILS CALLS TEXT`: what the reader finds in so many calls in a text in memory, and how often the source was asked by then.
pub fn show_reader(row: &mut Row<'_>) {
    let numbers = row.numbers();
    let calls = row.small_number();
    let text = row.text();
    let mut source = SliceSource::new(text.as_bytes(), numbers.as_slice());
    let mut reader = LineReader::new();
    for _ in 0..calls {
        row.part();
        match reader.next(&mut source) {
            NextLine::Line => row.show_quoted("", reader.line()),
            NextLine::End => row.show("end"),
            NextLine::TooLong => row.show("too long"),
            NextLine::Failed => row.show("failed"),
        }
        row.show_number(" ", source.calls());
    }
}

/// `source FAILS CALLS TEXT`: what a text in memory hands on.
pub fn show_source(row: &mut Row<'_>) {
    let numbers = row.numbers();
    let calls = row.small_number();
    let mut source = SliceSource::new(row.word().as_bytes(), numbers.as_slice());
    show_handed_on(&mut source, calls, row);
}

/// `input whole CALLS TEXT`, `input broken CALLS`: what is handed on of a text that comes from a reader.
pub fn show_input(row: &mut Row<'_>) {
    let is_whole = row.either("whole", "broken");
    let calls = row.small_number();
    if is_whole {
        let mut source = InputSource::new(row.word().as_bytes());
        show_handed_on(&mut source, calls, row);
    } else {
        show_handed_on(&mut InputSource::new(Faulty::Broken), calls, row);
    }
}

/// What a source answers to so many calls for four bytes, each with the bytes that stand there then.
fn show_handed_on<R: Source>(source: &mut R, calls: u8, row: &mut Row<'_>) {
    let mut out = [b'.'; 4];
    for _ in 0..calls {
        row.part();
        match source.take(&mut out) {
            Ok(count) => row.show_number("", count as u64),
            Err(_) => row.show("failed"),
        }
        row.show_quoted(" ", &out);
    }
}

/// `sink FAILS ROOM PART ..`: what a list answers to these parts, of which `-` is an empty one, what it has taken, and in how many
/// calls.
pub fn show_sink(row: &mut Row<'_>) {
    let numbers = row.numbers();
    let room = usize::from(row.number());
    match ListSink::new(row.alloc(), room, numbers.as_slice()) {
        Ok(mut sink) => {
            show_answers(&mut sink, row);
            row.show_quoted("; ", sink.taken());
            row.show_number(" in ", sink.calls());
        }
        Err(fault) => row.need::<(), _>(Err(fault)),
    }
}

/// `output WRITER PART ..`: what is answered to these parts over a writer, which is `short` and has room for four bytes, `broken`,
/// `unflushed`, or at its first call `interrupted` or `failing`.
pub fn show_output(row: &mut Row<'_>) {
    match row.word() {
        "short" => {
            let mut written = [b'.'; 4];
            show_answers(&mut OutputSink::new(written.as_mut_slice()), row);
            row.show_quoted("; ", &written);
        }
        "broken" => show_answers(&mut OutputSink::new(Faulty::Broken), row),
        "unflushed" => show_answers(&mut OutputSink::new(Faulty::Unflushed), row),
        "interrupted" => show_answers(&mut OutputSink::new(Faulty::Interrupted), row),
        "failing" => show_answers(&mut OutputSink::new(Faulty::Failing), row),
        _ => row.reject(),
    }
}

fn show_answers<W: Sink>(sink: &mut W, row: &mut Row<'_>) {
    for part in row.words() {
        row.part();
        let bytes = if part == "-" { "" } else { part };
        match sink.put(bytes.as_bytes()) {
            Ok(()) => row.show("ok"),
            Err(_) => row.show("failed"),
        }
    }
}

/// A reader and a writer that don't serve, or not at once.
#[derive(Drop)]
enum Faulty {
    /// Each call fails but a flush.
    Broken,
    /// It takes all and can't hand it on.
    Unflushed,
    /// A signal interrupts its first call.
    Interrupted,
    /// Its first call fails.
    Failing,
    /// It takes all.
    Whole,
}

impl Read for Faulty {
    fn read(&mut self, _buf: &mut [u8]) -> io::Result<usize> {
        Err(io::Error::from(ErrorKind::Other))
    }
}

impl Write for Faulty {
    fn write(&mut self, buf: &[u8]) -> io::Result<usize> {
        match self {
            Faulty::Broken => Err(io::Error::from(ErrorKind::Other)),
            Faulty::Unflushed | Faulty::Whole => Ok(buf.len()),
            Faulty::Interrupted => {
                *self = Faulty::Whole;
                Err(io::Error::from(ErrorKind::Interrupted))
            }
            Faulty::Failing => {
                *self = Faulty::Whole;
                Err(io::Error::from(ErrorKind::Other))
            }
        }
    }

    fn flush(&mut self) -> io::Result<()> {
        match self {
            Faulty::Broken | Faulty::Interrupted | Faulty::Failing | Faulty::Whole => Ok(()),
            Faulty::Unflushed => Err(io::Error::from(ErrorKind::Other)),
        }
    }
}
