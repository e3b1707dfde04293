//! The first part of a script, up to its `start`.

use crate::rows::Row;
use applet_trait::kind_on;
use boxed_applets::Clock;
use byte_streams::SliceSource;
use layout_section::Section;
use script_reader::{ScriptFault, ScriptReader};
use section_lines::read_section;

/// `script CARD FAILS TEXT`: what the lines of a text come to. They describe a card where `CARD` is `bare` or `boxed`, with a box on
/// no shelf or on each from 0 to 32 but shelf 3, and none where it is `opened`.
pub fn show_script(row: &mut Row<'_>) {
    let card = row.word();
    if !["bare", "boxed", "opened"].contains(&card) {
        row.reject();
    }
    let numbers = row.numbers();
    let text = row.text();
    let mut source = SliceSource::new(text.as_bytes(), numbers.as_slice());
    let mut script = ScriptReader::new();
    let mut section = match card {
        "opened" => None,
        _ => Section::new(row.alloc()).ok(),
    };
    let cast = match card {
        "boxed" => boxes(row),
        _ => Vec::new(row.alloc()),
    };
    let outcome = read_section(&mut script, &mut source, &cast, &mut section);
    show_outcome(outcome, script.number(), row);
}

fn show_outcome(outcome: Result<(), ScriptFault>, lines: u32, row: &mut Row<'_>) {
    match outcome {
        Ok(()) => row.show_number("start ", lines),
        Err(ScriptFault::BadLine(number)) => row.show_number("bad ", number),
        Err(ScriptFault::NoRoom(number)) => row.show_number("no room ", number),
        Err(ScriptFault::ReadFailed) => row.show("read failed"),
    }
}

/// `box SHELF`: the kind of the box on a shelf.
pub fn show_box(row: &mut Row<'_>) {
    let shelf = row.small_number();
    match kind_on(&boxes(row), shelf) {
        Some(kind) => row.show_number("kind ", kind),
        None => row.show("none"),
    }
}

/// A box on each of the shelves 0 to 32 but shelf 3.
fn boxes(row: &mut Row<'_>) -> Vec<Option<Clock>> {
    let mut cast = Vec::new(row.alloc());
    for shelf in 0..33u8 {
        row.need(cast.push(if shelf == 3 { None } else { Some(Clock::new()) }));
    }
    cast
}
