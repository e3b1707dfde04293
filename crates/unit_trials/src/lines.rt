//! Lines of a script: what each says.

use crate::rows::Row;
use script_form::{
    HandsetLine, LineFault, Path, ScriptLine, handset_line, read_line, read_line_into,
};
use uicc_types::FileId;

/// `line TEXT`: what a line says that is the seventh of its script.
pub fn show_line(row: &mut Row<'_>) {
    match read_line(row.text().as_bytes(), 7) {
        Ok(line) => show_script_line(&line, row),
        Err(LineFault(number)) => row.show_number("bad ", number),
    }
}

/// `lines TEXT`: what the lines of a script say, each read into the place of the one before.
pub fn show_lines(row: &mut Row<'_>) {
    let text = row.text();
    let mut line = ScriptLine::Passed;
    for (one, number) in text.as_str().split('\n').zip(1..99u32) {
        row.part();
        match read_line_into(one.as_bytes(), number, &mut line) {
            Ok(()) => show_script_line(&line, row),
            Err(LineFault(number)) => row.show_number("bad ", number),
        }
    }
}

pub fn show_script_line(line: &ScriptLine, row: &mut Row<'_>) {
    match line {
        ScriptLine::Passed => row.show("passed"),
        ScriptLine::Start => row.show("start"),
        ScriptLine::Reset => row.show("reset"),
        ScriptLine::Apdu(apdu) => row.show_bytes("command ", apdu.as_slice()),
        ScriptLine::Tpdu(tpdu) => row.show_bytes("TPDU ", tpdu.as_slice()),
        ScriptLine::Cut(cut) => {
            row.show_number("cut ", cut.call);
            row.show_number(" keeps ", cut.kept);
            row.show_byte(" rest ", cut.rest);
        }
        ScriptLine::Fail(fail) => {
            row.show_number("failure ", fail.call);
            row.show_byte(" rest ", fail.rest);
        }
        ScriptLine::ReadFail(call) => row.show_number("read failure ", *call),
        ScriptLine::Cmd(command) => row.show_bytes("proactive ", command.as_slice()),
        ScriptLine::Echo { channel, count } => {
            row.show_number("channel ", *channel);
            row.show_number(" echoes ", *count);
        }
        ScriptLine::Lose(channel) => row.show_number("loses channel ", *channel),
        _ => match handset_line(line) {
            Some(happening) => show_happening(&happening, row),
            None => show_described(line, row),
        },
    }
}

/// What a line says that a card has.
fn show_described(line: &ScriptLine, row: &mut Row<'_>) {
    match line {
        ScriptLine::Df { path } => show_path("DF ", path, row),
        ScriptLine::Fill {
            path,
            offset,
            bytes,
        } => {
            show_path("", path, row);
            row.show_number(" from ", *offset);
            row.show_bytes(" ", bytes.as_slice());
        }
        ScriptLine::Rec {
            path,
            number,
            bytes,
        } => {
            show_path("", path, row);
            row.show_number(" record ", *number);
            row.show_bytes(" ", bytes.as_slice());
        }
        ScriptLine::Pin {
            key,
            value,
            enabled,
            unblock,
        } => {
            row.show_byte("PIN ", *key);
            row.show_bytes(" ", &value.0);
            row.show(if *enabled { " enabled" } else { " disabled" });
            row.show_bytes(" unblock ", &unblock.0);
        }
        ScriptLine::Row {
            shelf,
            priority,
            content,
        } => {
            row.show_number("shelf ", *shelf);
            row.show_number(" priority ", *priority);
            row.show_bytes(" ", content.as_slice());
        }
        _ => show_ef(line, row),
    }
}

/// What a line says of an EF that a card has.
fn show_ef(line: &ScriptLine, row: &mut Row<'_>) {
    match line {
        ScriptLine::Transparent {
            path,
            size,
            short,
            rule,
        } => {
            show_path("transparent ", path, row);
            row.show_number(" of ", *size);
            show_use(*short, *rule, row);
        }
        ScriptLine::Linear {
            path,
            length,
            count,
            short,
            rule,
        } => {
            show_path("linear ", path, row);
            show_records(*count, *length, row);
            show_use(*short, *rule, row);
        }
        ScriptLine::Cyclic {
            path,
            length,
            count,
            short,
            rule,
        } => {
            show_path("cyclic ", path, row);
            show_records(*count, *length, row);
            show_use(*short, *rule, row);
        }
        _ => row.show("?"),
    }
}

/// The identifiers of a path, from the MF down.
fn show_path(words: &str, path: &Path, row: &mut Row<'_>) {
    row.show(words);
    for identifier in path.as_slice() {
        row.show_double_byte("", identifier.0);
    }
}

fn show_records(count: u8, length: u8, row: &mut Row<'_>) {
    row.show_number(" of ", count);
    row.show_number(" by ", length);
}

/// How an EF is found without its path, and by which rule it is used.
fn show_use(short: Option<u8>, rule: Option<(FileId, u8)>, row: &mut Row<'_>) {
    if let Some(short) = short {
        row.show_number(" short ", short);
    }
    if let Some((file, record)) = rule {
        row.show_double_byte(" rule ", file.0);
        row.show_number(" ", record);
    }
}

/// What a line says that happens at a handset.
pub fn show_happening(line: &HandsetLine, row: &mut Row<'_>) {
    match line {
        HandsetLine::UserOk => row.show("confirms"),
        HandsetLine::UserEnd => row.show("ends"),
        HandsetLine::UserBack => row.show("goes back"),
        HandsetLine::UserNone => row.show("waits"),
        HandsetLine::UserType(text) => row.show_quoted("types ", text.as_slice()),
        HandsetLine::UserPick(id) => row.show_number("picks ", *id),
        HandsetLine::UserPress => row.show("presses"),
        HandsetLine::UserIdle => row.show("idle"),
        HandsetLine::UserDial(digits) => row.show_quoted("dials ", digits.as_slice()),
        HandsetLine::NetPlace(place) => row.show_bytes("place ", place.as_slice()),
        HandsetLine::NetPoll => row.show("polls"),
        HandsetLine::Time(seconds) => row.show_number("passes ", *seconds),
        HandsetLine::Reset => row.show("resets"),
    }
}
