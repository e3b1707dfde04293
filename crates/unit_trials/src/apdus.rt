//! Command and answer APDUs.

use crate::rows::Row;
use apdu_form::{Command, WrongLength, read_command, write_answer};
use uicc_types::{Answer, StatusWord};

/// `apdu BYTES`: the command that is read.
pub fn show_apdu(row: &mut Row<'_>) {
    match read_command(row.all_bytes().as_slice()) {
        Ok(command) => show_command(&command, row),
        Err(WrongLength) => row.show("wrong length"),
    }
}

fn show_command(command: &Command<'_>, row: &mut Row<'_>) {
    row.show_byte("", command.class);
    row.show_byte(" ", command.ins);
    row.show_byte(" ", command.p1);
    row.show_byte(" ", command.p2);
    row.show_bytes(" with ", command.body);
    if let Some(expected) = command.expected {
        row.show_number(", ", expected);
        row.show(" expected");
    }
}

/// `answer DATA STATUS`: the bytes that are written, and what is left after them of a buffer of FF.
pub fn show_answer(row: &mut Row<'_>) {
    let mut answer = Answer::new();
    answer.body = row.list();
    answer.status = StatusWord(row.double_byte());
    let mut buffer = [0xFF; 258];
    let end = write_answer(&answer, &mut buffer);
    let (written, left) = buffer.split_at(end);
    row.show_bytes("", written);
    row.show_bytes(", then ", left);
}

/// `new-answer`: its status and its data.
pub fn show_new_answer(row: &mut Row<'_>) {
    let answer = Answer::new();
    row.show_double_byte("", answer.status.0);
    row.show_bytes(" ", answer.body.as_slice());
}
