//! Lists of bytes of a bounded length.

use crate::rows::Row;
use uicc_types::{ByteList, Full};

/// `list ACT ..`: what a list of at most three bytes answers to these acts, and what it holds at the end.
pub fn show_list(row: &mut Row<'_>) {
    let mut list = ByteList::<3>::new();
    for word in row.words() {
        row.part();
        let (act, part) = word.split_once('=').unwrap_or((word, "-"));
        let part = row.bytes_in(part);
        show_act(&mut list, act, part.as_slice(), row);
    }
    row.show_bytes("; ", list.as_slice());
}

fn show_act(list: &mut ByteList<3>, act: &str, part: &[u8], row: &mut Row<'_>) {
    match (act, part) {
        ("append", _) => show_outcome(list.append(part), row),
        ("push", [byte]) => show_outcome(list.push(*byte), row),
        ("copy", []) => row.show_bytes("", list.copy().as_slice()),
        ("of", [_, _, _]) => row.show_bytes("", ByteList::<3>::from_slice(part).as_slice()),
        ("clear", []) => {
            list.clear();
            row.show("cleared");
        }
        _ => row.reject(),
    }
}

fn show_outcome(outcome: Result<(), Full>, row: &mut Row<'_>) {
    row.show(if outcome.is_ok() { "ok" } else { "full" });
}
