//! The writes of a commit, which stay from row to row.

use crate::rows::Row;
use store_form::Writes;
use uicc_types::Full;

/// `writes new`, `writes add PLACE BYTES`, `writes piece NUMBER`: how many pieces there are, or the piece.
pub fn show_writes(writes: &mut Writes, row: &mut Row<'_>) {
    match row.word() {
        "new" => *writes = Writes::new(),
        "add" => {
            let place = row.number();
            if writes.add(place, row.bytes().as_slice()) == Err(Full) {
                row.show("full, ");
            }
        }
        "piece" => return show_piece(writes, usize::from(row.number()), row),
        _ => return row.reject(),
    }
    row.show_number("", writes.len() as u64);
    row.show(" pieces");
}

fn show_piece(writes: &Writes, at: usize, row: &mut Row<'_>) {
    if at >= writes.len() {
        return row.reject();
    }
    let (place, bytes) = writes.piece(at);
    row.show_number("", place);
    row.show_bytes(" ", bytes);
}

/// Shows the piece that was added last, or that there was no room for it.
pub fn show_added(writes: &Writes, added: Result<(), Full>, row: &mut Row<'_>) {
    match (added, writes.len().checked_sub(1)) {
        (Ok(()), Some(last)) => show_piece(writes, last, row),
        _ => row.show("full"),
    }
}
