//! Where entries stand, and the kinds and identifiers of files.

use crate::rows::Row;
use card_state::kinds::{has_records, is_ef, is_free_id};
use card_state::places::{place_of_kept, place_of_node, place_of_pin, place_of_row};
use card_state::sizes::{NODE_COUNT, PIN_COUNT, ROW_COUNT};
use uicc_types::{FileId, Shelf};

/// `place ENTRY NUMBER`: where the entry stands.
pub fn show_place(row: &mut Row<'_>) {
    let entry = row.word();
    let number = row.small_number();
    let index = usize::from(number);
    let place = match entry {
        "file" if index < NODE_COUNT => place_of_node(number),
        "pin" if index < PIN_COUNT => place_of_pin(number),
        "row" if index < ROW_COUNT => place_of_row(Shelf(number)),
        "kept" if index < ROW_COUNT => place_of_kept(Shelf(number)),
        _ => return row.reject(),
    };
    row.show_number("", place);
}

/// `kind BYTE`: whether a file of this kind is an EF, and has records.
pub fn show_kind(row: &mut Row<'_>) {
    let kind = row.byte();
    row.show(if is_ef(kind) { "ef, " } else { "no ef, " });
    row.show(if has_records(kind) {
        "records"
    } else {
        "no records"
    });
}

/// `identifier BYTES`: whether a file other than the MF may have it.
pub fn show_identifier(row: &mut Row<'_>) {
    let is_free = is_free_id(FileId(row.double_byte()));
    row.show(if is_free { "free" } else { "taken" });
}
