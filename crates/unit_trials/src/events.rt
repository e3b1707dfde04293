//! The events of a row, as bits.

use crate::rows::Row;
use card_state::events::{events_of, has_event, is_event, with_event, without_event};

/// `event CODE` and one of: `of a row`, whether a row may have it; `alone`, its bit; `with BITS`, `without BITS`, `among BITS`.
pub fn show_event(row: &mut Row<'_>) {
    let code = row.byte();
    let bits = match row.word() {
        "of-a-row" => return show_answer(is_event(code), row),
        "among" => return show_answer(has_event(row.double_byte(), code), row),
        "alone" => events_of(&[code]),
        "with" => with_event(row.double_byte(), code),
        "without" => without_event(row.double_byte(), code),
        _ => return row.reject(),
    };
    row.show_double_byte("", bits);
}

fn show_answer(answer: bool, row: &mut Row<'_>) {
    row.show(if answer { "yes" } else { "no" });
}
