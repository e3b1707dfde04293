//! A long script that is made from a number.

use crate::lines::{show_happening, show_script_line};
use crate::rows::Row;
use long_runs::{LoadLines, fixed_row, line_of};

/// `made-line WORD`: the line that a word of eight digits stands for.
pub fn show_made_line(row: &mut Row<'_>) {
    match u32::from_str_radix(row.word(), 16) {
        Ok(word) => show_happening(&line_of(word), row),
        Err(_) => row.reject(),
    }
}

/// `load START COUNT`: all lines that are made.
pub fn show_load(row: &mut Row<'_>) {
    let start = row.large_number();
    let count = row.large_number();
    let mut lines = LoadLines::new(start, count);
    for _ in 0..count {
        if let Some(line) = lines.next() {
            row.part();
            show_happening(&line, row);
        }
    }
    row.show(if lines.next().is_none() {
        "; no more"
    } else {
        "; more"
    });
}

/// `fixed PLACE`: the line that registers the applet at a place.
pub fn show_fixed(row: &mut Row<'_>) {
    match fixed_row(row.large_number()) {
        Some(line) => show_script_line(&line, row),
        None => row.show("none"),
    }
}
