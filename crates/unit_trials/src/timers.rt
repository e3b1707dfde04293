//! The timers of a card, which stay from row to row.

use crate::rows::Row;
use timer_table::Timers;
use uicc_types::Shelf;

/// `timers new`, `take SHELF`, `free TIMER`, `free all SHELF`, `owner TIMER`: the timer that is given, or the owner; and of a change
/// the owners of all eight.
pub fn show_timers(timers: &mut Timers, row: &mut Row<'_>) {
    match row.word() {
        "new" => *timers = Timers::new(),
        "take" => return show_taken(timers, row),
        "owner" => return show_owner(timers, row.small_number(), row),
        "free" => match row.word() {
            "all" => timers.free_all(Shelf(row.small_number())),
            timer => timers.free(row.small_number_in(timer)),
        },
        _ => return row.reject(),
    }
    show_owners(timers, row);
}

fn show_taken(timers: &mut Timers, row: &mut Row<'_>) {
    match timers.take(Shelf(row.small_number())) {
        Some(timer) => row.show_number("", timer),
        None => row.show("none is free"),
    }
}

fn show_owner(timers: &Timers, timer: u8, row: &mut Row<'_>) {
    match timers.owner(timer) {
        Some(Shelf(shelf)) => row.show_number("", shelf),
        None => row.show("-"),
    }
}

/// Shows who holds the timers 1 to 8.
fn show_owners(timers: &Timers, row: &mut Row<'_>) {
    row.show("owners");
    for timer in 1..9u8 {
        row.show(" ");
        show_owner(timers, timer, row);
    }
}
