//! The table of entries of a card, which stays from row to row: what it has, and what is said of faults.

use crate::rows::Row;
use card_state::{Loaded, SectionFault};
use layout_mount::MountFault;

/// `table`: how many entries it has, and how many of them are used. `table places` of all files, `table shelves` of all rows, the
/// `table next` number of a row, a `table file NUMBER` by its place and its size, a `table pin NUMBER` by its key and its value.
pub fn show_table(table: &Loaded, row: &mut Row<'_>) {
    match row.next() {
        None => show_entries(table, row),
        Some("next") => row.show_number("", table.next),
        Some("places") => {
            for node in table.nodes.iter().filter(|node| node.used) {
                row.show_listed(u64::from(node.place));
            }
        }
        Some("shelves") => {
            for (shelf, _) in table.rows.iter().enumerate().filter(|entry| entry.1.used) {
                row.show_listed(shelf as u64);
            }
        }
        Some("file") => show_file(table, row),
        Some("pin") => show_pin(table, row),
        Some(_) => row.reject(),
    }
}

fn show_entries(table: &Loaded, row: &mut Row<'_>) {
    let files = table.all_nodes();
    let used = files.iter().filter(|file| file.used).count();
    show_used(used, files.len(), " files, ", row);
    let pins = table.all_pins();
    let used = pins.iter().filter(|pin| pin.key != 0).count();
    show_used(used, pins.len(), " pins, ", row);
    let rows = table.all_rows();
    let used = rows.iter().filter(|row| row.used).count();
    show_used(used, rows.len(), " rows, ", row);
    row.show_number("next ", table.next);
    row.show(if table.wide { ", wide" } else { ", narrow" });
}

fn show_used(used: usize, count: usize, name: &str, row: &mut Row<'_>) {
    row.show_number("", used as u64);
    row.show_number(" of ", count as u64);
    row.show(name);
}

fn show_file(table: &Loaded, row: &mut Row<'_>) {
    match table.nodes.get(usize::from(row.small_number())) {
        Some(node) => {
            row.show_number("", node.place);
            row.show_number(" ", node.size);
        }
        None => row.reject(),
    }
}

fn show_pin(table: &Loaded, row: &mut Row<'_>) {
    match table.pins.get(usize::from(row.small_number())) {
        Some(pin) if pin.key == 0 => row.show("none"),
        Some(pin) => {
            row.show_byte("", pin.key);
            row.show_bytes(" ", &pin.value.0);
        }
        None => row.reject(),
    }
}

/// `fault bad`, `fault no-room` of a section; `fault failed`, `fault lost`, `fault PLACE` of a mount: what is said of it.
pub fn show_fault(row: &mut Row<'_>) {
    match row.word() {
        "bad" => row.show_display(&SectionFault::Bad),
        "no-room" => row.show_display(&SectionFault::NoRoom),
        "failed" => row.show_display(&MountFault::Failed),
        "lost" => row.show_display(&MountFault::PowerLost),
        place => {
            let place = usize::from(row.number_in(place));
            row.show_display(&MountFault::NotACard(place));
        }
    }
}
