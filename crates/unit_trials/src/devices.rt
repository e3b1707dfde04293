//! Rows on a device.

use crate::counting::Calls;
use crate::plans::plan;
use crate::rows::Row;
use eeprom_model::{Eeprom, EepromFault, PAGE_LENGTH};

/// Carries out a row on a device.
pub fn carry_out<E: Eeprom>(device: &mut E, unit: &str, row: &mut Row<'_>) {
    match unit {
        "size" => row.show_number("", device.size() as u64),
        "read" => read(device, row),
        "program" => program(device, row),
        "arm" => device.arm(plan(row)),
        "power" => device.power_up(),
        _ => row.reject(),
    }
}

/// Shows what a device answered, where it failed.
fn show_outcome(outcome: Result<(), EepromFault>, row: &mut Row<'_>) {
    match outcome {
        Ok(()) => {}
        Err(EepromFault::Failed) => row.show("failed"),
        Err(EepromFault::PowerLost) => row.show("lost"),
    }
}

/// `read PLACE COUNT`: the bytes.
fn read<E: Eeprom>(device: &mut E, row: &mut Row<'_>) {
    let size = device.size();
    let at = row.number_to(size);
    let mut out = row.blank(size - at);
    match device.read(at, &mut out) {
        Ok(()) => row.show_bytes("", out.as_slice()),
        fault => show_outcome(fault, row),
    }
}

/// `program PLACE BYTES`: one program call.
pub fn program<E: Eeprom>(device: &mut E, row: &mut Row<'_>) {
    let size = device.size();
    let at = row.number_to(size);
    let bytes = row.bytes();
    let count = bytes.len();
    if count == 0 || count > size - at || count > PAGE_LENGTH - at % PAGE_LENGTH {
        return row.reject();
    }
    show_outcome(device.program(at, bytes.as_slice()), row);
}

/// A device has at most so many pages.
const MOST_PAGES: usize = 1_120;

/// Carries out a row on what a device was asked for: `calls` gives how many program calls, read calls and plans there were, `programs`
/// the program calls alone, `worn PAGE` those of a page, `spread PAGE` how many pages were written from this one on and how often the
/// one that was written most; `reads` gives the places of all read calls, and `order` those of the program calls that don't go on
/// where the one before began a page earlier.
pub fn tell(calls: &Calls, unit: &str, row: &mut Row<'_>) {
    match unit {
        "calls" => {
            row.show_number("", calls.programs.len() as u64);
            row.show_number(" ", calls.reads.len() as u64);
            row.show_number(" ", calls.plans as u64);
        }
        "programs" => row.show_number("", calls.programs.len() as u64),
        "worn" => {
            let page = row.number_to(MOST_PAGES);
            row.show_number("", worn(calls, page) as u64);
        }
        "spread" => spread(calls, row),
        "reads" => {
            for place in &calls.reads {
                row.show_listed(*place as u64);
            }
        }
        _ => order(calls, row),
    }
}

/// How often a page was written.
fn worn(calls: &Calls, page: usize) -> usize {
    let places = calls.programs.iter();
    places.filter(|place| **place / PAGE_LENGTH == page).count()
}

fn spread(calls: &Calls, row: &mut Row<'_>) {
    let from = row.number_to(MOST_PAGES);
    let mut written = 0usize;
    let mut most = 0usize;
    for page in from..MOST_PAGES {
        let count = worn(calls, page);
        written = written.saturating_add(usize::from(count > 0));
        most = most.max(count);
    }
    row.show_number("", written as u64);
    row.show_number(" pages, ", most as u64);
    row.show(" at most");
}

fn order(calls: &Calls, row: &mut Row<'_>) {
    let mut next = None;
    for place in &calls.programs {
        if next != Some(*place) {
            row.show_listed(*place as u64);
        }
        next = Some(place.saturating_add(PAGE_LENGTH));
    }
}
