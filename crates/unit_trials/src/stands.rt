//! The device or the store that stays from row to row.

use crate::counting::Counting;
use crate::rows::Row;
use crate::stored::Stored;
use crate::writing::SIZE;
use crate::{devices, stores};
use card_state::Loaded;
use eeprom_model::{BenchEeprom, Eeprom, FileEeprom, SwitchedEeprom, open_image};
use layout_section::Section;
use page_store::{DEVICE_SIZE, PageStore};
use std::alloc::Global;
use std::cell::Cell;
use std::fs::File;
use std::rt::Files;
use std::{fs, io, mem};
use update_journal::Journal;

/// A device of the bench, which notes its calls.
type Bench = Counting<BenchEeprom>;

/// What rows on a memory are carried out on.
#[derive(Drop)]
pub enum Stand<'a> {
    Nothing,
    Bench(Bench),
    File(FileEeprom),
    Switched(SwitchedEeprom<'a, BenchEeprom>),
    Journal(Stored<Journal<Bench>>),
    Pages(Stored<PageStore<Bench>>),
}

/// A device has at most so many bytes.
const MOST_BYTES: usize = 71_680;

impl<'a> Stand<'a> {
    /// Carries out a row on what stands there. `journal` and `pages` put a store over a device of the bench, and `down` takes it away;
    /// where that may not be, there is nothing any more.
    pub fn carry_out(
        &mut self,
        section: &Section,
        table: &mut Loaded,
        unit: &str,
        row: &mut Row<'_>,
    ) {
        match self {
            Stand::Nothing => row.reject(),
            Stand::Bench(device) => on_bench(device, unit, row),
            Stand::File(device) => devices::carry_out(device, unit, row),
            Stand::Switched(device) => devices::carry_out(device, unit, row),
            Stand::Journal(store) => stores::carry_out(store, section, table, unit, row),
            Stand::Pages(store) => stores::carry_out(store, section, table, unit, row),
        }
    }

    /// `bench SIZE`: a blank device that notes its calls.
    pub fn make_bench(&mut self, row: &mut Row<'_>) {
        let size = row.number_to(MOST_BYTES);
        match BenchEeprom::new(row.alloc(), size) {
            Ok(device) => *self = Stand::Bench(Counting::new(row.alloc(), device)),
            Err(_) => row.lack_memory(),
        }
    }

    /// `switched SIZE PLACE BYTE`: a device that may show the bytes of another one, which has this byte at this place.
    pub fn make_switched(&mut self, shows_other: &'a Cell<bool>, row: &mut Row<'_>) {
        let size = row.number_to(MOST_BYTES);
        match (
            BenchEeprom::new(row.alloc(), size),
            BenchEeprom::new(row.alloc(), size),
        ) {
            (Ok(own), Ok(mut other)) => {
                devices::program(&mut other, row);
                *self = Stand::Switched(SwitchedEeprom::new(own, other, shows_other));
            }
            _ => row.lack_memory(),
        }
    }

    /// `journal`, `pages`, `down`: puts a store over a device of the bench, or takes it away.
    pub fn move_to(&mut self, unit: &str, row: &mut Row<'_>) {
        let stand = mem::replace(self, Stand::Nothing);
        *self = match unit {
            "journal" => under_journal(stand),
            "pages" => under_pages(stand),
            _ => taken_down(stand),
        };
        if matches!(self, Stand::Nothing) {
            row.reject();
        }
    }

    /// `image PATH FILLED SIZE`: a device over a file that is opened and filled up to so many bytes, or over none for `-`.
    pub fn make_image<R: Files<File = File> + AllocGlobal>(&mut self, rt: &R, row: &mut Row<'_>) {
        let path = row.word();
        let filled = row.number_to(MOST_BYTES);
        let size = row.number_to(MOST_BYTES);
        let file = match path {
            "-" => None,
            _ => opened(open_image(rt, path, filled), row).map(|image| image.file),
        };
        *self = Stand::File(FileEeprom::new(file, size));
    }
}

fn under_journal(stand: Stand<'_>) -> Stand<'_> {
    let Stand::Bench(device) = stand else {
        return Stand::Nothing;
    };
    match journal_over(device) {
        Some(store) => Stand::Journal(store),
        None => Stand::Nothing,
    }
}

fn under_pages(stand: Stand<'_>) -> Stand<'_> {
    let Stand::Bench(device) = stand else {
        return Stand::Nothing;
    };
    match pages_over(device) {
        Some(store) => Stand::Pages(store),
        None => Stand::Nothing,
    }
}

fn journal_over<E: Eeprom + Drop>(device: E) -> Option<Stored<Journal<E>>> {
    if device.size() == SIZE {
        Some(Stored::new(Journal::new(device)))
    } else {
        None
    }
}

fn pages_over<E: Eeprom + Drop>(device: E) -> Option<Stored<PageStore<E>>> {
    if device.size() == DEVICE_SIZE {
        Some(Stored::new(PageStore::new(device)))
    } else {
        None
    }
}

/// The device under a store.
fn taken_down(stand: Stand<'_>) -> Stand<'_> {
    match stand {
        Stand::Journal(store) => Stand::Bench(store.into_store().into_device()),
        Stand::Pages(store) => Stand::Bench(store.into_store().into_device()),
        _ => Stand::Nothing,
    }
}

/// A row on a device of the bench, or on what it was asked for.
fn on_bench(device: &mut Bench, unit: &str, row: &mut Row<'_>) {
    match unit {
        "calls" | "programs" | "worn" | "spread" | "reads" | "order" => {
            devices::tell(device.calls(), unit, row)
        }
        "forget" => device.forget_calls(),
        _ => devices::carry_out(device, unit, row),
    }
}

/// What the system answered. A row that it refuses comes to a failure.
fn opened<T: Drop>(outcome: io::Result<T>, row: &mut Row<'_>) -> Option<T> {
    match outcome {
        Ok(value) => Some(value),
        Err(_) => {
            row.show("failed");
            None
        }
    }
}

/// `file write PATH BYTES`, `file length PATH`, `file remove PATH`.
pub fn on_file<R: Files<File = File> + AllocGlobal>(rt: &R, row: &mut Row<'_>) {
    let act = row.word();
    let path = row.word();
    match act {
        "write" => {
            opened(fs::write(rt, path, row.bytes().as_slice()), row);
        }
        "remove" => {
            opened(fs::remove_file(rt, path), row);
        }
        "length" => {
            if let Some(content) = opened(fs::read(rt, path), row) {
                row.show_number("", content.len() as u64);
            }
        }
        _ => row.reject(),
    }
}
