//! The words of a command line: which run they ask for, and over what.

use crate::rows::Row;
use command_line::{Devices, Mode, Transport, asked_for, devices};

/// `words WORD ..`: the run that these words ask for.
pub fn show_request(row: &mut Row<'_>) {
    match asked_for(&owned_words(row)) {
        Some(asked) => {
            show_mode(asked.mode, row);
            show_devices(asked.devices, row);
        }
        None => row.show("usage"),
    }
}

/// `made WORD ..`: what is to be made for a run with these words.
pub fn show_made(row: &mut Row<'_>) {
    match devices(&owned_words(row)) {
        Some(made) => show_devices(made, row),
        None => row.show("usage"),
    }
}

fn owned_words(row: &mut Row<'_>) -> Vec<String> {
    let mut all = Vec::new(row.alloc());
    for word in row.words() {
        match String::from_str(row.alloc(), word) {
            Ok(word) => row.need(all.push(word)),
            Err(fault) => row.need::<(), _>(Err(fault)),
        }
    }
    all
}

fn show_mode(mode: Mode, row: &mut Row<'_>) {
    match mode {
        Mode::Play => row.show("play "),
        Mode::Open => row.show("open "),
        Mode::Bip => row.show("bip "),
        Mode::Phone {
            transport: Transport::Direct,
        } => row.show("phone "),
        Mode::Phone {
            transport: Transport::T0,
        } => row.show("phone t0 "),
        Mode::Load { start, count } => {
            row.show_number("load ", count);
            row.show_number(" from ", start);
            row.show(" ");
        }
    }
}

/// Where the image's path stands among the words, counted from 0, and which store is on it.
fn show_devices(made: Devices, row: &mut Row<'_>) {
    match made.image {
        Some(place) => row.show_number("image ", place as u64),
        None => row.show("bench"),
    }
    row.show(if made.pages { " pages" } else { " journal" });
}
