//! Rows on a store.

use crate::plans::{Piece, pieces, plan};
use crate::rows::Row;
use crate::stored::{Refusal, Stored};
use crate::writing::SIZE;
use card_state::Loaded;
use layout_mount::MountFault;
use layout_section::Section;
use store_form::{OWN_END, OWN_START, Store};

/// Carries out a row on a store. `format` formats the card that a section describes, and `mount` reads into a table.
pub fn carry_out<S: Store>(
    store: &mut Stored<S>,
    section: &Section,
    table: &mut Loaded,
    unit: &str,
    row: &mut Row<'_>,
) {
    match unit {
        "read" => read(store, row),
        "mark" => row.show_number("", store.mark()),
        "content" => content(store, row),
        "mount" => mount_with(store, table, row),
        "recover" => show_outcome(store.recover(), row),
        "commit" => show_outcome(store.commit(pieces(row).as_slice()), row),
        "commits" => commits(store, row),
        "prepare" => {
            let at = row.number_to(SIZE);
            show_outcome(store.prepare(at, row.bytes().as_slice()), row);
        }
        "format" => show_outcome(store.format(section), row),
        "arm" => store.arm(plan(row)),
        "power" => store.power_up(),
        _ => row.reject(),
    }
}

/// Shows what a store answered, where it did not do what it was asked for.
pub fn show_outcome(outcome: Result<(), Refusal>, row: &mut Row<'_>) {
    match outcome {
        Ok(()) => {}
        Err(Refusal::NotAsked) => row.reject(),
        Err(Refusal::Failed) => row.show("failed"),
        Err(Refusal::PowerLost) => row.show("lost"),
        Err(Refusal::NoMemory) => row.lack_memory(),
    }
}

/// `read PLACE COUNT`: the bytes.
fn read<S: Store>(store: &mut Stored<S>, row: &mut Row<'_>) {
    let at = row.number_to(SIZE);
    let mut out = row.blank(SIZE);
    match store.read(at, &mut out) {
        Ok(()) => row.show_bytes("", out.as_slice()),
        refusal => show_outcome(refusal, row),
    }
}

/// `commits COUNT PIECES..`: the same commit so often.
fn commits<S: Store>(store: &mut Stored<S>, row: &mut Row<'_>) {
    let count = row.number();
    let pieces = pieces(row);
    for _ in 0..count {
        show_outcome(store.commit(pieces.as_slice()), row);
    }
}

/// `content PIECES..`: whether these are all bytes that aren't `FF`.
fn content<S: Store>(store: &mut Stored<S>, row: &mut Row<'_>) {
    let pieces = pieces(row);
    let mut expected = row.erased(SIZE);
    put_all(&mut expected, pieces.as_slice());
    let mut held = row.erased(SIZE);
    show_outcome(read_all(store, &mut held), row);
    row.show(if held == expected { "yes" } else { "no" });
}

/// Reads all bytes but the store's own.
pub fn read_all<S: Store>(store: &mut Stored<S>, held: &mut [u8]) -> Result<(), Refusal> {
    if let Some(first) = held.get_mut(..OWN_START) {
        store.read(0, first)?;
    }
    match held.get_mut(OWN_END..) {
        Some(rest) => store.read(OWN_END, rest),
        None => Ok(()),
    }
}

/// Puts pieces in, as far as there are bytes.
pub fn put_all(image: &mut [u8], pieces: &[Piece]) {
    for piece in pieces {
        let from = usize::from(piece.place);
        for (held, byte) in image.iter_mut().skip(from).zip(&piece.bytes) {
            *held = *byte;
        }
    }
}

/// `mount PIECES..`: what a mount comes to with these pieces in place of what is there, which stands there again afterwards.
fn mount_with<S: Store>(store: &mut Stored<S>, table: &mut Loaded, row: &mut Row<'_>) {
    let mut pieces = pieces(row);
    exchange(store, &mut pieces, row);
    match store.mount(table) {
        Some(outcome) => show_mounted(table, outcome, row),
        None => row.reject(),
    }
    exchange(store, &mut pieces, row);
}

/// Exchanges the bytes of pieces and those that stand in their places, one after the other.
fn exchange<S: Store>(store: &mut Stored<S>, pieces: &mut [Piece], row: &mut Row<'_>) {
    for piece in pieces {
        let at = usize::from(piece.place);
        let mut held = row.erased(piece.bytes.len());
        show_outcome(store.read(at, &mut held), row);
        show_outcome(store.prepare(at, piece.bytes.as_slice()), row);
        piece.bytes = held;
    }
}

/// The version of the card that was mounted, or the text of the fault. After a fault the table is empty.
fn show_mounted(table: &Loaded, outcome: Result<(), MountFault>, row: &mut Row<'_>) {
    let has_mf = table.nodes[0].used;
    match outcome {
        Ok(()) if !has_mf => row.show("no MF"),
        Ok(()) => row.show(if table.wide { "wide" } else { "narrow" }),
        Err(_) if has_mf || table.wide => row.show("a table"),
        Err(fault) => row.show_display(&fault),
    }
}
