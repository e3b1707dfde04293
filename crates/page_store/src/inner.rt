//! The commit on the store below that ends a commit.
ghost use Rattle.std.specs.Prelude.{◌≡◌, ◌+◌, ◌-◌, ◌*◌, ◌≤◌, ◌<◌, true, [], ◌∷◌, ◌++◌, length, map, slice_range, All, OnOk};
ghost use Rattle.std.specs.Int.{w16, to_be_bytes};
ghost use Rattle.std.specs.List.{flat_map};
ghost use Rattle.store_form.specs.Pieces.{byte_total, IsUsablePiece};
ghost use Rattle.page_store.specs.Below.{AreToWrite, IsBelow, KeepsBelow, WritesAll};
ghost use Rattle.page_store.specs.Pages.{content};
ghost use Rattle.page_store.specs.Commits.{inner_piece, moved_below};
ghost use Rattle.page_store.specs.Tables.{IsKept, IsPool};
ghost use Rattle.update_journal.specs.Calls.{MakesCalls};
ghost use Rattle.page_store.specs.Calls.{calls_to_move};

use crate::counted::CountedStore;
use crate::moves::move_pages;
use crate::places::{CONTENT_SIZE, DEVICE_SIZE, FIRST_MAPPED, MAP, PAGES};
use crate::tables::{EntryBytes, Table};
use eeprom_model::PAGE_LENGTH;
use store_form::{MOST_BYTES, MOST_PIECES, OWN_START, StoreFault, Writes};
use uicc_types::Full;

// Adds a piece that has room.
fn add(inner: &mut Writes, place: u16, bytes: &[u8])
    requires room { length inner.old < MOST_PIECES }
    requires short { byte_total inner.old + length bytes.now ≤ MOST_BYTES }
    ensures { inner.new ≡ inner.old ++ (record { place = place; bytes = bytes.now }) ∷ [] }
{
    match inner.add(place, bytes) {
        Ok(()) => (),
        Err(Full) => unreachable!(),
    }
}

// Adds what is committed below for a piece.
fn add_inner(inner: &mut Writes, table: &Table, place: u16, bytes: &[u8])
    requires pool { IsPool table.now }
    requires usable { IsUsablePiece CONTENT_SIZE (record { place = place; bytes = bytes.now }) }
    requires short { length bytes.now ≤ MOST_BYTES }
    requires room { length inner.old < MOST_PIECES }
    requires few { byte_total inner.old ≤ 64 * length inner.old }
    ensures value { inner.new
        ≡ inner.old ++ inner_piece table.now.entries (record { place = place; bytes = bytes.now }) ∷ [] }
    ensures few { byte_total inner.new ≤ 64 * length inner.new }
{
    let start = usize::from(place);
    if start < OWN_START {
        add(inner, place, bytes);
    } else {
        let first = start / PAGE_LENGTH - FIRST_MAPPED;
        let end = (start + bytes.len() - 1) / PAGE_LENGTH + 1 - FIRST_MAPPED;
        let entries: EntryBytes = table.spelled(first, end);
        add(inner, (MAP + 2 * first) as u16, entries.as_slice());
    }
}

// What is committed below for these pieces.
fn inner_writes(table: &Table, writes: &Writes) -> Writes
    requires pool { IsPool table.now }
    requires usable { All (IsUsablePiece CONTENT_SIZE) writes.now }
    ensures { result ≡ map (inner_piece table.now.entries) writes.now }
{
    let mut inner = Writes::new();
    for at in 0..writes.len() {
        let (place, bytes) = writes.piece(at);
        add_inner(&mut inner, table, place, bytes);
    }
    inner
}

/// Moves the pages that the pieces touch, and then changes their entries in the map, and the first page, at once.
pub fn commit<S: CountedStore>(
    store: &mut S,
    table: &mut Table,
    writes: &Writes,
) -> Result<(), StoreFault>
    requires below { IsBelow S.CountedStore store.old }
    requires kept { IsKept table.old (S.stable store.old) }
    requires pieces { AreToWrite writes.now }
    ensures writes { WritesAll writes.now (content (S.stable store.old)) (content (S.stable store.new)) result }
    ensures moved { OnOk result (table.new ≡ moved_below writes.now PAGES table.old) }
    ensures kept { OnOk result (IsKept table.new (S.stable store.new)) }
    ensures keeps { KeepsBelow S.CountedStore store.old store.new result }
    ensures calls { MakesCalls (calls_to_move writes.now table.old) (S.meter store.old).programs (S.meter store.new).programs result }
{
    move_pages(store, table, writes)?;
    let inner = inner_writes(table, writes);
    store.commit(&inner)
}
