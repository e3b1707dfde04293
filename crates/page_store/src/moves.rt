//! The pages that a commit touches move.
ghost use Rattle.std.specs.Prelude.{◌≡◌, ◌+◌, ◌*◌, ◌≤◌, ◌<◌, true, if◌then◌else◌, length, All, OnOk, OnErr};
ghost use Rattle.store_form.specs.Pieces.{IsUsablePiece};
ghost use Rattle.page_store.specs.Below.{IsBelow, KeepsBelow, MayMove, MovesOn};
ghost use Rattle.page_store.specs.Pages.{content};
ghost use Rattle.page_store.specs.Commits.{is_touched, done_count, moved_below, Moves};
ghost use Rattle.page_store.specs.Tables.{moved, IsKept, IsPool};
ghost use Rattle.update_journal.specs.Calls.{MakesCalls};

use crate::counted::CountedStore;
use crate::overlays::{is_touched, put_pieces};
use crate::places::{CONTENT_SIZE, DEVICE_SIZE, FIRST_MAPPED, FREE, PAGES};
use crate::tables::Table;
use eeprom_model::PAGE_LENGTH;
use store_form::{StoreFault, Writes};

// Writes a page, with what the pieces have in it, where it has been free longest.
fn move_page<S: CountedStore>(
    store: &mut S,
    table: &mut Table,
    writes: &Writes,
    page: usize,
) -> Result<(), StoreFault>
    requires below { IsBelow S.CountedStore store.old }
    requires may { MayMove writes.now page table.old }
    requires touched { is_touched writes.now page ≡ true }
    requires few { done_count writes.now page < FREE }
    ensures moves { MovesOn writes.now page table.old table.new (S.stable store.old) (S.stable store.new) result }
    ensures pool { IsPool table.new }
    ensures moved { OnOk result (table.new ≡ moved page table.old) }
    ensures keeps { KeepsBelow S.CountedStore store.old store.new result }
    ensures calls { MakesCalls (1) (S.meter store.old).programs (S.meter store.new).programs result }
{
    let mut bytes = [0u8; PAGE_LENGTH];
    store.read(table.place(PAGE_LENGTH * page), &mut bytes)?;
    put_pieces(&mut bytes, page, writes);
    store.prepare(PAGE_LENGTH * usize::from(table.oldest()), &bytes)?;
    table.move_page(page);
    Ok(())
}

// The same for a page that the pieces touch, and nothing for another.
fn move_touched<S: CountedStore>(
    store: &mut S,
    table: &mut Table,
    writes: &Writes,
    page: usize,
) -> Result<(), StoreFault>
    requires below { IsBelow S.CountedStore store.old }
    requires may { MayMove writes.now page table.old }
    ensures moves { MovesOn writes.now page table.old table.new (S.stable store.old) (S.stable store.new) result }
    ensures pool { IsPool table.new }
    ensures moved { OnOk result
        (table.new ≡ (if is_touched writes.now page then moved page table.old else table.old)) }
    ensures keeps { KeepsBelow S.CountedStore store.old store.new result }
    ensures calls { MakesCalls (if is_touched writes.now page then 1 else 0) (S.meter store.old).programs (S.meter store.new).programs result }
{
    if !is_touched(writes, page) {
        return Ok(());
    }
    move_page(store, table, writes, page)
}

/// Writes each page that the pieces touch, with what they have in it, where it has been free longest.
pub fn move_pages<S: CountedStore>(
    store: &mut S,
    table: &mut Table,
    writes: &Writes,
) -> Result<(), StoreFault>
    requires below { IsBelow S.CountedStore store.old }
    requires kept { IsKept table.old (S.stable store.old) }
    requires usable { All (IsUsablePiece CONTENT_SIZE) writes.now }
    ensures ok { OnOk result (Moves writes.now PAGES table.old table.new (S.stable store.old) (S.stable store.new)) }
    ensures same { OnErr result (content (S.stable store.new) ≡ content (S.stable store.old)) }
    ensures moved { OnOk result (table.new ≡ moved_below writes.now PAGES table.old) }
    ensures keeps { KeepsBelow S.CountedStore store.old store.new result }
    ensures calls { MakesCalls (done_count writes.now PAGES) (S.meter store.old).programs (S.meter store.new).programs result }
{
    for page in FIRST_MAPPED..PAGES {
        move_touched(store, table, writes, page)?;
    }
    Ok(())
}
