//! Reads and writes of the content through a map, on a store below.
ghost use Rattle.std.specs.Prelude.{◌≡◌, ◌+◌, length, slice_range, IfSome, OnOk};
ghost use Rattle.store_form.specs.Pieces.{IsUsable};
ghost use Rattle.page_store.specs.Below.{IsBelow, KeepsBelow, InPage, WritesRange};
ghost use Rattle.page_store.specs.Pages.{content};
ghost use Rattle.page_store.specs.Tables.{IsKept};
ghost use Rattle.update_journal.specs.Calls.{calls_at, MakesCalls};

use crate::counted::CountedStore;
use crate::places::{CONTENT_SIZE, DEVICE_SIZE};
use crate::tables::Table;
use eeprom_model::PAGE_LENGTH;
use store_form::StoreFault;

// Reads a range of the content that lies in one page.
fn read_part<S: CountedStore>(
    store: &mut S,
    table: &Table,
    at: usize,
    out: &mut [u8],
) -> Result<(), StoreFault>
    requires below { IsBelow S.CountedStore store.old }
    requires kept { IsKept table.now (S.stable store.old) }
    requires part { InPage at (length out.old) }
    ensures ok { OnOk result (IfSome (content (S.stable store.old))
        (λ held. out.new ≡ slice_range held at (at + length out.old))) }
    ensures stable { S.stable store.new ≡ S.stable store.old }
    ensures keeps { KeepsBelow S.CountedStore store.old store.new result }
    ensures calls { (S.meter store.new).programs ≡ (S.meter store.old).programs }
{
    store.read(table.place(at), out)
}

/// Reads a range of the content, page by page.
pub fn read<S: CountedStore>(
    store: &mut S,
    table: &Table,
    at: usize,
    out: &mut [u8],
) -> Result<(), StoreFault>
    requires below { IsBelow S.CountedStore store.old }
    requires kept { IsKept table.now (S.stable store.old) }
    requires usable { IsUsable CONTENT_SIZE at (length out.old) }
    ensures ok { OnOk result (IfSome (content (S.stable store.old))
        (λ held. out.new ≡ slice_range held at (at + length out.old))) }
    ensures stable { S.stable store.new ≡ S.stable store.old }
    ensures keeps { KeepsBelow S.CountedStore store.old store.new result }
    ensures calls { (S.meter store.new).programs ≡ (S.meter store.old).programs }
{
    let mut done = 0;
    while done < out.len() {
        let from = at + done;
        let count = (out.len() - done).min(PAGE_LENGTH - from % PAGE_LENGTH);
        read_part(store, table, from, &mut out[done..done + count])?;
        done += count;
    }
    Ok(())
}

// Writes a range of the content that lies in one page, in place.
fn prepare_part<S: CountedStore>(
    store: &mut S,
    table: &Table,
    at: usize,
    bytes: &[u8],
) -> Result<(), StoreFault>
    requires below { IsBelow S.CountedStore store.old }
    requires kept { IsKept table.now (S.stable store.old) }
    requires part { InPage at (length bytes.now) }
    ensures writes { WritesRange at bytes.now (content (S.stable store.old)) (content (S.stable store.new)) result }
    ensures kept { OnOk result (IsKept table.now (S.stable store.new)) }
    ensures keeps { KeepsBelow S.CountedStore store.old store.new result }
    ensures calls { MakesCalls (1) (S.meter store.old).programs (S.meter store.new).programs result }
{
    store.prepare(table.place(at), bytes)
}

/// Writes a range of the content in place, page by page.
pub fn prepare<S: CountedStore>(
    store: &mut S,
    table: &Table,
    at: usize,
    bytes: &[u8],
) -> Result<(), StoreFault>
    requires below { IsBelow S.CountedStore store.old }
    requires kept { IsKept table.now (S.stable store.old) }
    requires usable { IsUsable CONTENT_SIZE at (length bytes.now) }
    ensures writes { WritesRange at bytes.now (content (S.stable store.old)) (content (S.stable store.new)) result }
    ensures kept { OnOk result (IsKept table.now (S.stable store.new)) }
    ensures keeps { KeepsBelow S.CountedStore store.old store.new result }
    ensures calls { MakesCalls (calls_at at (length bytes.now)) (S.meter store.old).programs (S.meter store.new).programs result }
{
    let mut done = 0;
    while done < bytes.len() {
        let from = at + done;
        let count = (bytes.len() - done).min(PAGE_LENGTH - from % PAGE_LENGTH);
        prepare_part(store, table, from, &bytes[done..done + count])?;
        done += count;
    }
    Ok(())
}
