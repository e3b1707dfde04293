//! The calls of the store as steps on a store below.
ghost use Rattle.std.specs.Prelude.{◌≡◌, ◌+◌, false, length, slice_range, IfOk, IfSome, OnOk};
ghost use Rattle.store_form.specs.Pieces.{IsUsable};
ghost use Rattle.page_store.specs.Below.{AreToWrite, IsBelow, KeepsBelow, Knows, StillKnows, WritesAll, WritesRange};
ghost use Rattle.page_store.specs.Commits.{moved_below};
ghost use Rattle.page_store.specs.Pages.{entries_of, map_of, content};
ghost use Rattle.page_store.specs.Paged.{IsKnown, known_of, table_of};
ghost use Rattle.page_store.specs.Tables.{IsKept};
ghost use Rattle.update_journal.specs.Calls.{calls_at, calls_to_recover, MadeAtMost, MakesCalls};
ghost use Rattle.update_journal.specs.declared.steps.TheConstants.{MOST_TO_RECOVER};
ghost use Rattle.page_store.specs.Calls.{calls_to_begin, calls_to_write};

use crate::counted::CountedStore;
use crate::filling::fill;
use crate::places::{CONTENT_SIZE, DEVICE_SIZE, MAP, MAP_END, PAGES};
use crate::tables::Table;
use crate::{inner, steps};
use std::mem;
use store_form::{StoreFault, Writes};

/// What is known of the map.
#[derive(Debug, Drop)]
pub enum Known {
    /// Nothing: a recovery is due.
    Nothing,
    /// It isn't well formed.
    Blank,
    /// It is kept here.
    Mapped(Table),
}

// What the bytes of a map say.
fn known_of(bytes: &[u8; MAP_END - MAP]) -> Known
    ensures { result ≡ known_of (entries_of bytes.now) }
{
    match Table::load(bytes) {
        Some(table) => Known::Mapped(table),
        None => Known::Blank,
    }
}

/// Recovers the store below and reads the map. The free pages stand in ascending order then.
pub fn recover<S: CountedStore>(store: &mut S, known: &mut Known) -> Result<(), StoreFault>
    requires size { S.byte_count store.old ≡ DEVICE_SIZE }
    requires known { IsKnown known.old (S.stable store.old) }
    ensures stable { S.stable store.new ≡ S.stable store.old }
    ensures known { StillKnows known.new (S.stable store.new) result }
    ensures read { OnOk result (IfSome (S.stable store.new) (λ image. known.new ≡ known_of (map_of image))) }
    ensures keeps { KeepsBelow S.CountedStore store.old store.new result }
    ensures off { (S.meter store.old).powered ≡ false →
        (result ≡ Err StoreFault.PowerLost) × (S.meter store.new ≡ S.meter store.old)
        × (S.recovered store.new ≡ S.recovered store.old) × (known.new ≡ known.old) × (S.image store.new ≡ S.image store.old) }
    ensures calls { IfSome (S.image store.old)
        (λ bytes. MakesCalls (calls_to_recover bytes) (S.meter store.old).programs (S.meter store.new).programs result) }
    ensures few_calls { MadeAtMost MOST_TO_RECOVER (S.meter store.old).programs (S.meter store.new).programs }
{
    store.recover()?;
    let mut bytes = [0; MAP_END - MAP];
    store.read(MAP, &mut bytes)?;
    *known = known_of(&bytes);
    Ok(())
}

/// Reads a range of the content. A read of no bytes below tells first whether there is power.
pub fn read<S: CountedStore>(
    store: &mut S,
    known: &Known,
    at: usize,
    out: &mut [u8],
) -> Result<(), StoreFault>
    requires below { IsBelow S.CountedStore store.old }
    requires known { Knows known.now (S.stable store.old) }
    requires usable { IsUsable CONTENT_SIZE at (length out.old) }
    ensures ok { OnOk result (IfSome (content (S.stable store.old))
        (λ held. out.new ≡ slice_range held at (at + length out.old))) }
    ensures stable { S.stable store.new ≡ S.stable store.old }
    ensures keeps { KeepsBelow S.CountedStore store.old store.new result }
    ensures off { (S.meter store.old).powered ≡ false →
        (result ≡ Err StoreFault.PowerLost) × (S.meter store.new ≡ S.meter store.old)
        × (S.recovered store.new ≡ S.recovered store.old) × (S.image store.new ≡ S.image store.old) }
    ensures calls { (S.meter store.new).programs ≡ (S.meter store.old).programs }
{
    store.read(0, &mut [])?;
    match known {
        Known::Mapped(table) => steps::read(store, table, at, out),
        Known::Blank => {
            out.fill(0xFF);
            Ok(())
        }
        Known::Nothing => unreachable!(),
    }
}

// Takes the table, and makes it first where there is no map yet. Until it is put back a recovery is due.
fn take_table<S: CountedStore>(store: &mut S, known: &mut Known) -> Result<Table, StoreFault>
    requires below { IsBelow S.CountedStore store.old }
    requires known { Knows known.old (S.stable store.old) }
    ensures same { content (S.stable store.new) ≡ content (S.stable store.old) }
    ensures kept { IfOk result (λ table. IsKept table (S.stable store.new)) }
    ensures table { IfOk result (λ table. table ≡ table_of known.old) }
    ensures nothing { known.new ≡ Known.Nothing }
    ensures keeps { KeepsBelow S.CountedStore store.old store.new result }
    ensures calls { MakesCalls (calls_to_begin known.old) (S.meter store.old).programs (S.meter store.new).programs result }
{
    match mem::replace(known, Known::Nothing) {
        Known::Mapped(table) => Ok(table),
        Known::Blank => fill(store),
        Known::Nothing => unreachable!(),
    }
}

/// Writes all pieces, in order, or none.
pub fn commit<S: CountedStore>(
    store: &mut S,
    known: &mut Known,
    writes: &Writes,
) -> Result<(), StoreFault>
    requires below { IsBelow S.CountedStore store.old }
    requires known { Knows known.old (S.stable store.old) }
    requires pieces { AreToWrite writes.now }
    ensures writes { WritesAll writes.now (content (S.stable store.old)) (content (S.stable store.new)) result }
    ensures moved { OnOk result
        (known.new ≡ Known.Mapped (moved_below writes.now PAGES (table_of known.old))) }
    ensures known { StillKnows known.new (S.stable store.new) result }
    ensures keeps { KeepsBelow S.CountedStore store.old store.new result }
    ensures off { (S.meter store.old).powered ≡ false →
        (result ≡ Err StoreFault.PowerLost) × (S.meter store.new ≡ S.meter store.old)
        × (S.stable store.new ≡ S.stable store.old) × (S.recovered store.new ≡ S.recovered store.old)
        × (known.new ≡ known.old) × (S.image store.new ≡ S.image store.old) }
    ensures calls { MakesCalls (calls_to_write known.old writes.now) (S.meter store.old).programs (S.meter store.new).programs result }
{
    store.read(0, &mut [])?;
    let mut table = take_table(store, known)?;
    inner::commit(store, &mut table, writes)?;
    *known = Known::Mapped(table);
    Ok(())
}

/// Writes a range that a fault may leave torn.
pub fn prepare<S: CountedStore>(
    store: &mut S,
    known: &mut Known,
    at: usize,
    bytes: &[u8],
) -> Result<(), StoreFault>
    requires below { IsBelow S.CountedStore store.old }
    requires known { Knows known.old (S.stable store.old) }
    requires usable { IsUsable CONTENT_SIZE at (length bytes.now) }
    ensures writes { WritesRange at bytes.now (content (S.stable store.old)) (content (S.stable store.new)) result }
    ensures table { OnOk result (known.new ≡ Known.Mapped (table_of known.old)) }
    ensures known { StillKnows known.new (S.stable store.new) result }
    ensures keeps { KeepsBelow S.CountedStore store.old store.new result }
    ensures off { (S.meter store.old).powered ≡ false →
        (result ≡ Err StoreFault.PowerLost) × (S.meter store.new ≡ S.meter store.old)
        × (S.stable store.new ≡ S.stable store.old) × (S.recovered store.new ≡ S.recovered store.old)
        × (known.new ≡ known.old) × (S.image store.new ≡ S.image store.old) }
    ensures calls { MakesCalls (calls_to_begin known.old + calls_at at (length bytes.now)) (S.meter store.old).programs (S.meter store.new).programs result }
{
    store.read(0, &mut [])?;
    let table = take_table(store, known)?;
    steps::prepare(store, &table, at, bytes)?;
    *known = Known::Mapped(table);
    Ok(())
}
