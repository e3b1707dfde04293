//! A device that holds no map gets one, over pages of FF.
ghost use Rattle.std.specs.Prelude.{◌≡◌, ◌+◌, ◌-◌, ◌*◌, ◌≤◌, ◌<◌, ℕ, true, false, length, IfOk, IfSome, OnOk};
ghost use Rattle.page_store.specs.Below.{IsBelow, KeepsBelow};
ghost use Rattle.page_store.specs.Blanks.{IsBlank, first_entries};
ghost use Rattle.page_store.specs.Pages.{is_well_formed, number_at, entries_of, map_of, content};
ghost use Rattle.page_store.specs.Tables.{loaded, IsKept};
ghost use Rattle.update_journal.specs.Calls.{MakesCalls};
ghost use Rattle.page_store.specs.Calls.{calls_to_blank, calls_to_fill};

use crate::counted::CountedStore;
use crate::places::{DEVICE_SIZE, MAP, MAP_END, MAPPED, PAGE_COUNT, POOL};
use crate::tables::Table;
use eeprom_model::PAGE_LENGTH;
use store_form::StoreFault;

// Puts an entry into the bytes of a map.
fn put_entry(bytes: &mut [u8; MAP_END - MAP], k: usize, page: u16)
    requires { k < MAPPED }
    ensures there { number_at bytes.new (2 * k) ≡ page }
    ensures before { (i : ℕ) → i < k → number_at bytes.new (2 * i) ≡ number_at bytes.old (2 * i) }
{
    let [upper, lower] = page.to_be_bytes();
    bytes[2 * k] = upper;
    bytes[2 * k + 1] = lower;
}

// The bytes of the first map.
fn first_map() -> [u8; MAP_END - MAP]
    ensures first { entries_of result ≡ first_entries }
    ensures long { length result ≡ MAP_END - MAP }
{
    let mut bytes = [0; MAP_END - MAP];
    for k in 0..MAPPED {
        put_entry(&mut bytes, k, (POOL + k) as u16);
    }
    bytes
}

// Fills the first page, and then the pool, with FF.
fn fill_pages<S: CountedStore>(store: &mut S) -> Result<(), StoreFault>
    requires below { IsBelow S.CountedStore store.old }
    requires no_map { IfSome (S.stable store.old) (λ image. is_well_formed (map_of image) ≡ false) }
    ensures same { content (S.stable store.new) ≡ content (S.stable store.old) }
    ensures blank { OnOk result (IfSome (S.stable store.new) IsBlank) }
    ensures keeps { KeepsBelow S.CountedStore store.old store.new result }
    ensures calls { MakesCalls (calls_to_blank) (S.meter store.old).programs (S.meter store.new).programs result }
{
    let blank = [0xFF; PAGE_LENGTH];
    store.prepare(0, &blank)?;
    for page in POOL..PAGE_COUNT {
        store.prepare(PAGE_LENGTH * page, &blank)?;
    }
    Ok(())
}

/// Fills the first page and the pool with FF and writes the first map. The content is all FF before, at each moment
/// of it and afterwards.
pub fn fill<S: CountedStore>(store: &mut S) -> Result<Table, StoreFault>
    requires below { IsBelow S.CountedStore store.old }
    requires no_map { IfSome (S.stable store.old) (λ image. is_well_formed (map_of image) ≡ false) }
    ensures same { content (S.stable store.new) ≡ content (S.stable store.old) }
    ensures kept { IfOk result (λ table. IsKept table (S.stable store.new)) }
    ensures first { IfOk result (λ table. table ≡ loaded first_entries) }
    ensures keeps { KeepsBelow S.CountedStore store.old store.new result }
    ensures calls { MakesCalls (calls_to_fill) (S.meter store.old).programs (S.meter store.new).programs result }
{
    fill_pages(store)?;
    let bytes = first_map();
    store.prepare(MAP, &bytes)?;
    match Table::load(&bytes) {
        Some(table) => Ok(table),
        None => unreachable!(),
    }
}
