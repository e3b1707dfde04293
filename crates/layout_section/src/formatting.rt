//! The format of a store.
ghost use Rattle.std.specs.Prelude.{◌≡◌, ◌⊎◌, ◌≤◌, ◌+◌, length, true, false, Ok, Err, OnOk, OnErr, IfSome, option_map};
ghost use Rattle.list_laws.specs.Patches.{patched};
ghost use Rattle.uicc_types.specs.Told.{Becomes};
ghost use Rattle.store_form.specs.Faults.{with_commit};
ghost use Rattle.card_state.specs.Places.{memory_size};
ghost use Rattle.card_state.specs.Standing.{stands_for};
ghost use Rattle.layout_section.specs.Laying.{IsPrepared, IsWritten, FitsBefore, KeepsFirst, KeepsFirstOr, KeepsLaying};

use crate::rows::SpelledRows;
use crate::section::{Section, SpelledCard};
use card_state::places::{DATA, KEPT_APART, NODES, PINS, ROWS, UPPER_ROWS};
use store_form::{Store, StoreFault, Writes};
use uicc_types::Full;

// Writes a part of a card after its first bytes.
fn write_part<S: Store>(store: &mut S, at: usize, part: &[u8]) -> Result<(), StoreFault>
    requires recovered { S.recovered store.old ≡ true }
    requires size { S.byte_count store.old ≡ memory_size }
    requires behind { PINS ≤ at }
    requires inside { at + length part.now ≤ memory_size }
    ensures written { OnOk result (S.stable store.new ≡ option_map (patched at part.now) (S.stable store.old)) }
    ensures first { Becomes KeepsFirst (S.stable store.old) (S.stable store.new) }
    ensures commits { S.commits store.new ≡ S.commits store.old }
    ensures keeps { KeepsLaying S.Store store.old store.new result }
{
    store.prepare(at, part)
}

// Writes what stands between the first bytes and the files of a card.
fn write_tables<S: Store>(store: &mut S, card: &SpelledCard<'_>) -> Result<(), StoreFault>
    requires recovered { S.recovered store.old ≡ true }
    requires size { S.byte_count store.old ≡ memory_size }
    ensures written { OnOk result (S.stable store.new ≡ option_map (patched NODES card.now.files.entries)
        (option_map (patched ROWS card.now.rows.lower)
        (option_map (patched PINS card.now.pins) (S.stable store.old)))) }
    ensures first { Becomes KeepsFirst (S.stable store.old) (S.stable store.new) }
    ensures commits { S.commits store.new ≡ S.commits store.old }
    ensures keeps { KeepsLaying S.Store store.old store.new result }
{
    write_part(store, PINS as usize, &card.pins)?;
    write_part(store, ROWS as usize, &card.rows.lower)?;
    write_part(store, NODES as usize, &card.files.entries)
}

// Writes what a wide card has after its files.
fn write_upper<S: Store>(store: &mut S, rows: &SpelledRows) -> Result<(), StoreFault>
    requires recovered { S.recovered store.old ≡ true }
    requires size { S.byte_count store.old ≡ memory_size }
    ensures written { OnOk result (S.stable store.new ≡ option_map (patched KEPT_APART rows.now.kept)
        (option_map (patched UPPER_ROWS rows.now.upper) (S.stable store.old))) }
    ensures first { Becomes KeepsFirst (S.stable store.old) (S.stable store.new) }
    ensures commits { S.commits store.new ≡ S.commits store.old }
    ensures keeps { KeepsLaying S.Store store.old store.new result }
{
    write_part(store, UPPER_ROWS as usize, &rows.upper)?;
    write_part(store, KEPT_APART as usize, &rows.kept)
}

// Writes all of a card but its first bytes.
fn prepare_card<S: Store>(store: &mut S, card: &SpelledCard<'_>) -> Result<(), StoreFault>
    requires recovered { S.recovered store.old ≡ true }
    requires size { S.byte_count store.old ≡ memory_size }
    requires fits { FitsBefore card.now }
    ensures prepared { OnOk result (IfSome (S.stable store.new) (IsPrepared card.now)) }
    ensures first { Becomes KeepsFirst (S.stable store.old) (S.stable store.new) }
    ensures commits { S.commits store.new ≡ S.commits store.old }
    ensures keeps { KeepsLaying S.Store store.old store.new result }
{
    write_tables(store, card)?;
    write_part(store, DATA, card.files.bytes)?;
    if card.wide {
        write_upper(store, &card.rows)
    } else {
        Ok(())
    }
}

// Commits the first bytes, by which the memory is known to hold a card: they come last, whole or not at all.
fn commit_first<S: Store>(store: &mut S, card: &SpelledCard<'_>) -> Result<(), StoreFault>
    requires recovered { S.recovered store.old ≡ true }
    requires size { S.byte_count store.old ≡ memory_size }
    requires fits { FitsBefore card.now }
    requires prepared { IfSome (S.stable store.old) (IsPrepared card.now) }
    ensures written { OnOk result (IfSome (S.stable store.new) (IsWritten card.now)) }
    ensures whole { OnErr result ((S.stable store.new ≡ S.stable store.old)
        ⊎ IfSome (S.stable store.new) (IsWritten card.now)) }
    ensures commits { S.commits store.new ≡ with_commit result (S.commits store.old) }
    ensures keeps { KeepsLaying S.Store store.old store.new result }
{
    let mut writes = Writes::new();
    match writes.add(0, &card.first) {
        Ok(()) => store.commit(&writes),
        Err(Full) => unreachable!(),
    }
}

/// Recovers the store, prepares the layout of the card that the section describes, and commits its first bytes. It has
/// version 2 where the files have at most 59,520 bytes together, else version 1. After a fault the first bytes are the old
/// ones, or the store holds the card: where the store held no card before, it is taken for one only where all of it is there.
pub fn format<S: Store>(store: &mut S, section: &Section) -> Result<(), StoreFault>
    requires { S.byte_count store.old ≡ memory_size }
    ensures stands { OnOk result (IfSome (S.stable store.new)
        (λ content. stands_for (S.store_mark store.old) content ≡ Ok section.now)) }
    ensures first_last { OnErr result (Becomes (KeepsFirstOr (S.store_mark store.old) section.now)
        (S.stable store.old) (S.stable store.new)) }
    ensures commits { S.commits store.new ≡ with_commit result (S.commits store.old) }
    ensures keeps { KeepsLaying S.Store store.old store.new result }
    ensures off { (S.meter store.old).powered ≡ false →
        (result ≡ Err StoreFault.PowerLost) × (S.meter store.new ≡ S.meter store.old)
        × (S.stable store.new ≡ S.stable store.old) }
{
    store.recover()?;
    let mark = store.mark();
    let card = section.spelled(mark);
    prepare_card(store, &card)?;
    commit_first(store, &card)
}
