//! A long run: a handset carries out lines that are made from a number, and what it did is counted.
ghost use Rattle.std.specs.Prelude.{◌≡◌, ◌⊎◌, [], ℕ, Bool, true, List, Option, Some, Ok, option_map, IfSome};
ghost use Rattle.card_state.specs.Persistent.{Persistent};
ghost use Rattle.card_state.specs.Places.{memory_size};
ghost use Rattle.card_state.specs.Standing.{standing, stands_for};
ghost use Rattle.applet_trait.specs.Minds.{minds_of};
ghost use Rattle.card_model.specs.Counts.{IsCounted};
ghost use Rattle.uicc_run.specs.Making.{EndsLoad, FitsStore, ending_for_load};
ghost use Rattle.uicc_run.specs.Loading.{ComesToLoad, HoldsFixed, IsFixedCard, IsOver};
ghost use Rattle.uicc_run.specs.Playing.{Given};
ghost use Rattle.uicc_run.specs.Stores.{mark_of};

use crate::endings::{Ending, Task};
use crate::running::ending_of;
use applet_trait::Applet;
use card_core::CardOver;
use card_model::runs_are_counted;
use layout_section::{Section, format};
use long_runs::{Counts, describe_rows};
use phone_runs::{count_lines, phone_runs_are_lawful};
use run_steps::{CardEnd, MemoryFailed};
use script_reader::{PlayEnd, ScriptFault};
use std::alloc::Global;
use store_form::Store;
use uicc_types::Plan;

/// Makes the card of a long run, and has a handset carry out `count` lines that are made from the number `start`. It stands apart, since
/// the compiler fills each large local of a function with zeros at its entry, also those of a case that isn't taken.
#[inline(never)]
pub fn load<S: Store, B: Applet>(
    alloc: Global,
    start: u32,
    count: u32,
    store: S,
    cast: Vec<Option<B>>,
) -> (Ending, S, Vec<Option<B>>)
    requires fits { FitsStore (S.byte_count store) memory_size cast.items }
    // Where the memory tells its bytes, and over any.
    ensures comes { (given : Given) (told : Bool) (taken : Option (List ℕ))
        → IsOver given told (option_map (stands_for (S.store_mark store)) (S.stable store)) (S.meter store)
        (minds_of B.mind cast.items)
        → ComesToLoad given told start count result.0 (record {
          held = standing (S.store_mark result.1) (S.stable result.1);
          taken = taken;
          meter = S.meter result.1;
          boxes = minds_of B.mind result.2.items;
        }) }
    ensures no_memory { (given : Given) → mark_of given.pages ≡ S.store_mark store → minds_of B.mind cast.items ≡ given.boxes
        → result.0 ≡ Ending.NoMemory → (result.1 ≡ store) ⊎ HoldsFixed given (S.stable result.1) }
    ensures ends { EndsLoad result.0 (S.meter store) (S.meter result.1)
        (result.1 ≡ store) (result.2.items ≡ cast.items) }
{
    match Section::new(alloc) {
        Ok(mut section) => match describe_rows(cast.as_slice(), &mut section) {
            Ok(()) => load_over(alloc, &section, start, count, store, cast),
            Err(number) => (Ending::Section(ScriptFault::BadLine(number)), store, cast),
        },
        Err(_) => (Ending::NoMemory, store, cast),
    }
}

/// Formats the store as the section describes the card, opens it, and counts.
fn load_over<S: Store, B: Applet>(
    alloc: Global,
    section: &Section,
    start: u32,
    count: u32,
    mut store: S,
    cast: Vec<Option<B>>,
) -> (Ending, S, Vec<Option<B>>)
    requires fits { FitsStore (S.byte_count store) memory_size cast.items }
    ensures comes { (given : Given) (told : Bool) (taken : Option (List ℕ)) → IsFixedCard given.boxes section.now
        → IsOver given told (option_map (stands_for (S.store_mark store)) (S.stable store)) (S.meter store)
        (minds_of B.mind cast.items)
        → ComesToLoad given told start count result.0 (record {
          held = standing (S.store_mark result.1) (S.stable result.1);
          taken = taken;
          meter = S.meter result.1;
          boxes = minds_of B.mind result.2.items;
        }) }
    ensures no_memory { result.0 ≡ Ending.NoMemory
        → IfSome (S.stable result.1) (λ content. stands_for (S.store_mark store) content ≡ Ok section.now) }
    ensures ends { EndsLoad result.0 (S.meter store) (S.meter result.1) ⊥ (result.2.items ≡ cast.items) }
{
    // This call is a law, and does nothing.
    runs_are_counted();
    match format(&mut store, section) {
        Ok(()) => open_and_load(alloc, start, count, store, cast),
        Err(_) => (Ending::MemoryFailed(Task::Formatting), store, cast),
    }
}

/// Opens the card, and counts.
fn open_and_load<S: Store, B: Applet>(
    alloc: Global,
    start: u32,
    count: u32,
    store: S,
    cast: Vec<Option<B>>,
) -> (Ending, S, Vec<Option<B>>)
    requires fits { FitsStore (S.byte_count store) memory_size cast.items }
    ensures comes { (given : Given) (told : Bool) (taken : Option (List ℕ)) (card : Persistent)
        → (told ≡ true → option_map (stands_for (S.store_mark store)) (S.stable store) ≡ Some (Ok card))
        → IsFixedCard given.boxes card
        → IsCounted given.meter (S.meter store) [] [] → minds_of B.mind cast.items ≡ given.boxes
        → ComesToLoad given told start count result.0 (record {
          held = standing (S.store_mark result.1) (S.stable result.1);
          taken = taken;
          meter = S.meter result.1;
          boxes = minds_of B.mind result.2.items;
        }) }
    ensures bytes { result.0 ≡ Ending.NoMemory → S.stable result.1 ≡ S.stable store }
    ensures ends { EndsLoad result.0 (S.meter store) (S.meter result.1) ⊥ (result.2.items ≡ cast.items) }
{
    // These calls are laws, and do nothing.
    runs_are_counted();
    phone_runs_are_lawful();
    match CardOver::open(alloc, store, cast) {
        Err((fault, store, cast)) => (ending_of(fault), store, cast),
        Ok(card) => {
            let mut card = CardEnd::new(card, Plan::NONE);
            let outcome = count_lines(&mut card, start, count);
            let (card, _) = card.into_parts();
            let (store, cast) = card.close();
            (counted(count, outcome), store, cast)
        }
    }
}

/// Why a long run ends whose card was open.
fn counted(lines: u32, outcome: Result<Counts, MemoryFailed>) -> Ending
    ensures { result ≡ ending_for_load lines outcome }
{
    match outcome {
        Ok(counts) => Ending::Counted { lines, counts },
        Err(MemoryFailed) => Ending::MemoryFailed(Task::Counting),
    }
}
