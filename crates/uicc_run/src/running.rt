//! A whole run: the words of the command line, the script, the card's memory and the trace.
ghost use Rattle.std.specs.Prelude.{◌≡◌, ◌≢◌, ◌⊎◌, ◌≤◌, ◌+◌, ℕ, Bool, List, Some, None, true, map, string_bytes, is_some, option_map, IsErrOf, OnOk, OnErr, Option};
ghost use Rattle.uicc_types.specs.Told.{Becomes};
ghost use Rattle.byte_streams.specs.Reading.{IsTaken, IsWithin};
ghost use Rattle.byte_streams.specs.Streams.{CountsEach};
ghost use Rattle.byte_streams.specs.declared.limits.TheConstants.{MOST_BYTES};
ghost use Rattle.script_form.specs.Reads.{IsOnly};
ghost use Rattle.script_reader.specs.Reading.{reading};
ghost use Rattle.card_state.specs.Places.{memory_size};
ghost use Rattle.card_state.specs.Standing.{standing, stands_for};
ghost use Rattle.card_state.specs.Persistent.{Persistent};
ghost use Rattle.layout_section.specs.Laying.{KeepsFirstOr};
ghost use Rattle.applet_trait.specs.Minds.{minds_of};
ghost use Rattle.command_line.specs.Model.{IsRequest};
ghost use Rattle.run_steps.specs.Ends.{moment_at};
ghost use Rattle.run_steps.specs.Tallies.{tally};
ghost use Rattle.run_steps.specs.Views.{CardView};
ghost use Rattle.phone_runs.specs.LineTallies.{TalliesLines};
ghost use Rattle.uicc_run.specs.Making.{CarriesOut, EndsFor, FitsStore, KeepsOpened, KeepsStoreForm, IsMade, IsToPlay, ending_for, makes, left_of, stored};
ghost use Rattle.uicc_run.specs.Causes.{FitsRun, KeepsContent};
ghost use Rattle.uicc_run.specs.Endings.{HasFailed, status_for};
ghost use Rattle.uicc_run.specs.Headline.{Closes, Comes};
ghost use Rattle.uicc_run.specs.Opening.{is_handset, IsGiven};
ghost use Rattle.uicc_run.specs.BetweenLines.{IsStarted};
ghost use Rattle.uicc_run.specs.Playing.{Given, left_at, ComesTo};
ghost use Rattle.uicc_run.specs.Running.{RunsAsAsked};
ghost use Rattle.uicc_run.specs.Worlds.{world};
ghost use Rattle.uicc_run.specs.Stores.{mark_of, size_of};

use crate::endings::{Ending, Refusal, Task, last_line, status_of};
use crate::listeners::{Listener, carrier_by, listener_for};
use crate::loading::load;
use crate::playing::play_lines;
use crate::terminals::serve_channels;
use applet_trait::Applet;
use byte_streams::{Failed, Sink, Source};
use card_core::{CardOver, OpenFault};
use card_model::runs_are_counted;
use command_line::{Mode, Request, asked_for};
use eeprom_model::Eeprom;
use layout_section::{Section, format};
use page_store::PageStore;
use phone_runs::{Places, end_of, start_phone};
use run_steps::{CardEnd, Carrier};
use script_form::write_trace;
use script_reader::{PlayEnd, ScriptReader};
use section_lines::read_section;
use std::alloc::Global;
use store_form::{Store, StoreFault};
use terminal_side::Phone;
use uicc_types::Plan;
use update_journal::Journal;

/// Carries out the script under the words of the command line, over a memory of 71,680 bytes with `--store pages` and of 65,536
/// otherwise, with the boxes of the applets on their shelves, at most 32. It answers the status of the program, and hands back the
/// memory and the boxes.
pub fn run<R: Source, W: Sink, E: Eeprom, B: Applet>(
    alloc: Global,
    words: &[String],
    script: &mut R,
    trace: &mut W,
    eeprom: E,
    cast: Vec<Option<B>>,
) -> (u8, E, Vec<Option<B>>)
    requires fits { FitsRun (map string_bytes words.now) (E.byte_count eeprom) cast.items }
    ensures { RunsAsAsked (map string_bytes words.now) result.0
        (world R.Source W.Sink E.Eeprom B.Applet script.old trace.old eeprom cast.items)
        (world R.Source W.Sink E.Eeprom B.Applet script.new trace.new result.1 result.2.items)
        (script.new ≡ script.old) (result.1 ≡ eeprom) (result.2.items ≡ cast.items) }
{
    match asked_for(words) {
        Some(asked) => run_for(alloc, asked, script, trace, eeprom, cast),
        None => (close(&Ending::Usage, trace), eeprom, cast),
    }
}

/// Runs as is asked for: makes the store, the one whose pages move or the journal, has the script carried out over it, and writes the
/// last line.
pub(crate) fn run_for<R: Source, W: Sink, E: Eeprom, B: Applet>(
    alloc: Global,
    asked: Request,
    script: &mut R,
    trace: &mut W,
    eeprom: E,
    cast: Vec<Option<B>>,
) -> (u8, E, Vec<Option<B>>)
    requires fits { FitsStore (E.byte_count eeprom) (size_of asked.devices.pages) cast.items }
    ensures { (words : List (List ℕ)) → IsOnly (IsRequest words) asked → RunsAsAsked words result.0
        (world R.Source W.Sink E.Eeprom B.Applet script.old trace.old eeprom cast.items)
        (world R.Source W.Sink E.Eeprom B.Applet script.new trace.new result.1 result.2.items)
        (script.new ≡ script.old) (result.1 ≡ eeprom) (result.2.items ≡ cast.items) }
{
    if asked.devices.pages {
        let store = PageStore::new(eeprom);
        let (ending, store, cast) = carry_out(alloc, asked.mode, script, trace, store, cast);
        (close(&ending, trace), store.into_device(), cast)
    } else {
        let store = Journal::new(eeprom);
        let (ending, store, cast) = carry_out(alloc, asked.mode, script, trace, store, cast);
        (close(&ending, trace), store.into_device(), cast)
    }
}

/// Does what a run in this mode does over a store, but for the last line.
fn carry_out<S: Store, R: Source, W: Sink, B: Applet>(
    alloc: Global,
    mode: Mode,
    script: &mut R,
    trace: &mut W,
    store: S,
    cast: Vec<Option<B>>,
) -> (Ending, S, Vec<Option<B>>)
    requires fits { FitsStore (S.byte_count store) memory_size cast.items }
    ensures { CarriesOut mode (S.store_mark store) (S.store_mark result.1) result.0
        (stored R.Source W.Sink S.Store B.Applet script.old trace.old store cast.items)
        (stored R.Source W.Sink S.Store B.Applet script.new trace.new result.1 result.2.items)
        (script.new ≡ script.old) (trace.new ≡ trace.old) (result.1 ≡ store) (result.2.items ≡ cast.items) }
{
    match mode {
        Mode::Play | Mode::Phone { .. } => match Section::new(alloc) {
            Ok(section) => {
                let listener = listener_for(mode);
                let card = Some(section);
                read_and_play(alloc, listener, card, script, trace, store, cast)
            }
            Err(_) => (Ending::NoMemory, store, cast),
        },
        Mode::Open => {
            let listener = Listener::Card;
            read_and_play(alloc, listener, None, script, trace, store, cast)
        }
        Mode::Load { start, count } => load(alloc, start, count, store, cast),
        Mode::Bip => (serve_channels(alloc, script, trace), store, cast),
    }
}

/// Reads the script from its beginning, formats the store as the lines before `start` describe the card, if they are to describe one,
/// and goes on. `card` is what these lines are added to then.
fn read_and_play<S: Store, R: Source, W: Sink, B: Applet>(
    alloc: Global,
    listener: Listener,
    mut card: Option<Section>,
    script: &mut R,
    trace: &mut W,
    mut store: S,
    cast: Vec<Option<B>>,
) -> (Ending, S, Vec<Option<B>>)
    requires fits { FitsStore (S.byte_count store) memory_size cast.items }
    ensures comes { (given : Given) (told : Bool)
        → IsToPlay given listener card (R.left script.old) (minds_of B.mind cast.items)
        → IsGiven given told (W.taken trace.old) (option_map (stands_for (S.store_mark store)) (S.stable store))
        (S.meter store) (minds_of B.mind cast.items)
        → Comes given told (R.left script.new) result.0 (left_of (S.store_mark result.1)
        (stored R.Source W.Sink S.Store B.Applet script.new trace.new result.1 result.2.items)) }
    ensures taken { (text : List ℕ) → R.left script.old ≡ Some text
        → IsTaken (MOST_BYTES + 1) text (R.left script.new) }
    ensures used { result.0 ≢ Ending.Usage }
    ensures memory { (given : Given) → mark_of given.pages ≡ S.store_mark store
        → IsToPlay given listener card (R.left script.old) (minds_of B.mind cast.items)
        → KeepsContent given result.0 (standing (S.store_mark store) (S.stable store)) (S.stable store)
        (S.stable result.1) (result.1 ≡ store) }
    ensures ends { EndsFor result.0
        (stored R.Source W.Sink S.Store B.Applet script.old trace.old store cast.items)
        (stored R.Source W.Sink S.Store B.Applet script.new trace.new result.1 result.2.items)
        (trace.new ≡ trace.old) (result.1 ≡ store) (result.2.items ≡ cast.items) }
{
    // This call is a law, and does nothing.
    runs_are_counted();
    let mut reader = ScriptReader::new();
    match read_section(&mut reader, script, cast.as_slice(), &mut card) {
        Err(fault) => (Ending::Section(fault), store, cast),
        Ok(()) => match make(&mut store, &card) {
            Ok(()) => open_and_play(alloc, listener, &mut reader, script, trace, store, cast),
            Err(_) => (Ending::MemoryFailed(Task::Formatting), store, cast),
        },
    }
}

fn make<S: Store>(store: &mut S, card: &Option<Section>) -> Result<(), StoreFault>
    requires size { S.byte_count store.old ≡ memory_size }
    ensures made { OnOk result (makes card.now (S.store_mark store.old) (S.stable store.old) (S.stable store.new)) }
    ensures half_made { (described : Persistent) → card.now ≡ Some described
        → OnErr result (Becomes (KeepsFirstOr (S.store_mark store.old) described)
        (S.stable store.old) (S.stable store.new)) }
    ensures failed { OnErr result (HasFailed (S.meter store.old) (S.meter store.new)) }
    ensures described { OnErr result (is_some card.now ≡ true) }
    ensures keeps { KeepsStoreForm S.Store store.old store.new (IsErrOf result StoreFault.Failed)
        (IsErrOf result StoreFault.PowerLost) }
{
    match card {
        Some(section) => format(store, section),
        None => Ok(()),
    }
}

/// Opens the card, and carries out the lines after `start`.
fn open_and_play<S: Store, R: Source, W: Sink, B: Applet>(
    alloc: Global,
    listener: Listener,
    reader: &mut ScriptReader,
    script: &mut R,
    trace: &mut W,
    store: S,
    cast: Vec<Option<B>>,
) -> (Ending, S, Vec<Option<B>>)
    requires fits { FitsStore (S.byte_count store) memory_size cast.items }
    ensures comes { (given : Given) (told : Bool) → given.is_served ≡ is_handset listener
        → (told ≡ true → is_some (S.stable store) ≡ true)
        → IsMade given told reader.old (R.left script.old) (W.taken trace.old)
        (option_map (stands_for (S.store_mark store)) (S.stable store)) (S.meter store) (minds_of B.mind cast.items)
        → Comes given told (R.left script.new) result.0 (left_of (S.store_mark result.1)
        (stored R.Source W.Sink S.Store B.Applet script.new trace.new result.1 result.2.items)) }
    ensures within { (text : List ℕ) → IsWithin text (reading reader.old) (R.left script.old)
        → IsWithin text (reading reader.new) (R.left script.new) }
    ensures memory { KeepsOpened (S.store_mark store) result.0
        (stored R.Source W.Sink S.Store B.Applet script.old trace.old store cast.items)
        (stored R.Source W.Sink S.Store B.Applet script.new trace.new result.1 result.2.items) }
    ensures ends { EndsFor result.0
        (stored R.Source W.Sink S.Store B.Applet script.old trace.old store cast.items)
        (stored R.Source W.Sink S.Store B.Applet script.new trace.new result.1 result.2.items)
        (trace.new ≡ trace.old) ⊥ (result.2.items ≡ cast.items) }
{
    // This call is a law, and does nothing.
    runs_are_counted();
    match CardOver::open(alloc, store, cast) {
        Err((fault, store, cast)) => (ending_of(fault), store, cast),
        Ok(card) => {
            let mut card = CardEnd::new(card, Plan::NONE);
            let end = carry_on(listener, reader, script, &mut card, trace);
            let (card, _) = card.into_parts();
            let (store, cast) = card.close();
            (Ending::Played(end), store, cast)
        }
    }
}

/// Carries out the lines after `start`: a handset does, which is started first, or the card itself.
fn carry_on<S: Store, B: Applet, R: Source, W: Sink>(
    listener: Listener,
    reader: &mut ScriptReader,
    script: &mut R,
    card: &mut CardEnd<S, B>,
    trace: &mut W,
) -> PlayEnd
    // By what is known of the card: the card itself where its memory tells its bytes, and its power over any memory.
    ensures comes { (given : Given) (first : CardView) → given.is_served ≡ is_handset listener
        → IsStarted given first reader.old (R.left script.old) (moment_at card.old (W.taken trace.old))
        → ComesTo given first (R.left script.new) result (left_at (moment_at card.new (W.taken trace.new))) }
    ensures within { (text : List ℕ) → IsWithin text (reading reader.old) (R.left script.old)
        → IsWithin text (reading reader.new) (R.left script.new) }
    ensures tallies { TalliesLines (tally W.Sink card.old trace.old) (tally W.Sink card.new trace.new)
        (R.faults script.old) (R.faults script.new) (λ end. result ≡ end) }
{
    let mut phone = Phone::new();
    let mut places = Places::new();
    match listener {
        Listener::Handset(transport) => {
            let mut carrier = carrier_by(transport);
            match start_phone(card, &mut carrier, &mut phone, &mut places, trace) {
                Ok(()) => play_lines(
                    listener,
                    reader,
                    script,
                    card,
                    &mut carrier,
                    &mut phone,
                    &mut places,
                    trace,
                ),
                Err(end) => end_of(end),
            }
        }
        Listener::Card => play_lines(
            listener,
            reader,
            script,
            card,
            &mut Carrier::Direct,
            &mut phone,
            &mut places,
            trace,
        ),
    }
}

/// Why a run ends whose card could not be opened.
pub fn ending_of(fault: OpenFault) -> Ending
    ensures { result ≡ ending_for fault }
{
    match fault {
        OpenFault::NotACard(at) => Ending::NoCard(Refusal::NotACard(at)),
        OpenFault::NoBox(shelf) => Ending::NoCard(Refusal::NoApplet(shelf)),
        OpenFault::Failed | OpenFault::PowerLost => Ending::MemoryFailed(Task::Opening),
        OpenFault::Memory => Ending::NoMemory,
    }
}

/// Writes the last line, where there is one, and answers the status.
pub fn close<W: Sink>(ending: &Ending, trace: &mut W) -> u8
    ensures closed { Closes ending.now (W.taken trace.old) (W.taken trace.new) result }
    ensures status { (result ≡ status_for ending.now) ⊎ (result ≡ 4) }
    // The sink failed in the last line, if the run had not ended for it before that.
    ensures cause { CountsEach (W.faults trace.old) (W.faults trace.new)
        ((result ≡ 4) × (status_for ending.now ≢ 4)) }
{
    let Some(line) = last_line(ending) else {
        return status_of(ending);
    };
    match write_trace(trace, &line) {
        Ok(()) => status_of(ending),
        Err(Failed) => 4,
    }
}
