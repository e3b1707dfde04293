//! Which applets an event triggers, and an envelope.
ghost use Rattle.std.specs.Prelude.{◌≡◌, ◌≢◌, ◌≤◌, All, AllPairs, length, filter, not};
ghost use Rattle.card_state.specs.States.{rows_of};
ghost use Rattle.card_commits.specs.Entries.{HasRowOn};
ghost use Rattle.toolkit_commands.specs.Reports.{reported, bytes_in};
ghost use Rattle.toolkit_model.specs.Commands.{selected, holders, trigger_of, is_call};
ghost use Rattle.toolkit_model.specs.Driving.{is_idle};
ghost use Rattle.toolkit_model.specs.Order.{targets};
ghost use Rattle.toolkit_model.specs.Orderly.{asks, IsUnderway};
ghost use Rattle.toolkit_model.specs.Steps.{AreRows};
ghost use Rattle.event_dispatch.specs.Indexes.{StandsFor};
ghost use Rattle.cat_commands.specs.Trying.{is_busy_with, has_item_on};
ghost use Rattle.cat_commands.specs.Triggers.{IsTriggerOf};

use card_state::{Loaded, states_are_of_entries};
use event_dispatch::{Index, Shelves};
use proactive_handler::Session;
use std::slice::from_ref;
use toolkit_commands::EnvelopeRef;
use uicc_types::Shelf;
use uicc_types::events::{CALL_CONTROL, MENU_SELECTION, TIMER_EXPIRATION};

/// The shelves of the applets that an event triggers, its code, and what is told of it, where it stands.
#[derive(Drop)]
pub(crate) struct Trigger<'a> {
    pub(crate) shelves: Shelves,
    pub(crate) code: u8,
    pub(crate) body: &'a [u8],
}

/// The applets that are registered for the event of this code.
pub(crate) fn targets_of(loaded: &Loaded, index: &Index, code: u8) -> Shelves
    requires indexed { StandsFor index.now (rows_of loaded.now) }
    requires listed { AreRows (rows_of loaded.now) }
    ensures value { result ≡ targets (rows_of loaded.now) code }
    ensures rows { All (HasRowOn loaded.now) result }
    ensures apart { AllPairs (λ a b. a ≢ b) result }
{
    // This call is a law, and does nothing.
    states_are_of_entries();
    index.targets(code).copy()
}

// Whether the row of this shelf has an item in the menu.
fn has_item(loaded: &Loaded, shelf: Shelf) -> bool
    ensures { result ≡ has_item_on loaded.now shelf.0 }
{
    match loaded.all_rows().get(usize::from(shelf.0)) {
        Some(row) => row.used && !row.text.as_slice().is_empty(),
        None => false,
    }
}

// The applet whose item of the menu was selected.
fn selected_of(loaded: &Loaded, item: u8) -> Shelves
    requires listed { AreRows (rows_of loaded.now) }
    ensures value { result ≡ selected (rows_of loaded.now) item }
    ensures rows { All (HasRowOn loaded.now) result }
    ensures apart { AllPairs (λ a b. a ≢ b) result }
{
    // This call is a law, and does nothing.
    states_are_of_entries();
    // An item's identifier is the shelf plus 1.
    if item > 0 && has_item(loaded, Shelf(item - 1)) {
        Shelves::one(Shelf(item - 1))
    } else {
        Shelves::new()
    }
}

// The applet that holds a timer.
fn holder_of(loaded: &Loaded, session: &Session, timer: u8) -> Shelves
    requires underway { IsUnderway (rows_of loaded.now) session.now }
    ensures value { result ≡ holders session.now.timers timer }
    ensures rows { All (HasRowOn loaded.now) result }
    ensures apart { AllPairs (λ a b. a ≢ b) result }
{
    // This call is a law, and does nothing.
    states_are_of_entries();
    match session.owner(timer) {
        Some(shelf) => Shelves::one(shelf),
        None => Shelves::new(),
    }
}

/// What an envelope triggers.
pub(crate) fn trigger_of<'a>(
    loaded: &Loaded,
    index: &Index,
    session: &Session,
    envelope: &'a EnvelopeRef<'_>,
) -> Trigger<'a>
    requires indexed { StandsFor index.now (rows_of loaded.now) }
    requires listed { AreRows (rows_of loaded.now) }
    requires underway { IsUnderway (rows_of loaded.now) session.now }
    requires short { length (bytes_in envelope.now) ≤ 255 }
    ensures found { IsTriggerOf loaded.now
        (trigger_of (rows_of loaded.now) session.now.timers (reported envelope.now)) result }
{
    match envelope {
        EnvelopeRef::Menu { item } => Trigger {
            shelves: selected_of(loaded, *item),
            code: MENU_SELECTION,
            body: from_ref(item),
        },
        EnvelopeRef::CallControl { address } => Trigger {
            shelves: targets_of(loaded, index, CALL_CONTROL),
            code: CALL_CONTROL,
            body: address,
        },
        EnvelopeRef::Event { code, body } => Trigger {
            shelves: targets_of(loaded, index, *code),
            code: *code,
            body,
        },
        EnvelopeRef::Timer { timer } => Trigger {
            shelves: holder_of(loaded, session, *timer),
            code: TIMER_EXPIRATION,
            body: from_ref(timer),
        },
    }
}

/// Whether an envelope reports a call.
pub(crate) fn is_call(envelope: &EnvelopeRef<'_>) -> bool
    ensures { result ≡ is_call (reported envelope.now) }
{
    matches!(envelope, EnvelopeRef::CallControl { .. })
}

// How many of the applets on these shelves wait for an answer.
fn suspended_count(session: &Session, shelves: &[Shelf]) -> usize
    ensures { result ≡ length (filter (λ shelf. not (is_idle (asks session.now) shelf.0)) shelves.now) }
{
    shelves
        .iter()
        .filter(|shelf| !session.idle(**shelf))
        .count()
}

/// Whether the applets on these shelves that wait for an answer are more than there is room for among the late triggers, or call
/// control is not answered now.
pub(crate) fn is_busy(session: &Session, envelope: &EnvelopeRef<'_>, shelves: &Shelves) -> bool
    ensures { result ≡ is_busy_with (asks session.now) (length session.now.late) (reported envelope.now) shelves.now }
{
    let suspended = suspended_count(session, shelves.as_slice());
    suspended > session.late_free() || is_call(envelope) && suspended > 0
}
