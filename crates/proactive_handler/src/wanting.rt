//! What the card itself has to tell the handset.
ghost use Rattle.std.specs.Prelude.{◌≡◌, ◌≤◌, ◌<◌, ◌+◌, ◌++◌, ◌∷◌, [], if◌then◌else◌, length, slice_index_or, count_by, All, Some, None, IfSome, true};
ghost use Rattle.card_state.specs.Sections.{has_text};
ghost use Rattle.card_state.specs.States.{rows_of};
ghost use Rattle.toolkit_model.specs.Orderly.{CanBeSent};
ghost use Rattle.toolkit_model.specs.Driving.{download_codes, if_allowed, event_list_wanted, menu_wanted, polling_wanted, wanted};
ghost use Rattle.event_dispatch.specs.Indexes.{StandsFor};
ghost use Rattle.proactive_handler.specs.Events.{is_heard, is_asked_for, events_in};

use crate::announced::Announced;
use applet_registry::{is_menu, menu};
use card_state::Loaded;
use card_state::sizes::MENU_LIMIT;
use event_dispatch::Index;
use terminal_profile::Profile;
use toolkit_commands::Proactive;
use uicc_types::events::{
    CALL_CONNECTED, CALL_DISCONNECTED, CHANNEL_STATUS, DATA_AVAILABLE, IDLE_SCREEN,
    LANGUAGE_SELECTION, LOCATION_STATUS, MT_CALL, STATUS_COMMAND, USER_ACTIVITY,
};
use uicc_types::{ByteList, Full, Octets, ShortText};

/// The events that a handset can report (ETSI TS 102 223, 8.25), ascending.
const DOWNLOAD_CODES: [u8; 9] = [
    MT_CALL,
    CALL_CONNECTED,
    CALL_DISCONNECTED,
    LOCATION_STATUS,
    USER_ACTIVITY,
    IDLE_SCREEN,
    LANGUAGE_SELECTION,
    DATA_AVAILABLE,
    CHANNEL_STATUS,
];

/// Codes of such events.
type Codes = ByteList<9>;

/// How long the handset waits at most until it asks for commands.
const HALF_A_MINUTE: u8 = 30;

/// Whether a row is registered for a code.
fn is_heard(index: &Index, code: u8) -> bool
    ensures { result ≡ is_heard index.now code }
{
    index.targets(code).len() != 0
}

/// Whether the handset is to report the event at a place of the codes, which is its place in the index too: a row is registered for
/// it, and this handset can report it.
fn is_asked_for(profile: &Profile, index: &Index, at: usize) -> bool
    requires { at < 9 }
    ensures { result ≡ is_asked_for profile.now index.now (slice_index_or download_codes at 0) }
{
    index.has_any_at(at) && profile.allows_event(DOWNLOAD_CODES[at])
}

/// Adds the code at a place, if the handset is to report its event.
fn consider(profile: &Profile, index: &Index, at: usize, events: &mut Codes)
    requires room { length events.old < 9 }
    requires low { at < 9 }
    ensures value { events.new ≡ events.old
        ++ (let code = slice_index_or download_codes at 0 in
        if is_asked_for profile.now index.now code then code ∷ [] else []) }
    ensures long { length events.new ≤ length events.old + 1 }
{
    if is_asked_for(profile, index, at) {
        match events.push(DOWNLOAD_CODES[at]) {
            Ok(()) => {}
            Err(Full) => unreachable!(),
        }
    }
}

/// The events that the handset is to report.
#[tactic(auto, using(std::proofs::lemmas::List::Elements::filter_more))]
fn events_for(profile: &Profile, index: &Index) -> Codes
    ensures value { result ≡ events_in profile.now index.now }
    ensures few { length result ≤ 9 }
{
    let mut events = Codes::new();
    for at in 0..DOWNLOAD_CODES.len() {
        consider(profile, index, at, &mut events);
    }
    events
}

/// A command, if the handset can carry it out.
fn if_allowed(profile: &Profile, command: Proactive) -> Option<Proactive>
    ensures value { result ≡ if_allowed profile.now true command }
    ensures same { IfSome result (λ given. given ≡ command) }
{
    if profile.allows(&command) {
        Some(command)
    } else {
        None
    }
}

/// SET UP EVENT LIST, where other events were announced.
fn event_list_wanted(
    profile: &Profile,
    announced: &Announced,
    loaded: &Loaded,
    index: &Index,
) -> Option<Proactive>
    requires { StandsFor index.now (rows_of loaded.now) }
    ensures value { result ≡ event_list_wanted profile.now (rows_of loaded.now) announced.now }
    ensures sendable { IfSome result CanBeSent }
{
    let events = events_for(profile, index);
    if events.as_slice() == announced.events().as_slice() {
        return None;
    }
    let events = Octets::from_slice(events.as_slice());
    if_allowed(profile, Proactive::SetUpEventList { events })
}

/// SET UP MENU, where another menu was announced.
fn menu_wanted(profile: &Profile, announced: &Announced, loaded: &Loaded) -> Option<Proactive>
    requires few { count_by has_text (rows_of loaded.now) ≤ MENU_LIMIT }
    requires texts { All (λ row. length row.text ≤ 10) (rows_of loaded.now) }
    ensures value { result ≡ menu_wanted profile.now (rows_of loaded.now) announced.now }
    ensures sendable { IfSome result CanBeSent }
{
    let items = menu(loaded);
    if items.is_same(announced.menu()) {
        return None;
    }
    let title = ShortText::from_slice(b"Menu");
    if_allowed(profile, Proactive::SetUpMenu { title, items })
}

/// POLL INTERVAL, where a row is registered for STATUS and none was announced.
fn polling_wanted(
    profile: &Profile,
    announced: &Announced,
    loaded: &Loaded,
    index: &Index,
) -> Option<Proactive>
    requires { StandsFor index.now (rows_of loaded.now) }
    ensures value { result ≡ polling_wanted profile.now (rows_of loaded.now) announced.now }
    ensures sendable { IfSome result CanBeSent }
{
    if announced.polls() {
        return None;
    }
    if !is_heard(index, STATUS_COMMAND) {
        return None;
    }
    if_allowed(
        profile,
        Proactive::PollInterval {
            seconds: HALF_A_MINUTE,
        },
    )
}

/// The first command that the card itself has to send to a handset with this profile.
#[tactic(auto, unfolding(toolkit_model::specs::Driving::wanted))]
pub(crate) fn wanted(
    profile: &Profile,
    announced: &Announced,
    loaded: &Loaded,
    index: &Index,
) -> Option<Proactive>
    requires few { count_by has_text (rows_of loaded.now) ≤ MENU_LIMIT }
    requires texts { All (λ row. length row.text ≤ 10) (rows_of loaded.now) }
    requires stands { StandsFor index.now (rows_of loaded.now) }
    ensures value { result ≡ wanted (Some profile.now) (rows_of loaded.now) announced.now }
    ensures sendable { IfSome result CanBeSent }
{
    match event_list_wanted(profile, announced, loaded, index) {
        Some(command) => Some(command),
        None => match menu_wanted(profile, announced, loaded) {
            Some(command) => Some(command),
            None => polling_wanted(profile, announced, loaded, index),
        },
    }
}

/// Whether the handset was told the events that it is to report.
fn is_list_known(profile: &Profile, announced: &Announced, loaded: &Loaded, index: &Index) -> bool
    requires { StandsFor index.now (rows_of loaded.now) }
    ensures { result ≡ true → None ≡ event_list_wanted profile.now (rows_of loaded.now) announced.now }
{
    events_for(profile, index).as_slice() == announced.events().as_slice()
}

/// Whether it was told the menu.
fn is_menu_known(profile: &Profile, announced: &Announced, loaded: &Loaded) -> bool
    ensures { result ≡ true → None ≡ menu_wanted profile.now (rows_of loaded.now) announced.now }
{
    is_menu(loaded, announced.menu())
}

/// Whether it was told to ask for commands by itself, or need not be.
fn is_polling_known(
    profile: &Profile,
    announced: &Announced,
    loaded: &Loaded,
    index: &Index,
) -> bool
    requires { StandsFor index.now (rows_of loaded.now) }
    ensures { result ≡ true → None ≡ polling_wanted profile.now (rows_of loaded.now) announced.now }
{
    announced.polls() || !is_heard(index, STATUS_COMMAND)
}

/// Whether the handset was told all of it, as it was at most times. This is asked before a command is made.
#[tactic(auto, unfolding(toolkit_model::specs::Driving::wanted))]
pub(crate) fn is_all_known(
    profile: &Profile,
    announced: &Announced,
    loaded: &Loaded,
    index: &Index,
) -> bool
    requires stands { StandsFor index.now (rows_of loaded.now) }
    ensures { result ≡ true → wanted (Some profile.now) (rows_of loaded.now) announced.now ≡ None }
{
    is_list_known(profile, announced, loaded, index)
        && is_menu_known(profile, announced, loaded)
        && is_polling_known(profile, announced, loaded, index)
}
