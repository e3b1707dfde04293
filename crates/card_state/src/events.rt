//! The events that an applet may be registered for, as the bits of its row.
ghost use Rattle.std.specs.Prelude.{◌≡◌, ◌==◌, ◌≤◌, ◌<◌, ◌^◌, ◌∷◌, length, not, true, filter};
ghost use Rattle.std.specs.Int.{bit_at};
ghost use Rattle.std.specs.List.{list_any, position_from};
ghost use Rattle.card_state.specs.Kinds.{codes_of, call_control_bit};
ghost use Rattle.card_state.specs.Sections.{is_code, sorted_codes};
ghost use Rattle.card_state.specs.Events.{bits_for, bit_of};

use uicc_types::events::{
    CALL_CONNECTED, CALL_CONTROL, CALL_DISCONNECTED, CHANNEL_STATUS, DATA_AVAILABLE, IDLE_SCREEN,
    LANGUAGE_SELECTION, LOCATION_STATUS, MT_CALL, PROFILE_DOWNLOAD, STATUS_COMMAND, USER_ACTIVITY,
};

// The codes in the order of their bits.
const EVENTS: [u8; 12] = [
    MT_CALL,
    CALL_CONNECTED,
    CALL_DISCONNECTED,
    LOCATION_STATUS,
    USER_ACTIVITY,
    IDLE_SCREEN,
    LANGUAGE_SELECTION,
    DATA_AVAILABLE,
    CHANNEL_STATUS,
    PROFILE_DOWNLOAD,
    STATUS_COMMAND,
    CALL_CONTROL,
];

/// The bits of a row's events are below this.
pub const EVENTS_END: u16 = 1 << 12;

/// Whether this code is among these.
pub(crate) fn has_code(codes: &[u8], code: u8) -> bool
    ensures { result ≡ list_any (λ other. other == code) codes.now }
{
    codes.iter().any(|other| *other == code)
}

/// Whether an applet may be registered for this event.
pub fn is_event(code: u8) -> bool
    ensures { result ≡ is_code code }
{
    has_code(&EVENTS, code)
}

// One bit for each code of a table, the lowest for the first: whether it is among these.
#[tactic(auto, unfolding(crate::specs::Events::bits_for))]
fn bits_in(table: &[u8], codes: &[u8]) -> u16
    requires { length table.now ≤ 12 }
    ensures value { result ≡ bits_for table.now codes.now }
    ensures low { result < 2 ^ length table.now }
{
    match table {
        [] => 0,
        [code, rest @ ..] => u16::from(has_code(codes, *code)) + 2 * bits_in(rest, codes),
    }
}

/// The bits of these codes.
pub fn events_of(codes: &[u8]) -> u16
    ensures value { codes_of result ≡ sorted_codes codes.now }
    ensures low { result < EVENTS_END }
{
    bits_in(&EVENTS, codes)
}

fn place_among(codes: &[u8], code: u8) -> Option<usize>
    ensures { result ≡ position_from (λ other. other == code) 0 codes.now }
{
    codes.iter().position(|other| *other == code)
}

fn bit_of(code: u8) -> Option<usize>
    ensures { result ≡ bit_of code }
{
    place_among(&EVENTS, code)
}

/// Whether the event of this code is among these.
pub fn has_event(events: u16, code: u8) -> bool
    ensures { result ≡ list_any (λ other. other == code) (codes_of events) }
{
    match bit_of(code) {
        Some(bit) => events >> bit & 1 == 1,
        None => false,
    }
}

/// Whether the event of call control is among these.
pub fn has_call_control(events: u16) -> bool
    ensures { result ≡ (bit_at events call_control_bit == 1) }
{
    events / 2_048 % 2 == 1
}

/// These events and that of this code, if an applet may be registered for it.
pub fn with_event(events: u16, code: u8) -> u16
    ensures value { codes_of result ≡ sorted_codes (code ∷ codes_of events) }
    ensures low { events < EVENTS_END → result < EVENTS_END }
{
    match bit_of(code) {
        Some(bit) => events | 1 << bit,
        None => events,
    }
}

/// These events without that of this code.
pub fn without_event(events: u16, code: u8) -> u16
    ensures value { codes_of result ≡ filter (λ other. not (other == code)) (codes_of events) }
    ensures low { result ≤ events }
{
    match bit_of(code) {
        Some(bit) => events & !(1 << bit),
        None => events,
    }
}
