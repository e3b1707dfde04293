//! The places of the events in an index.
ghost use Rattle.std.specs.Prelude.{◌≡◌, ◌<◌, IfSome, Some};
ghost use Rattle.card_state.specs.Events.{bit_of};

use uicc_types::events::{
    CALL_CONNECTED, CALL_CONTROL, CALL_DISCONNECTED, CHANNEL_STATUS, DATA_AVAILABLE, IDLE_SCREEN,
    LANGUAGE_SELECTION, LOCATION_STATUS, MT_CALL, PROFILE_DOWNLOAD, STATUS_COMMAND, USER_ACTIVITY,
};

/// How many events there are.
pub(crate) const EVENT_COUNT: usize = 12;

/// The place of an event's list, which is the bit that it has in a row, or nothing for a code that is no event's.
pub(crate) fn place_of(code: u8) -> Option<usize>
    ensures value { result ≡ bit_of code }
    ensures low { IfSome result (λ place. place < 12) }
{
    match code {
        MT_CALL => Some(0),
        CALL_CONNECTED => Some(1),
        CALL_DISCONNECTED => Some(2),
        LOCATION_STATUS => Some(3),
        USER_ACTIVITY => Some(4),
        IDLE_SCREEN => Some(5),
        LANGUAGE_SELECTION => Some(6),
        DATA_AVAILABLE => Some(7),
        CHANNEL_STATUS => Some(8),
        PROFILE_DOWNLOAD => Some(9),
        STATUS_COMMAND => Some(10),
        CALL_CONTROL => Some(11),
        _ => None,
    }
}

/// The code of the event whose list has this place.
pub(crate) fn code_at(place: usize) -> u8
    requires { place < 12 }
    ensures { bit_of result ≡ Some place }
{
    match place {
        0 => MT_CALL,
        1 => CALL_CONNECTED,
        2 => CALL_DISCONNECTED,
        3 => LOCATION_STATUS,
        4 => USER_ACTIVITY,
        5 => IDLE_SCREEN,
        6 => LANGUAGE_SELECTION,
        7 => DATA_AVAILABLE,
        8 => CHANNEL_STATUS,
        9 => PROFILE_DOWNLOAD,
        10 => STATUS_COMMAND,
        _ => CALL_CONTROL,
    }
}
