//! Where the bits of a profile stand.
ghost use Rattle.std.specs.Prelude.{◌≡◌};
ghost use Rattle.terminal_profile.specs.Profiles.{place_of_command, place_of_event};

use toolkit_commands::Proactive;
use toolkit_commands::qualifiers::GET_VALUE;
use uicc_types::events::{
    CALL_CONNECTED, CALL_DISCONNECTED, CHANNEL_STATUS, DATA_AVAILABLE, IDLE_SCREEN,
    LANGUAGE_SELECTION, LOCATION_STATUS, MT_CALL, USER_ACTIVITY,
};

/// A bit of a profile: its byte, and its place in that byte, each counted from 1 as in the standard.
#[derive(Clone, Copy)]
pub struct Place {
    pub byte: u8,
    pub bit: u8,
}

impl Place {
    const fn at(byte: u8, bit: u8) -> Place
        ensures { result ≡ record { byte = byte; bit = bit } }
    {
        Place { byte, bit }
    }
}

/// The bit of a command.
pub fn command_place(command: &Proactive) -> Place
    ensures { result ≡ place_of_command command.now }
{
    match command {
        Proactive::Refresh { .. } => Place::at(3, 8),
        Proactive::MoreTime => Place::at(3, 4),
        Proactive::PollInterval { .. } => Place::at(3, 6),
        Proactive::SetUpEventList { .. } => Place::at(5, 1),
        Proactive::PlayTone { .. } => Place::at(3, 5),
        Proactive::DisplayText { .. } => Place::at(3, 1),
        Proactive::GetInkey { .. } => Place::at(3, 2),
        Proactive::GetInput { .. } => Place::at(3, 3),
        Proactive::SelectItem { .. } => Place::at(4, 1),
        Proactive::SetUpMenu { .. } => Place::at(4, 6),
        Proactive::LocalInformation { .. } => Place::at(4, 7),
        Proactive::TimerManagement {
            action: GET_VALUE,
            ..
        } => Place::at(8, 2),
        Proactive::TimerManagement { .. } => Place::at(8, 1),
        Proactive::IdleText { .. } => Place::at(8, 5),
    }
}

/// The bit of an event, by the code of the event (ETSI TS 102 223, 8.25); none where no bit is looked at.
pub fn event_place(code: u8) -> Option<Place>
    ensures { result ≡ place_of_event code }
{
    match code {
        MT_CALL => Some(Place::at(5, 2)),
        CALL_CONNECTED => Some(Place::at(5, 3)),
        CALL_DISCONNECTED => Some(Place::at(5, 4)),
        LOCATION_STATUS => Some(Place::at(5, 5)),
        USER_ACTIVITY => Some(Place::at(5, 6)),
        IDLE_SCREEN => Some(Place::at(5, 7)),
        LANGUAGE_SELECTION => Some(Place::at(6, 1)),
        DATA_AVAILABLE => Some(Place::at(6, 3)),
        CHANNEL_STATUS => Some(Place::at(6, 4)),
        _ => None,
    }
}
