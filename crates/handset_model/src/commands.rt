//! What a handset sends to the card, before it is spelled in bytes.

use toolkit_commands::{Details, TimeValue};
use uicc_types::ByteList;

/// A text that a user typed: at most 30 bytes.
pub type Typed = ByteList<30>;

/// A location as the network tells it: at most 32 bytes.
pub type Place = ByteList<32>;

/// The digits that a user dialled: at most 20.
pub type Digits = ByteList<20>;

/// A command of the handset.
#[derive(Debug, Drop)]
pub enum Command {
    /// SELECT of the MF.
    SelectMf,
    /// TERMINAL PROFILE: what the handset can do.
    SendProfile,
    /// FETCH of a proactive command of so many bytes.
    Fetch { length: u8 },
    /// TERMINAL RESPONSE to the command with these details.
    Respond { details: Details, reply: Reply },
    /// ENVELOPE.
    Tell(Report),
    /// STATUS, by which the card may say that it wants something.
    AskStatus,
}

/// What an envelope reports to the card (TS 102 223, 7).
#[derive(Debug, Drop)]
pub enum Report {
    /// The user picked this item of the card's menu.
    MenuSelection {
        item: u8,
    },
    /// The user did something.
    UserActivity,
    /// The screen is idle.
    IdleScreen,
    /// The network told a new location.
    Location {
        place: Place,
    },
    /// The user wants to call this number, given as decimal digits.
    CallControl {
        digits: Digits,
    },
    /// The timer has run down that was started with this value. It was due at this moment, in seconds.
    Expired {
        timer: u8,
        value: TimeValue,
        due: u64,
    },
}

/// What a terminal response says after the details and the device identities (TS 102 223, 6.8).
#[derive(Debug, Drop)]
pub enum Reply {
    /// A general result alone.
    Result(u8),
    /// Performed: the text that the user typed.
    Typed { text: Typed },
    /// Performed: the item that the user chose.
    Chosen { item: u8 },
    /// Performed: the interval that will be kept.
    Interval { seconds: u8 },
    /// Performed: where the handset is.
    Located { place: Place },
    /// The handset is unable to carry it out now, without a particular cause.
    Unable,
    /// Performed: this timer was started.
    Started { timer: u8 },
    /// Performed: what is left of this timer.
    Left { timer: u8, value: TimeValue },
    /// This timer doesn't run.
    NotRunning { timer: u8 },
}
