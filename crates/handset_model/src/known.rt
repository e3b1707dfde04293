//! What a handset knows, and what it is to do next.

use crate::commands::{Command, Place};
use script_form::Note;
use toolkit_commands::{Details, Items, Proactive, TimeValue};

/// Which of the events that this handset can report the card wants to hear of.
#[derive(Clone, Copy, Debug, PartialEq, Eq)]
pub struct Listed {
    pub location: bool,
    pub activity: bool,
    pub idle: bool,
}

/// A proactive command that was fetched and has no response yet.
#[derive(Debug, Drop)]
pub struct Held {
    pub details: Details,
    pub command: Proactive,
}

/// A timer that runs: the moment at which it is due, in seconds, and the value that it was started with.
#[derive(Clone, Copy, Debug, PartialEq, Eq)]
pub struct Running {
    pub due: u64,
    pub value: TimeValue,
}

/// A timer of a number from 1 to 8 that is due at a moment, in seconds, with the value that it was started with.
#[derive(Clone, Copy, Debug, PartialEq, Eq)]
pub struct Due {
    pub timer: u8,
    pub due: u64,
    pub value: TimeValue,
}

/// What the last command was, as far as its answer is taken differently.
#[derive(Clone, Copy, Debug, PartialEq, Eq)]
pub enum LastSent {
    NoCommand,
    Selecting,
    Fetching,
    Calling,
    Reporting,
    Another,
}

/// What is to be done next.
#[derive(Debug, Drop)]
pub enum Duty {
    /// Nothing more for this line.
    Rest,
    /// To send a command.
    Transmit(Command),
    /// To wait for the answer to a command.
    Await,
    /// To write a note.
    Show(Note),
    /// To reset the card.
    ResetCard,
}

/// What a handset knows at one moment.
#[derive(Debug, Drop)]
pub struct Known {
    /// The items of the card's menu.
    pub menu: Items,
    /// The events that the card wants to hear of.
    pub listed: Listed,
    /// The command that waits for its response.
    pub held: Option<Held>,
    /// The timers 1 to 8.
    pub timers: [Option<Running>; 8],
    /// The location that the network told last.
    pub place: Option<Place>,
    /// The seconds of all lines so far.
    pub clock: u64,
    /// The moment that is lived through, in seconds, which inside a line that lets time pass may lie before the clock.
    pub moment: u64,
    /// Whether the line lets time pass.
    pub is_timed: bool,
    /// Whether a REFRESH reset was asked for in this line.
    pub is_refreshed: bool,
    /// So many commands were sent for this line, counted up to the most that may be.
    pub commands: u16,
    /// What the last command was.
    pub last_sent: LastSent,
    /// The length of the proactive command that the last answer announced.
    pub announced: Option<u8>,
    /// Whether the memory or the power failed, or too many commands were sent, and the card was not reset since.
    pub is_silent: bool,
}
