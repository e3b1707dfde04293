//! What an applet is told, and what it does.

use toolkit_commands::Proactive;
use uicc_types::Octets;

/// What happened to an applet.
#[derive(Debug, Drop)]
pub enum Stimulus {
    /// An event that it is registered for, with what the handset tells of it.
    Event { code: u8, body: Octets },
    /// The handset's response to the command that it sent: the general result, the item that was chosen or 0, and the
    /// text that was typed.
    Response { result: u8, item: u8, text: Octets },
    /// Its act was carried out.
    Went,
    /// Its act was not carried out.
    Refused,
    /// This timer, from 1 to 8, is its own now.
    Timer { timer: u8 },
}

/// What an applet does at a stimulus.
#[derive(Debug, Drop)]
pub enum Act {
    /// Nothing more.
    Done,
    /// Sends a command to the handset.
    Send(Proactive),
    /// Asks the card to keep these bytes in place of what it kept.
    Keep(Octets),
    /// Asks to be told of the events of this code.
    Register(u8),
    /// Asks to be told of them no more.
    Deregister(u8),
    /// Asks for a timer.
    TakeTimer,
    /// Gives this timer back.
    FreeTimer(u8),
    /// Whether a call may be set up.
    Answer(bool),
}
