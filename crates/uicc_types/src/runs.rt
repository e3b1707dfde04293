//! What a card is given, and what is seen of it: the steps and the trace of a run.

use crate::answers::StatusWord;
use crate::byte_lists::{AnswerData, ApduBytes};
use crate::plans::Plan;

/// One thing that a script does to the card.
#[derive(Debug, Drop)]
pub enum Step {
    /// Sends a command.
    Apdu(ApduBytes),
    /// Resets the card.
    Reset,
    /// Plans faults of the memory for the next command or reset.
    Plan(Plan),
}

/// One thing that a trace shows of the card.
#[derive(Debug, Drop)]
pub enum TraceItem {
    /// A command was sent.
    Command(ApduBytes),
    /// The card answered it with data and a status.
    Answer(AnswerData, StatusWord),
    /// Power was lost in a command or a reset.
    Cut,
    /// A command was sent to a card without power.
    Off,
    /// The card was reset.
    Reset,
    /// The memory failed in a reset, which ends the run.
    EepromFailed,
}
