//! What a handset asks of who runs it.

use script_form::Note;
use uicc_types::ApduBytes;

/// One thing to do for the handset.
#[derive(Debug, Drop)]
pub enum PhoneStep {
    /// A command is to be sent to the card, and the handset to be told what came of it.
    Send(ApduBytes),
    /// The card is to be reset.
    Reset,
    /// A note is to be written.
    Note(Note),
}
