//! What is asked of the handset, as far as a small value says it.

use toolkit_commands::Details;

/// What is asked of the handset. A duty is large, so it is written only where nothing smaller says it.
#[derive(Clone, Copy)]
pub enum Stage {
    /// Nothing more for this line.
    Resting,
    /// To wait for the answer to a command.
    Awaiting,
    /// The duty that is kept.
    Asked,
    /// To fetch a command of so many bytes.
    Fetching(u8),
    /// To ask the card how it is.
    Polling,
    /// To respond to the command with these details that it came to this result.
    Responding(Details, u8),
    /// To show the text of the held command.
    Showing,
}
