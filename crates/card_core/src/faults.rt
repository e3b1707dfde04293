//! Why a command or a reset was not carried out.

/// Why there is no answer to a command.
#[derive(Clone, Copy, Debug, PartialEq, Eq)]
pub enum CardFault {
    /// Power was lost in the command. Only a reset brings it back.
    PowerLost,
    /// There was no power when the command came, and nothing was done.
    NoPower,
}

/// Why a card is not running after a reset.
#[derive(Clone, Copy, Debug, PartialEq, Eq)]
pub enum ResetFault {
    /// The memory failed. The next command begins with what is left to be done of the reset.
    Failed,
    /// Power was lost.
    PowerLost,
}
