//! What the card can ask of the terminal's channels.
use uicc_types::Octets;

/// A proactive command of the bearer independent protocol.
#[derive(Debug, Drop)]
pub enum BipCommand {
    /// Opens a channel with a buffer of this size.
    OpenChannel {
        size: u16,
    },
    CloseChannel {
        channel: u8,
    },
    /// Takes at most `count` of the bytes that came back.
    ReceiveBytes {
        channel: u8,
        count: u8,
    },
    /// Keeps the bytes, or, where `now` is true, sends what is kept and then them.
    SendBytes {
        channel: u8,
        bytes: Octets,
        now: bool,
    },
    /// Asks how the channels stand.
    ChannelStatus,
}
