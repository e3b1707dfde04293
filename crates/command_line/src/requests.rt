//! What a command line can ask for.

/// The most lines that `load` makes.
pub const MOST_LINES: u32 = 1_000_000;

/// How the commands of a handset reach its card.
#[derive(Clone, Copy, Debug, PartialEq, Eq)]
pub enum Transport {
    /// Each command is handed to the card as it is, and its answer comes back whole.
    Direct,
    /// By the protocol T=0 (ISO 7816-3): a command is a header of five bytes, the last of which counts the data that follow it in one
    /// direction. What a command with data answers is fetched by GET RESPONSE.
    T0,
}

/// What a run does.
#[derive(Clone, Copy, Debug, PartialEq, Eq)]
pub enum Mode {
    /// It makes a card of the script's first lines, and carries out the others.
    Play,
    /// It opens the card that the memory holds, and carries out the script's lines.
    Open,
    /// As `Play`, but the other lines go to a handset, which serves the card.
    Phone {
        /// How the handset's commands reach the card.
        transport: Transport,
    },
    /// It makes a fixed card and a number of lines for the handset, and writes how much there was to do.
    Load {
        /// The number that the lines are made from, at most 999,999,999.
        start: u32,
        /// How many lines are made, at most 1,000,000.
        count: u32,
    },
    /// It has a terminal carry out proactive commands of the bearer independent protocol. It is made over no card.
    Bip,
}

/// What the words of the command line ask for.
#[derive(Clone, Copy, Debug, PartialEq, Eq)]
pub struct Request {
    pub mode: Mode,
    pub devices: Devices,
}

/// What a run is made over.
#[derive(Clone, Copy, Debug, PartialEq, Eq)]
pub struct Devices {
    /// The place of the image's path among the words, counted from 0. Without one the memory is that of the bench.
    pub image: Option<usize>,
    /// Whether the store is the one whose pages move, on a device of 71,680 bytes. Otherwise it is the journal, on one of 65,536.
    pub pages: bool,
}
