//! The commands by their names.

use file_model::{FileCommand, PinCommand, TreeCommand};

/// A command of the card, by what it works on (ETSI TS 102 221, 10.1.2).
#[derive(Clone, Copy, Debug, PartialEq, Eq)]
pub enum Instruction {
    File(FileCommand),
    Pin(PinCommand),
    ManageChannel,
    Toolkit(CatCommand),
    Tree(TreeCommand),
}

/// A command between the toolkit and the terminal (ETSI TS 102 221, 11.2), or one that installs or deletes an applet.
#[derive(Clone, Copy, Debug, PartialEq, Eq)]
pub enum CatCommand {
    TerminalProfile,
    Fetch,
    TerminalResponse,
    Envelope,
    InstallApplet,
    DeleteApplet,
}
