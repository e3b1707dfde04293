//! The commands on files and on PINs, by their names.

/// A command on files (ETSI TS 102 221, 11.1).
#[derive(Clone, Copy, Debug, PartialEq, Eq)]
pub enum FileCommand {
    Select,
    Status,
    /// One on what a file holds, which its access rule may forbid.
    Contents(ContentsCommand),
}

/// A command on what a file holds, or on its life cycle (ETSI TS 102 221, 11.1.3 to 11.1.8, 11.1.14 and 11.1.15).
#[derive(Clone, Copy, Debug, PartialEq, Eq)]
pub enum ContentsCommand {
    ReadBinary,
    UpdateBinary,
    ReadRecord,
    UpdateRecord,
    SearchRecord,
    Increase,
    Deactivate,
    Activate,
}

/// A command on PINs (ETSI TS 102 221, 11.1.9 to 11.1.13).
#[derive(Clone, Copy, Debug, PartialEq, Eq)]
pub enum PinCommand {
    Verify,
    Change,
    Disable,
    Enable,
    Unblock,
}
