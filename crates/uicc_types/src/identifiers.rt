//! The names of files, applets' shelves and PIN values.

/// A file identifier (ETSI TS 102 221, 8.2). The MF has `3F00`.
#[derive(Clone, Copy, Debug, Default, PartialEq, Eq)]
pub struct FileId(pub u16);

impl FileId {
    /// The MF (8.6).
    pub const MF: FileId = FileId(0x3F00);
    /// The current application in a path (8.6); no file has it.
    pub const CURRENT_ADF: FileId = FileId(0x7FFF);
}

/// The eight bytes of a PIN or an UNBLOCK PIN as a command presents them (ETSI TS 102 221, 9.5).
#[derive(Clone, Copy, Debug, PartialEq, Eq)]
pub struct Pin8(pub [u8; 8]);

/// The number of the place that a registered applet has in the card.
#[derive(Clone, Copy, Debug, Default, PartialEq, Eq)]
pub struct Shelf(pub u8);
