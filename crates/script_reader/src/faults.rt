//! Why a script is read no further.

/// Why a script is read no further.
#[derive(Clone, Copy, Debug, PartialEq, Eq)]
pub enum ScriptFault {
    /// The line with this number is bad, or the script ended before it and had no `start`.
    BadLine(u32),
    /// There is no room for the file of the line with this number.
    NoRoom(u32),
    /// The script could not be read on.
    ReadFailed,
}
