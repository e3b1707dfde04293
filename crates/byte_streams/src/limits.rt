//! The bounds of a script.

/// The most bytes that a line may have, without its end.
pub const LONGEST_LINE: usize = 600;

/// The most bytes that lines may take up, their ends counted with them.
pub const MOST_BYTES: usize = 16_777_216;
