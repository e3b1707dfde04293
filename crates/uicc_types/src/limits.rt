//! The two ways in which there can be no room.

/// A list was not changed, since the result would be longer than its bound.
#[derive(Clone, Copy, Debug, PartialEq, Eq)]
pub struct Full;

/// Memory was asked for while something was set up, and there was none.
#[derive(Clone, Copy, Debug, PartialEq, Eq)]
pub struct OutOfMemory;
