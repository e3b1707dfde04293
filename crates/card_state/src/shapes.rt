//! The structures of an EF.

/// The structure of an EF and its size (ETSI TS 102 221, 8.2.2).
#[derive(Clone, Copy, Debug, PartialEq, Eq)]
pub enum Shape {
    /// A list of `size` bytes.
    Transparent { size: u16 },
    /// `count` records of `length` bytes.
    Linear { length: u8, count: u8 },
    /// `count` records of `length` bytes in a ring, of which record 1 is the newest.
    Cyclic { length: u8, count: u8 },
}
