//! How many entries a card has, how many bytes each has, and the bounds of what they hold.

/// How many bytes a file's entry has.
pub const NODE_WIDTH: usize = 16;

/// How many bytes a PIN slot has.
pub const PIN_WIDTH: usize = 20;

/// How many bytes a row has, with the first of its kept bytes.
pub const ROW_WIDTH: usize = 51;

/// How many bytes there are from one row to the next.
pub const ROW_STRIDE: usize = 64;

/// How many files a card has room for.
pub const NODE_COUNT: usize = 128;

/// How many PIN slots there are.
pub const PIN_COUNT: usize = 3;

/// How many rows a wide card has.
pub const ROW_COUNT: usize = 32;

/// How many rows a narrow card has, and how many of a wide one stand before the files.
pub const LOWER_ROW_COUNT: usize = 16;

/// How many bytes a text of the menu has at most.
pub const TEXT_LIMIT: usize = 10;

/// How many rows have a text at most.
pub const MENU_LIMIT: usize = 16;

/// How many bytes a row of a narrow card keeps at most, and how many a row of a wide one keeps with it and apart from it.
pub const KEPT_WIDTH: usize = 32;

/// How many bytes a row of a wide card keeps at most.
pub const KEPT_LIMIT: usize = 64;

/// How many bytes a transparent file has at most when it is new.
pub const SIZE_LIMIT: u16 = 32_767;

/// How many records a file has at most; the last of them is the highest that a command can name.
pub const RECORD_LIMIT: u8 = 254;

/// How many wrong values of a PIN may be presented one after another.
pub const TRIES: u8 = 3;

/// How many wrong values of an UNBLOCK PIN may be presented one after another.
pub const UNBLOCK_TRIES: u8 = 10;

/// The highest number of a kind of applets; the kinds are numbered from 1 on.
pub const LAST_KIND: u8 = 7;
