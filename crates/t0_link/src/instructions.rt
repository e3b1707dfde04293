//! The instructions that T=0 tells from others (ETSI TS 102 221, 10.1.2).

/// Asks the link for the data that it keeps; the card has no part in it.
pub const GET_RESPONSE: u8 = 0xC0;

pub const READ_BINARY: u8 = 0xB0;

pub const READ_RECORD: u8 = 0xB2;

pub const FETCH: u8 = 0x12;

pub const STATUS: u8 = 0xF2;

/// Opens a channel where P1 is 00, and closes one otherwise.
pub const MANAGE_CHANNEL: u8 = 0x70;
