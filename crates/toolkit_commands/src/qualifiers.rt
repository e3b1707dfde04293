//! Qualifiers of proactive commands (TS 102 223, 8.6), and the codings of their objects.

/// A command whose qualifier says nothing.
pub const NONE: u8 = 0x00;

/// REFRESH: the card is reset.
pub const CARD_RESET: u8 = 0x04;

/// DISPLAY TEXT: the text stands until the user clears it.
pub const UNTIL_CLEARED: u8 = 0x80;

/// GET INKEY and GET INPUT: what is typed is digits, or any characters.
pub const DIGITS: u8 = 0x00;

pub const CHARACTERS: u8 = 0x01;

/// PROVIDE LOCAL INFORMATION: where the terminal is.
pub const LOCATION: u8 = 0x00;

/// TIMER MANAGEMENT: start a timer, stop it, or ask for what is left of it.
pub const START: u8 = 0x00;

pub const DEACTIVATE: u8 = 0x01;

pub const GET_VALUE: u8 = 0x02;

/// The coding of a text string in bytes of eight bits (8.15).
pub const EIGHT_BITS: u8 = 0x04;

/// The unit of a duration in seconds (8.8).
pub const IN_SECONDS: u8 = 0x01;
