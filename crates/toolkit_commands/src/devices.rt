//! Device identities (TS 102 223, 8.7).

pub const KEYPAD: u8 = 0x01;

pub const DISPLAY: u8 = 0x02;

pub const EARPIECE: u8 = 0x03;

pub const CARD: u8 = 0x81;

pub const TERMINAL: u8 = 0x82;
