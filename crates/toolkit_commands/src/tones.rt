//! Tones (TS 102 223, 8.16).

pub const GENERAL_BEEP: u8 = 0x10;
