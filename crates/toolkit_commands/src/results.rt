//! General results of proactive commands (TS 102 223, 8.12).

pub const PERFORMED: u8 = 0x00;

/// The first of the results that tell of a user who didn't carry the command out.
pub const SESSION_ENDED: u8 = 0x10;

pub const BACKWARD_MOVE: u8 = 0x11;

pub const NO_RESPONSE: u8 = 0x12;

pub const UNABLE_TO_PROCESS: u8 = 0x20;

pub const AGAINST_TIMER_STATE: u8 = 0x24;

pub const BEYOND_CAPABILITIES: u8 = 0x30;

pub const TYPE_NOT_UNDERSTOOD: u8 = 0x31;

pub const DATA_NOT_UNDERSTOOD: u8 = 0x32;

pub const VALUES_MISSING: u8 = 0x36;
