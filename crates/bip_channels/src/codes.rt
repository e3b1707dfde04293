//! The codes of the bearer independent protocol.

/// Types of proactive commands (TS 102 223, 9.4).
pub const OPEN_CHANNEL: u8 = 0x40;

pub const CLOSE_CHANNEL: u8 = 0x41;

pub const RECEIVE_DATA: u8 = 0x42;

pub const SEND_DATA: u8 = 0x43;

pub const GET_CHANNEL_STATUS: u8 = 0x44;

/// OPEN CHANNEL: the link is set up at once (8.6).
pub const AT_ONCE: u8 = 0x01;

/// SEND DATA: the bytes go to the far end now, and are not kept for later, for which the qualifier is 0 (8.6).
pub const SEND_NOW: u8 = 0x01;

/// Tags of objects (TS 101 220, 7.2).
pub const BEARER_DESCRIPTION: u16 = 0x35;

pub const CHANNEL_DATA: u16 = 0x36;

pub const CHANNEL_DATA_LENGTH: u16 = 0x37;

pub const CHANNEL_STATUS: u16 = 0x38;

pub const BUFFER_SIZE: u16 = 0x39;

/// The bearer that the terminal has for any network (8.52).
pub const DEFAULT_BEARER: u8 = 0x03;

/// The device identities of the channels 1 to 7 are their numbers and this (8.7).
pub const CHANNEL_DEVICES: u8 = 0x20;

/// General results (8.12): performed, with missing information, and an error of the protocol, whose cause follows.
pub const MISSING_INFORMATION: u8 = 0x02;

pub const PROTOCOL_ERROR: u8 = 0x3A;

/// Causes of an error of the protocol (8.12.11).
pub const NONE_AVAILABLE: u8 = 0x01;

pub const CHANNEL_CLOSED: u8 = 0x02;

pub const NOT_VALID: u8 = 0x03;

pub const SIZE_NOT_AVAILABLE: u8 = 0x04;

/// The status of a channel (8.56): its number, with this added where the link is up.
pub const LINK_UP: u8 = 0x80;

/// What more the status says: nothing, or that the link was dropped.
pub const NOTHING_MORE: u8 = 0x00;

pub const LINK_DROPPED: u8 = 0x05;
