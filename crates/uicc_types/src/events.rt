//! The codes of the events that an applet may be registered for, or that trigger it: those of the terminal (ETSI TS
//! 102 223, 8.25) and, from `40` on, those of the card itself.

pub const MT_CALL: u8 = 0x00;

pub const CALL_CONNECTED: u8 = 0x01;

pub const CALL_DISCONNECTED: u8 = 0x02;

pub const LOCATION_STATUS: u8 = 0x03;

pub const USER_ACTIVITY: u8 = 0x04;

pub const IDLE_SCREEN: u8 = 0x05;

pub const LANGUAGE_SELECTION: u8 = 0x07;

pub const DATA_AVAILABLE: u8 = 0x09;

pub const CHANNEL_STATUS: u8 = 0x0A;

/// A terminal profile was received.
pub const PROFILE_DOWNLOAD: u8 = 0x40;

/// A STATUS command was received.
pub const STATUS_COMMAND: u8 = 0x41;

/// An item of the menu was selected; its row is triggered, and nobody registers for it.
pub const MENU_SELECTION: u8 = 0x43;

/// A timer expired; its owner is triggered, and nobody registers for it.
pub const TIMER_EXPIRATION: u8 = 0x44;

/// The terminal asks whether a call may be set up.
pub const CALL_CONTROL: u8 = 0x45;
