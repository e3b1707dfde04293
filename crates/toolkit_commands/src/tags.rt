//! Tags of objects and templates (TS 101 220, 7.2).

/// The template of a proactive command.
pub const PROACTIVE_COMMAND: u8 = 0xD0;

/// The templates of envelopes.
pub const MENU_SELECTION: u8 = 0xD3;

pub const CALL_CONTROL: u8 = 0xD4;

pub const EVENT_DOWNLOAD: u8 = 0xD6;

pub const TIMER_EXPIRATION: u8 = 0xD7;

pub const COMMAND_DETAILS: u16 = 0x01;

pub const DEVICE_IDENTITIES: u16 = 0x02;

pub const RESULT: u16 = 0x03;

pub const DURATION: u16 = 0x04;

pub const ALPHA_IDENTIFIER: u16 = 0x05;

pub const ADDRESS: u16 = 0x06;

pub const TEXT_STRING: u16 = 0x0D;

pub const TONE: u16 = 0x0E;

pub const ITEM: u16 = 0x0F;

pub const ITEM_IDENTIFIER: u16 = 0x10;

pub const RESPONSE_LENGTH: u16 = 0x11;

pub const LOCATION_INFORMATION: u16 = 0x13;

pub const EVENT_LIST: u16 = 0x19;

pub const LOCATION_STATUS: u16 = 0x1B;

pub const TIMER_IDENTIFIER: u16 = 0x24;

pub const TIMER_VALUE: u16 = 0x25;
