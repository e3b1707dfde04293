//! Types of proactive commands (TS 102 223, 9.4).

pub const REFRESH: u8 = 0x01;

pub const MORE_TIME: u8 = 0x02;

pub const POLL_INTERVAL: u8 = 0x03;

pub const SET_UP_EVENT_LIST: u8 = 0x05;

pub const PLAY_TONE: u8 = 0x20;

pub const DISPLAY_TEXT: u8 = 0x21;

pub const GET_INKEY: u8 = 0x22;

pub const GET_INPUT: u8 = 0x23;

pub const SELECT_ITEM: u8 = 0x24;

pub const SET_UP_MENU: u8 = 0x25;

pub const LOCAL_INFORMATION: u8 = 0x26;

pub const TIMER_MANAGEMENT: u8 = 0x27;

pub const IDLE_TEXT: u8 = 0x28;
