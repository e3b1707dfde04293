//! The actions of the rows that an applet of kind 7 keeps.

pub const SHOW: u8 = 0x01;

pub const PLAY_TONE: u8 = 0x02;

pub const MORE_TIME: u8 = 0x03;

pub const TELL_INFORMATION: u8 = 0x04;

pub const REFRESH: u8 = 0x05;

pub const GET_KEY: u8 = 0x06;

pub const REGISTER: u8 = 0x07;

pub const DEREGISTER: u8 = 0x08;

pub const SHOW_WHEN_IDLE: u8 = 0x09;

pub const TAKE_TIMER: u8 = 0x0A;
