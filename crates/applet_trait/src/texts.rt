//! The texts that applets show or ask by.

pub const GREETING: &[u8] = b"Hi";

pub const CHOICE_TITLE: &[u8] = b"Pick";

pub const TEXT_ITEM: &[u8] = b"Text";

pub const TONE_ITEM: &[u8] = b"Tone";

pub const TICK: &[u8] = b"Tick";

pub const LOST: &[u8] = b"Lost";

pub const MOVED: &[u8] = b"Moved";

pub const ACTIVE: &[u8] = b"Active";

pub const IDLE: &[u8] = b"Idle";

pub const ASK_FOR_DIGITS: &[u8] = b"Bar?";

pub const ASK_FOR_NOTE: &[u8] = b"Note?";
