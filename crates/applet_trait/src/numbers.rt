//! Numbers by which applets go.

/// The last general result of a command that was performed and that the user did not end (`0X` of ETSI TS 102 223, 8.12).
pub const LAST_GOOD: u8 = 0x0F;

/// How many bytes an applet asks to be kept, at most.
pub const MOST_KEPT: usize = 32;

/// The items that an applet of kind 2 offers.
pub const TEXT: u8 = 1;

pub const TONE: u8 = 2;

/// The general beep (8.16).
pub const GENERAL_BEEP: u8 = 0x10;

/// The tag of location information (8.19).
pub const LOCATION_INFORMATION: u16 = 0x13;

/// The action of TIMER MANAGEMENT that starts a timer (8.6).
pub const START: u8 = 0;

/// How many minutes an applet of kind 3 waits.
pub const MINUTES: u8 = 5;

/// The most digits that an applet of kind 5 asks for.
pub const MOST_DIGITS: u8 = 10;

/// The most characters that an applet of kind 6 asks for.
pub const LONGEST_NOTE: u8 = 20;
