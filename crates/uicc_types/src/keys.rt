//! The references of the PINs that a card may have (ETSI TS 102 221, 9.5.1).

/// PIN of the application, or global PIN 1.
pub const PIN_1: u8 = 0x01;

/// The second PIN.
pub const PIN_2: u8 = 0x81;

/// The first administrative key.
pub const ADM_1: u8 = 0x0A;
