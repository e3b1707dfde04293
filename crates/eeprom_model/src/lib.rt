//! A memory whose writes can be cut short or fail, a device for the bench in which such faults are planned, one for trials that
//! shows the bytes of another one, and one over a real file: the edge to the outside, whose bytes no proof can see.
#![tactic(auto)]

mod adapter;
mod bench;
mod device;
mod image;
mod switched;

pub use adapter::FileEeprom;
pub use bench::BenchEeprom;
pub use device::{Eeprom, EepromFault, PAGE_LENGTH};
pub use image::{Image, open_image};
pub use switched::SwitchedEeprom;
