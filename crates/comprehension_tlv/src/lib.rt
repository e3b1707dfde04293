//! Comprehension-TLV objects and BER templates, as the card toolkit writes and reads them (ETSI TS 101 220, 7.1).
//! Reading hands out borrowed parts and takes no memory. Every fault tells the place where its object begins.
#![tactic(auto)]

mod faults;
mod laws;
mod lists;
mod objects;
mod templates;
mod walks;
mod writer;

pub use faults::TlvFault;
pub use laws::{exact_reading, exact_writing, one_reading};
pub use lists::{find, walk};
pub use objects::Part;
pub use templates::read_template;
pub use walks::Walk;
pub use writer::TlvWriter;
