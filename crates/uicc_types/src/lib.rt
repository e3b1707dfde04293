//! The words that every part of the card, the handset and the script speak: lists of bytes that take no memory,
//! identifiers, status words, planned memory faults, and the steps and trace items of a run.
#![tactic(auto)]

mod answers;
mod byte_lists;
pub mod events;
mod identifiers;
pub mod keys;
mod limits;
mod plans;
mod runs;
mod told;

pub use answers::{Answer, StatusWord};
pub use byte_lists::{AnswerData, ApduBytes, ByteList, Kept, LONGEST_COMMAND, Octets, ShortText};
pub use identifiers::{FileId, Pin8, Shelf};
pub use limits::{Full, OutOfMemory};
pub use plans::{CutAt, FailAt, Plan};
pub use runs::{Step, TraceItem};
pub use told::are_bytes;
