//! Command and answer APDUs in the short form (ISO 7816-4, 5.1).
#![tactic(auto)]

mod answers;
mod classes;
mod commands;
mod fields;

pub use answers::write_answer;
pub use commands::{Command, WrongLength, read_command};
