//! The lines of a script, read one after the other, and why a script is read no further.
#![tactic(auto)]

mod behind;
mod faults;
mod reader;

pub use behind::{PlayEnd, end_for, read_behind};
pub use faults::ScriptFault;
pub use reader::ScriptReader;
