//! The words of the command line: which run is asked for, over which device, and how a handset reaches its card.
#![tactic(auto)]

mod options;
mod requests;
mod words;

pub use requests::{Devices, MOST_LINES, Mode, Request, Transport};
pub use words::{asked_for, devices};
