//! What a handset with a toolkit (ETSI TS 102 223) does at each moment, as definitions over what happened before: what
//! it sends to the card and notes, worked out by looking back.
#![tactic(auto)]

mod commands;
mod known;
mod laws;
mod steps;

pub use commands::{Command, Digits, Place, Reply, Report, Typed};
pub use known::{Due, Duty, Held, Known, LastSent, Listed, Running};
pub use laws::{lines_end, one_history, soonest_first};
pub use steps::PhoneStep;

/// The most commands that a handset sends for one line of its script.
pub const MOST_COMMANDS: u16 = 65535;
