//! The PIN commands over a store (ETSI TS 102 221, 9.5 and 11.1.9 to 11.1.13).
#![tactic(auto)]

mod commands;
mod comparing;
mod marks;
mod presenting;
mod slots;
mod trials;

pub use commands::{named_pin_command, pin_command};
