//! The card: it is opened over a store, takes commands, answers them and is reset. What it does is what the abstract card does,
//! whatever power it loses and however its memory fails.
#![tactic(auto)]

mod box_waking;
mod cards;
mod channels;
mod commands;
mod faults;
mod instructions;
mod keys;
mod laws;
mod migrating;
mod opening;
mod opening_faults;
mod registered;
mod resetting;
mod restarting;
mod sessions;
mod starting;
mod toolkit;
mod transmitting;

pub use box_waking::wake_boxes;
pub use cards::{Card, CardOver};
pub use faults::{CardFault, ResetFault};
pub use opening_faults::OpenFault;
pub use restarting::restart;
pub use starting::start;
