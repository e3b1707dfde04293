//! The terminal's side of the bearer independent protocol (ETSI TS 102 223, 6.4.27 to 6.4.31): channels to a far end that
//! gives back what it is sent, for the proactive commands that open, close, read, write and ask for them, and the events
//! that tell the card of them.
#![tactic(auto)]

mod channels;
mod codes;
mod commands;
mod laws;
mod reading;
mod responses;
mod serving;
mod terminal;

pub use commands::BipCommand;
pub use laws::{each_channel_tells, received_is_prefix};
pub use reading::read_bip;
pub use terminal::Bip;
