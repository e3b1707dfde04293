//! The terminal that serves a card with a toolkit (ETSI TS 102 223): it fetches what the card asks for, carries it out and
//! responds, and reports what the user, the network and the clock do.
#![tactic(auto)]

mod knowing;
mod phone;
mod reactions;
mod sessions;
mod spelling;
mod stages;
mod timers;

pub use handset_model::PhoneStep;
pub use phone::{Next, Phone};
