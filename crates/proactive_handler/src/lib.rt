//! What runs the applets of a card: an event triggers them, an answer of the handset resumes one, and driving ends what came late
//! and puts the next command out. One runs act after act over the card's memory, until it is done, sends a command to the handset,
//! or did 32 of them. And the toolkit's session in memory.
#![tactic(auto)]

mod acting;
mod admission;
mod announced;
mod carrying;
mod catching;
mod changes;
mod driving;
mod endings;
mod laws;
mod lending;
mod messages;
mod outstanding;
mod responding;
mod running;
mod sending;
mod session;
mod settings;
mod settling;
mod triggering;
mod wanting;

pub use driving::drive_in_place;
pub use laws::{rows_are_listed, sessions_are_served};
pub use responding::respond_and_drive;
pub use session::Session;
pub use triggering::trigger_in_place;
