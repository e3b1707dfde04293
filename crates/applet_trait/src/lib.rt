//! What the card asks of an applet: it wakes with the bytes that it keeps, takes a stimulus and answers with an act. An
//! applet is of one of the card's kinds, and each kind does what its table says.
#![tactic(auto)]

pub mod actions;
mod applets;
mod boxes;
mod laws;
pub mod numbers;
mod stimuli;
pub mod texts;

pub use applets::Applet;
pub use boxes::kind_on;
pub use laws::{commands_are_proper, turns_are_lawful};
pub use stimuli::{Act, Stimulus};
