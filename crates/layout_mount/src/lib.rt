//! Mounting a card: the table of all entries of what a store holds, if that is a card.
#![tactic(auto)]

mod checks;
mod image;
mod loading;
mod mounting;
mod reading;

pub use mounting::{MountFault, mount};
