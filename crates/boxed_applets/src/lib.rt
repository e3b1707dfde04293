//! The applets that the card comes with, one of each kind, and which of them the program puts on which shelf.
#![tactic(auto)]

mod acts;
mod barriers;
mod casts;
mod clocks;
mod greeters;
mod menus;
mod notebooks;
mod numbers;
mod programs;
mod states;
mod tables;
mod watchers;

pub use barriers::Barrier;
pub use casts::{kind_for, put_on_shelf};
pub use clocks::Clock;
pub use greeters::Greeter;
pub use menus::Menu;
pub use notebooks::Notebook;
pub use tables::Table;
pub use watchers::Watcher;
