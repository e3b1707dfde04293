//! The commands on records, and those on the life cycle of files, over a store (ETSI TS 102 221, 11.1).
#![tactic(auto)]

mod adding;
mod holding;
mod increasing;
mod laws;
mod lives;
mod matching;
mod numbering;
mod reading;
mod searching;
mod targets;
mod updating;

pub use increasing::increase;
pub use lives::{activate, deactivate};
pub use reading::read_record;
pub use searching::search_record;
pub use updating::update_record;
