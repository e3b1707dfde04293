//! The commands between a handset and the toolkit of a card, and those that install and delete applets, over any store: each as it is
//! defined, and what is left where a fault stops it.
#![tactic(auto)]

mod deleting;
mod envelopes;
mod fetching;
mod forms;
mod installing;
mod profiles;
mod responding;
mod shelves;
mod telling;
mod triggers;

pub use deleting::delete;
pub use envelopes::take_envelope;
pub use fetching::fetch;
pub use installing::install;
pub use profiles::{poll, take_profile};
pub use responding::take_response;
