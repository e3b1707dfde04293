//! A store whose pages move: each commit writes the pages that it touches where they have been free longest, and then
//! changes the map that says where they lie.
#![tactic(auto)]

mod counted;
mod filling;
mod inner;
mod moves;
mod overlays;
mod paged;
mod places;
mod steps;
mod store;
mod tables;

pub use overlays::{MOST_TOUCHED, touches_few};
pub use places::{CONTENT_SIZE, DEVICE_SIZE};
pub use store::PageStore;
