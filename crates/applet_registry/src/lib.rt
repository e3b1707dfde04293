//! The registered applets: what registers one, unregisters it, and changes the events that it is registered for, with the refusals
//! in their order; and the menu. Nothing is written here: what a caller commits is what these answer.
#![tactic(auto)]

mod events;
mod installing;
mod items;
mod rows;

pub use events::{deregister, register};
pub use installing::{delete, install};
pub use items::{is_menu, menu};
pub use toolkit_model::RowFault;
