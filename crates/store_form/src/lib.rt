//! A store of bytes whose commits are whole or not at all, and the list of writes that a commit is given.
#![tactic(auto)]

mod store;
mod writes;

pub use store::{OWN_END, OWN_START, Store, StoreFault};
pub use writes::{MOST_BYTES, MOST_PIECES, Writes};
