//! Byte strings that wait in a line, in one block of memory that is taken once and given back at the end.
#![tactic(auto)]

mod block;
mod store;

pub use store::FrameStore;

#[cfg(test)]
mod tests;
