//! The abstract card: its state, its one list of instructions, what it answers to a command, and how it moves in a run of
//! commands, resets, losses of power and memory failures. Definitions, and laws that hold of them.
#![tactic(auto)]

mod instructions;
mod laws;

pub use instructions::{CatCommand, Instruction};
pub use laws::{answers_are_lawful, plans_are_set_in_order, restarts_are_good, runs_are_counted};
