//! A run, step by step: what is done to a card over any store, by itself or over a T=0 link, and what the trace shows of it; and
//! that the link changes no answer and no step of a run.
#![tactic(auto)]

mod carriers;
mod ends;
mod link_laws;
mod steps;
mod tpdus;

pub use carriers::Carrier;
pub use ends::CardEnd;
pub use link_laws::{le_cuts_alone, link_changes_no_answer, link_changes_no_step};
pub use steps::{MemoryFailed, Restarted, StepEnd, exchange, restart};
pub use tpdus::take_tpdu;
