//! A store over any device: a journal that makes each commit whole or not at all, whenever power is lost. And a law: what is
//! spelled in the journal is read.
#![tactic(auto)]

mod device;
mod entries;
mod journal;
mod journal_laws;
mod steps;

pub use journal::Journal;
pub use journal_laws::what_is_spelled_is_read;
