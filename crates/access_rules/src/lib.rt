//! Access rules (ETSI TS 102 221, 9.2): which operations the record of an EF_ARR allows to whom, and the keys that are verified.
#![tactic(auto)]

mod conditions;
mod objects;
mod rule_records;
mod rules;

pub use rule_records::allowed;
pub use rules::{Op, Verified};
