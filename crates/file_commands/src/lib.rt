//! The commands on files, under one name.
#![tactic(auto)]

pub use binary_commands::{read_binary, select, status, update_binary};
pub use record_commands::{
    activate, deactivate, increase, read_record, search_record, update_record,
};
