//! What a memory holds that stands for a state, what a commit changes of the state, and what the memory stands for after it.
//! The functions do nothing: each carries a statement, which a caller has by calling it.
#![tactic(auto)]

mod changes;
mod standing;

pub use changes::{
    commits_change_one_file, commits_change_one_pin, commits_change_one_row,
    commits_change_what_a_file_holds, files_are_read,
};
pub use standing::{
    cards_are_known, files_stand, migration_stands, pins_stand, rows_stand, stores_stand,
    what_files_hold_is_read, what_files_hold_stands,
};
