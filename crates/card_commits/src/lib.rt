//! Committed changes of a card over a store: each change is one commit, after which the store stands for the changed state, and
//! after a fault for that or for the state before. For files that come or grow, free bytes are prepared first, which commits
//! nothing. Of what carries out commands, this crate and `file_admin` alone name places in the memory.
#![tactic(auto)]

mod commits;
mod entries;
mod entry_commits;
mod files;
mod laws;
mod pieces;
mod pins;
mod prepared_pieces;
mod preparing;
mod reading;
mod rows;

pub use entry_commits::commit_node;
pub use files::{write_bytes, write_life, write_newest_record, write_record};
pub use laws::{contents_are_whole, tables_tell_states};
pub use pins::{PinChange, change_pin};
pub use preparing::{prepare_blank, prepare_moved};
pub use reading::{read_bytes, read_record, read_records};
pub use rows::{deregister, install_row, keep_bytes, register, remove_row};
