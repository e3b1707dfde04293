//! The entries of a card's layout as bytes, in both versions of it, and the writes that change one of them.
#![tactic(auto)]

mod laws;
mod spelling;
mod writers;

pub use laws::{
    commits_change_one_entry, commits_of_bytes_change_one_entry, entries_are_read_back,
    pieces_change_their_bytes,
};
pub use spelling::{EntryBytes, spell_node, spell_pin, spell_row};
pub use writers::{kept_write, node_write, pin_write, row_write, sequence_write, version_write};
