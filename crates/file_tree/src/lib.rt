//! The files of a card by the table of its entries: how a file is found (ETSI TS 102 221, 8.4), and what is selected on
//! each logical channel (8.7).
#![tactic(auto)]

mod channels;
mod describing;
mod finding;
mod laws;
mod searching;

pub use channels::Channels;
pub use file_model::Selection;
pub use finding::{
    NotFound, above, by_path, by_short, chosen_by_identifier, chosen_by_path, current_ef, find,
    nearest_ef,
};
pub use laws::{files_may_be_selected, short_identifiers_fit, start_is_lawful};
pub use searching::first_file;
