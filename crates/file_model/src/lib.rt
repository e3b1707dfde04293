//! The files and PINs of a card as ETSI TS 102 221 describes them, and files that are made, deleted and resized (ETSI TS 102 222):
//! how files are found, who may use them, where there is room, what each command does, and what it is refused for. Definitions,
//! and laws that hold of them.
#![tactic(auto)]

mod asked;
mod commands;
mod descriptors;
mod laws;
mod selections;
mod tree_commands;
mod tree_laws;

pub use asked::NewFile;
pub use commands::{ContentsCommand, FileCommand, PinCommand};
pub use descriptors::{Descriptor, RuleReference, Wanted};
pub use laws::{
    commands_on_files_are_lawful, files_are_found, pin_commands_are_lawful, pins_are_guarded,
    records_are_read,
};
pub use selections::Selection;
pub use tree_commands::TreeCommand;
pub use tree_laws::{
    commands_on_trees_are_lawful, one_file_comes, one_file_goes, one_file_is_resized,
    rooms_are_smallest, selections_stay, templates_are_read,
};
