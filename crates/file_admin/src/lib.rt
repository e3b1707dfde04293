//! CREATE FILE, DELETE FILE and RESIZE FILE (ETSI TS 102 222, 6.3, 6.4 and 6.10), over the store of a card; with the search for
//! room, the template and the entry of a new file, and what the memory then stands for.
#![tactic(auto)]

mod adding;
mod channels;
mod creating;
mod deleting;
mod entries;
mod growing;
mod new_entries;
mod refusals;
mod resizing;
mod rooms;
mod templates;
mod written_files;

pub use creating::create_file;
pub use deleting::delete_file;
pub use new_entries::{NewEntry, new_entry};
pub use resizing::resize_file;
pub use rooms::room;
pub use templates::read_template;
pub use written_files::written_files_stand;
