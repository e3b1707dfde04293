//! The layout of a card in its memory, under one name: its section, its format, its entries and what writes them, and how it is mounted.
#![tactic(auto)]

pub use card_state::{Loaded, Node, PinSlot, Row, SectionFault, Shape};
pub use layout_entries::{kept_write, node_write, pin_write, row_write, sequence_write};
pub use layout_mount::{MountFault, mount};
pub use layout_section::{Section, format};
