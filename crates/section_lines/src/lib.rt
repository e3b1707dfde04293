//! The lines of a script before `start`, read into a section that describes a card.
#![tactic(auto)]

mod laws;
mod sections;

pub use laws::rows_have_boxes;
pub use sections::{describe, read_section};
