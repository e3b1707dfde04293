//! A card as its section describes it, line by line, and the format of a store with it.
#![tactic(auto)]

mod bytes;
mod entries;
mod files;
mod formatting;
mod laws;
mod pins;
mod rows;
mod section;

pub use formatting::format;
pub use laws::sections_are_made;
pub use section::Section;
