//! What a card keeps: its persistent state, the table of entries that it has of it while it runs, and which contents of the memory stand
//! for which state.
#![tactic(auto)]

mod entries;
pub mod events;
mod faults;
mod installation;
pub mod kinds;
mod new_files;
pub mod places;
mod ranges;
mod shapes;
pub mod sizes;
mod soundness;
mod state_laws;
mod staying_sound;

pub use entries::{Loaded, Node, PinSlot, Row};
pub use faults::SectionFault;
pub use installation::{Installed, read_installation};
pub use new_files::{may_be_rule, may_be_shape, new_df, new_ef, size_for};
pub use ranges::{node_ranges, pin_ranges, row_ranges};
pub use shapes::Shape;
pub use soundness::{
    refused_at_first, sound_stands, standing_files_hold, standing_is_sound, standing_keys_are_own,
};
pub use state_laws::{
    event_bits_are_codes, event_codes_are_known, new_files_are_blank, states_are_of_entries,
};
pub use staying_sound::states_stay_sound;
