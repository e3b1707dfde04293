//! Which applets an event triggers, and in which order; the triggers and commands that wait.
#![tactic(auto)]

mod codes;
mod coming_in;
mod following;
mod index;
mod late;
mod laws;
mod leaving;
mod order;
mod placing;
mod shelves;
mod target_laws;
mod waiting;

pub use following::{
    changes_are_followed, commits_are_changes, installations_are_followed,
    registrations_are_followed,
};
pub use index::Index;
pub use late::{KeptTrigger, Late};
pub use laws::commits_are_those_of_sessions;
pub use order::{is_target, place, targets};
pub use shelves::Shelves;
pub use target_laws::targets_stand_in_one_order;
pub use waiting::Waiting;
