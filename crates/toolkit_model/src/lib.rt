//! What the toolkit's part of a card knows between two commands, and how commands move it, as definitions; and what holds of the
//! toolkit over whole runs of commands, by functions that do nothing: each carries a statement, which a caller has by calling it.
#![tactic(auto)]

mod answering;
mod faults;
mod fetching;
mod installing;
mod kinds;
mod order;
mod owing;
mod sessions;
mod soundness;

pub use answering::responses_reach_who_asked;
pub use faults::RowFault;
pub use fetching::one_command_is_outstanding;
pub use installing::installations_are_accepted;
pub use kinds::kinds_are_those_of_the_rows;
pub use order::{idle_targets_run_in_order, triggers_are_in_order};
pub use owing::no_event_is_lost;
pub use sessions::{driving_ends, sessions_stay_in_order};
pub use soundness::{installed_rows_are_sound, steps_leave_good};
