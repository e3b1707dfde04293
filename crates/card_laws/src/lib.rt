//! What holds of whole runs. Guesses of PINs are bounded, whatever power is lost and whatever memory fails; where nothing fails and
//! no power is lost, the trace shows neither; what single commands are refused for, and what is read of what was put or told. And
//! the laws of the toolkit over all that happens to a card that runs applets: commands, faults and resets. Definitions, and
//! functions that do nothing: each carries a statement, which a caller has by calling it.
#![tactic(auto)]

mod faults;
mod guesses;
mod refusals;
mod rereading;
mod sending;
mod stretches;
mod toolkit_laws;

pub use faults::{faults_are_seen, power_lasts, runs_are_one, undisturbed_runs_show_no_fault};
pub use guesses::guesses_are_bounded;
pub use refusals::{
    cards_refuse_in_order, files_are_made_by_leave, the_first_condition_refuses,
    the_first_condition_refuses_on_files, what_is_done_was_allowed,
};
pub use rereading::{what_is_put_is_read, what_is_told_is_read, what_stands_fits};
pub use sending::{commands_are_numbered, events_are_asked_for};
pub use stretches::{
    answers_tell_what_waits, applets_act_at_each_event, applets_act_in_turn,
    carried_commands_are_taken, commands_are_noted, events_are_noted, fetches_give_commands,
    toolkit_laws_hold_throughout, unanswered_commands_stay,
};
pub use toolkit_laws::{
    answers_pass_changes, answers_with_applets_are_lawful, cards_go_on, cards_stay_good,
    toolkit_laws_hold_of_cards, toolkit_laws_hold_of_runs, traces_alternate,
};
