//! The law of the handset.
ghost use Rattle.phone_runs.specs.HandsetServing.{HandsetsAreServed, HandsetsAreServedFromStart};

use crate::fetching::{announced_commands_are_fetched, details_are_read, responses_are_taken};
use card_laws::{cards_go_on, unanswered_commands_stay};

/// A card never refuses a FETCH or a TERMINAL RESPONSE of a handset that keeps to its rules, whatever else happens: resets, losses
/// of power and failures of the memory.
pub fn handsets_are_served()
    ensures served { HandsetsAreServed }
    ensures from_start { HandsetsAreServedFromStart }
{
    cards_go_on();
    unanswered_commands_stay();
    details_are_read();
    announced_commands_are_fetched();
    responses_are_taken();
}
