//! What holds of every table of a card. The functions do nothing: each one's contract is the law. Those that carry out a reset, an opening
//! or a command call them for their proofs; no other crate sees them.
ghost use Rattle.card_core.specs.Laws.{TheMfIsThere, TablesHaveRows, KeysAreOwn};

use card_state::{standing_is_sound, standing_keys_are_own};
use file_model::files_are_found;
use layout_laws::cards_are_known;

/// In the table of each card the MF is there to be selected.
pub fn the_mf_is_there()
    ensures { TheMfIsThere }
{
    files_are_found();
    standing_is_sound();
    cards_are_known();
}

/// The rows in the table of each card are such as a card may have, and the next sequence number is above theirs.
pub fn tables_have_rows()
    ensures { TablesHaveRows }
{
    standing_is_sound();
    cards_are_known();
}

/// In the table of each card each PIN is in the slot of its key.
pub fn keys_are_own()
    ensures { KeysAreOwn }
{
    standing_keys_are_own();
}
