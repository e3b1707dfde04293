//! What holds of sessions, and of the rows of a card. The functions do nothing: their contracts are the laws.
ghost use Rattle.proactive_handler.specs.Rows.{RowsAreListed};
ghost use Rattle.proactive_handler.specs.Serving.{SessionsAreServed};

use card_state::states_are_of_entries;

/// A session over the registrations of a table is one whose applets can run over that table: this is so between two commands.
pub fn sessions_are_served()
    ensures { SessionsAreServed }
{
    states_are_of_entries();
}

/// The rows of a table that agrees with its store stand by their shelves, no two of them have one sequence number, their texts
/// are short and fit the menu, and they are registered for events alone.
pub fn rows_are_listed()
    ensures { RowsAreListed }
{}
