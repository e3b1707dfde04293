//! No event is lost.
ghost use Rattle.std.specs.Prelude.{ℕ, List};
ghost use Rattle.toolkit_model.specs.Passing.{ToolkitState};
ghost use Rattle.toolkit_model.specs.Steps.{ToolkitInput, AreAccepted, moved_by};
ghost use Rattle.toolkit_model.specs.OrderlySessions.{IsInOrder};
ghost use Rattle.toolkit_model.specs.Owing.{LosesNothing};

use applet_trait::commands_are_proper;
use toolkit_commands::lengths_of_commands;

/// Over commands that are accepted, one after the other and without a wake, and for each applet: what was late for it and what
/// envelopes gave it is, in this order, what it was told of and what is late for it then. The events of a terminal profile and
/// of STATUS, of which the card also tells by itself, are left out.
pub fn no_event_is_lost()
    ensures { (commands : List ToolkitInput) (state : ToolkitState) (shelf : ℕ) → IsInOrder state
        → AreAccepted commands state
        → LosesNothing shelf state (moved_by commands state) }
{
    lengths_of_commands();
    commands_are_proper();
}
