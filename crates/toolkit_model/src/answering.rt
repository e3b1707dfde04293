//! A response reaches the applet that asked.
ghost use Rattle.std.specs.Prelude.{ℕ, List};
ghost use Rattle.toolkit_model.specs.Orderly.{asks};
ghost use Rattle.toolkit_model.specs.Passing.{ToolkitState};
ghost use Rattle.toolkit_model.specs.Steps.{ToolkitInput, AreAccepted, moved_by};
ghost use Rattle.toolkit_model.specs.OrderlySessions.{IsInOrder};
ghost use Rattle.toolkit_model.specs.Awaiting.{awaited, ReachesWhoAsked};

use applet_trait::commands_are_proper;
use toolkit_commands::lengths_of_commands;

/// Over commands that are accepted, one after the other, and for each shelf: after a command of its applet was admitted, the
/// applet's next turn is told of the answer that was accepted to that command, unless it woke; and each answer that was
/// accepted to a command of it is told it once.
pub fn responses_reach_who_asked()
    ensures { (commands : List ToolkitInput) (state : ToolkitState) (shelf : ℕ) → IsInOrder state
        → AreAccepted commands state
        → ReachesWhoAsked shelf (awaited shelf (asks state.session)) (moved_by commands state).log
        (awaited shelf (asks (moved_by commands state).state.session)) }
{
    lengths_of_commands();
    commands_are_proper();
}
