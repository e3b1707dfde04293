//! What a session is between two commands, whatever they are.
ghost use Rattle.std.specs.Prelude.{List};
ghost use Rattle.toolkit_model.specs.Passing.{ToolkitState};
ghost use Rattle.toolkit_model.specs.Driving.{driven};
ghost use Rattle.toolkit_model.specs.Steps.{ToolkitInput, AreAccepted, moved_by};
ghost use Rattle.toolkit_model.specs.OrderlySessions.{IsInOrder, IsDriven};

use applet_trait::commands_are_proper;
use toolkit_commands::lengths_of_commands;

/// Commands that are accepted, one after the other, leave a session in order: each applet asks at most once, what is asked can
/// be sent and is asked by registered applets, late triggers are for applets that wait for an answer and at most 16, timers
/// belong to registered applets, and without a terminal profile nothing is asked.
pub fn sessions_stay_in_order()
    ensures { (commands : List ToolkitInput) (state : ToolkitState) → IsInOrder state → AreAccepted commands state
        → IsInOrder (moved_by commands state).state }
{
    lengths_of_commands();
    commands_are_proper();
}

/// Driving ends: nothing is late for an applet that is idle, and something is outstanding where commands wait.
pub fn driving_ends()
    ensures { (state : ToolkitState) → IsDriven (driven state).state.session }
{}
