//! At most one command is outstanding.
ghost use Rattle.std.specs.Prelude.{List};
ghost use Rattle.toolkit_model.specs.Passing.{ToolkitState};
ghost use Rattle.toolkit_model.specs.Commands.{unanswered};
ghost use Rattle.toolkit_model.specs.Steps.{ToolkitInput, AreAccepted, moved_by};
ghost use Rattle.toolkit_model.specs.OrderlySessions.{IsInOrder};
ghost use Rattle.toolkit_model.specs.Fetching.{OneAtATime, AnsweredBetween};

use applet_trait::commands_are_proper;
use toolkit_commands::lengths_of_commands;

/// Over commands that are accepted, one after the other: a command is fetched only where none is fetched and not answered, and
/// the one that an accepted response answers is the one that was fetched. So between two commands that are fetched a response
/// is accepted, or all applets wake.
pub fn one_command_is_outstanding()
    ensures one { (commands : List ToolkitInput) (state : ToolkitState) → IsInOrder state → AreAccepted commands state
        → OneAtATime (unanswered state.session) (moved_by commands state).log }
    ensures between { (commands : List ToolkitInput) (state : ToolkitState)
        → IsInOrder state → AreAccepted commands state
        → AnsweredBetween (moved_by commands state).log }
{
    lengths_of_commands();
    commands_are_proper();
}
