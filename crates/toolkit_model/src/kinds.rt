//! The applet of a row is of the kind that the row says.
ghost use Rattle.toolkit_model.specs.Kinds.{KindsStay, WakesKeepKinds};

use applet_trait::{commands_are_proper, turns_are_lawful};
use toolkit_commands::lengths_of_commands;

/// Where the applet of each row is of the row's kind, it stays so over commands that are accepted, one after the other; and so it
/// does when all applets wake over rows of their kinds.
pub fn kinds_are_those_of_the_rows()
    ensures commands { KindsStay }
    ensures wakes { WakesKeepKinds }
{
    lengths_of_commands();
    commands_are_proper();
    turns_are_lawful();
}
