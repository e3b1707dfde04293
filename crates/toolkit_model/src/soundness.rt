//! What a card keeps of its toolkit stays sound.
ghost use Rattle.toolkit_model.specs.Sound.{StepsLeaveGood, InstalledRowsAreSound};

use applet_trait::{commands_are_proper, turns_are_lawful};
use toolkit_commands::lengths_of_commands;

/// From a toolkit that is good, each command that is accepted leaves one, and rows that are sound after each of its commits:
/// 32 shelves with an applet of its kind for each row; rows by their shelves, of known kinds, with sequence numbers of their own
/// below the next one, codes of events that ascend, one row alone for call control, short texts for at most 16 items, and no
/// more kept bytes than the card has room for; and a session in order. A row that is installed has to be sound, and so has all
/// that applets wake over.
pub fn steps_leave_good()
    ensures { StepsLeaveGood }
{
    lengths_of_commands();
    commands_are_proper();
    turns_are_lawful();
}

/// Where INSTALL is not refused, the row that it answers is sound on a card whose next sequence number is greater by one.
pub fn installed_rows_are_sound()
    ensures { InstalledRowsAreSound }
{}
