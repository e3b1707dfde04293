//! What an index stands for once the rows of a card changed.
ghost use Rattle.event_dispatch.specs.Changes.{RegistrationsAreFollowed, InstallationsAreFollowed, ChangesAreFollowed};
ghost use Rattle.event_dispatch.specs.Committed.{CommitsAreChanges};

/// Where the row of a shelf is registered for a code that it wasn't registered for, `Index::added` makes an index of the rows as they
/// were one of the rows as they are.
pub fn registrations_are_followed()
    ensures { RegistrationsAreFollowed }
{}

/// Where a row is installed on a free shelf, the rows without it are those that were there: `Index::installed` makes an index of
/// those one of the rows with it.
pub fn installations_are_followed()
    ensures { InstallationsAreFollowed }
{}

/// An index that stands for the rows of a card, and for which after each of their changes the call for that change was made, stands
/// for the rows after all of them. Where a row keeps other bytes no call is needed.
pub fn changes_are_followed()
    ensures { ChangesAreFollowed }
{}

/// What the commit of an installed or deleted row, of an event more or less, or of what a row keeps makes of the rows of a card is
/// what that change makes of them.
pub fn commits_are_changes()
    ensures { CommitsAreChanges }
{}
