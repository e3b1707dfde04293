//! An applet that is to be installed.
ghost use Rattle.toolkit_model.specs.Installing.{InstallationsAreAccepted};

/// Where INSTALL is not refused, the row that it answers may be registered: the rows with it stand by their shelves with
/// sequence numbers of their own and texts for one menu, and its applet is there.
pub fn installations_are_accepted()
    ensures { InstallationsAreAccepted }
{}
