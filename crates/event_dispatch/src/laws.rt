//! What holds of the commits of rows. The function does nothing: its contract is the law.
ghost use Rattle.event_dispatch.specs.Commits.{InstallsRow, DeletesRow, RegistersCode, DeregistersCode, KeepsBytes};

/// The rows that a commit of a change of one leaves in the memory are those that a session has after it.
pub fn commits_are_those_of_sessions()
    ensures installed { InstallsRow }
    ensures deleted { DeletesRow }
    ensures registered { RegistersCode }
    ensures deregistered { DeregistersCode }
    ensures kept { KeepsBytes }
{}
