//! What holds of each run. The functions do nothing: their contracts are the laws.
ghost use Rattle.card_laws.specs.FaultLaws.{FaultsAreSeen, PowerLasts, RunsAreOne, UndisturbedRunsShowNoFault};

/// A card with power that is not seen to lose it finds power at each command, and has it at the end.
pub fn power_lasts()
    ensures { PowerLasts }
{}

/// Where the device of the memory counts neither a failure nor a loss of power, a card that begins with power answers no command by
/// `6581`, and neither loses power nor is without it, and no reset fails.
pub fn undisturbed_runs_show_no_fault()
    ensures { UndisturbedRunsShowNoFault }
{}

/// Where no command is answered by `6581`, no reset fails and no loss of power is seen, the device of the memory counted no fault and no
/// loss of power.
pub fn faults_are_seen()
    ensures { FaultsAreSeen }
{}

/// Two runs of the same steps from the same card, in which no fault and no loss of power is seen, show the same and end with the same
/// card.
pub fn runs_are_one()
    ensures { RunsAreOne }
{}
