//! What holds of long runs. The function does nothing: its contract is the law.
ghost use Rattle.phone_runs.specs.LoadLaws.{LoadRunsAreOne};

use crate::laws::phone_runs_are_one;
use card_laws::undisturbed_runs_show_no_fault;

/// What is counted in the trace of a long run is determined by its lines and its card, where the device of the memory counts no fault
/// and the card has power at first. The lines are those that the number and the count make.
pub fn loads_are_one()
    ensures { LoadRunsAreOne }
{
    // These calls are laws, and do nothing.
    phone_runs_are_one();
    undisturbed_runs_show_no_fault();
}
