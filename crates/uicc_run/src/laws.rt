//! Laws of whole runs, and the numbers that they rest on. The functions do nothing: each one's contract is the law.
ghost use Rattle.uicc_run.specs.Determined.{LoadsAreOne, ServedTracesAreOne, TracesAreOne};
ghost use Rattle.uicc_run.specs.StandardNumbers.{StandardNumbers};

use card_laws::runs_are_one;
use phone_runs::phone_runs_are_one;

/// Two runs of the same section and the same lines after `start`, without a handset, in which no memory fails and no power is lost,
/// have one trace and leave one memory.
pub fn traces_are_one()
    ensures { TracesAreOne }
{
    runs_are_one();
}

/// So have two runs with a handset, and two long runs have the same counts.
pub fn served_traces_are_one()
    ensures served { ServedTracesAreOne }
    ensures loads { LoadsAreOne }
{
    phone_runs_are_one();
}

/// The constants that the code shares by name with its definitions are the numbers that the standards and the layout have.
pub fn numbers_are_standard()
    ensures { StandardNumbers }
{}
