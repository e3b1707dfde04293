//! The end of a command.
ghost use Rattle.std.specs.Prelude.{◌≡◌, ◌≢◌, List, Result, Err, OnOk};
ghost use Rattle.card_state.specs.Persistent.{Persistent};
ghost use Rattle.card_state.specs.Memory.{Memory};
ghost use Rattle.file_model.specs.Outcomes.{FileOutcome, settled_file};
ghost use Rattle.file_model.specs.Selections.{IsSelection};
ghost use Rattle.file_model.specs.declared.descriptors.Descriptor.{Descriptor};
ghost use Rattle.card_commits.specs.Performing.{IsOutcome};
ghost use Rattle.binary_commands.specs.Targets.{EndsLawfully, Gives, IsAnswer, IsRefused, Tells};

use file_model::Selection;
use uicc_types::{Answer, StatusWord};

/// Ends a command that was carried out, with its answer in `out` and this selection, or refused with this status.
pub fn settle(tried: Result<Selection, StatusWord>, selection: &mut Selection, out: &mut Answer)
    ensures comes { (state : Persistent) (meaning : Result FileOutcome StatusWord) (old new : Memory)
        → Gives state meaning tried out.old old new
        → IsOutcome state (settled_file selection.old meaning) out.new selection.new old new }
    ensures answers { (meaning : Result FileOutcome StatusWord) → Tells meaning tried out.old
        → IsAnswer (settled_file selection.old meaning) out.new selection.new }
    ensures done { OnOk tried (out.new ≡ out.old) }
    ensures refused { (status : StatusWord) → tried ≡ Err status
        → IsRefused status out.new selection.old selection.new }
    ensures lawful { (files : List Descriptor) → IsSelection files selection.old
        → EndsLawfully files tried out.old
        → IsSelection files selection.new × (out.new.status.0 ≢ StatusWord.MEMORY_PROBLEM.0) }
{
    match tried {
        Ok(next) => *selection = next,
        Err(status) => {
            out.body.clear();
            out.status = status;
        }
    }
}
