//! The run of a terminal's channels of the bearer independent protocol, which is over no card.
ghost use Rattle.std.specs.Prelude.{◌≡◌, ◌≢◌, ◌≤◌, ◌+◌, ℕ, List, Some, is_some};
ghost use Rattle.byte_streams.specs.Reading.{IsTaken};
ghost use Rattle.byte_streams.specs.Streams.{CountsEach};
ghost use Rattle.byte_streams.specs.declared.limits.TheConstants.{MOST_BYTES};
ghost use Rattle.uicc_run.specs.Making.{IsUnshown};
ghost use Rattle.uicc_run.specs.Endings.{status_for};
ghost use Rattle.uicc_run.specs.Terminals.{ComesToBip};

use crate::endings::Ending;
use bip_runs::serve;
use byte_streams::{Sink, Source};
use std::alloc::Global;

/// Has a new terminal carry out the script, and answers why the run ends. It stands apart as `load` does.
#[inline(never)]
pub fn serve_channels<R: Source, W: Sink>(alloc: Global, script: &mut R, trace: &mut W) -> Ending
    ensures comes { (text : List ℕ) → R.left script.old ≡ Some text
        → ComesToBip text (W.taken trace.old) (R.left script.new) (W.taken trace.new) result }
    ensures used { result ≢ Ending.Usage }
    ensures low { status_for result ≤ 5 }
    ensures shown { IsUnshown result → ⊥ }
    ensures taken { (text : List ℕ) → R.left script.old ≡ Some text
        → IsTaken (MOST_BYTES + 1) text (R.left script.new) }
    ensures source_cause { CountsEach (R.faults script.old) (R.faults script.new) (status_for result ≡ 3) }
    ensures sink_cause { CountsEach (W.faults trace.old) (W.faults trace.new) (status_for result ≡ 4) }
    ensures tells { is_some (W.taken trace.new) ≡ is_some (W.taken trace.old) }
{
    match serve(alloc, script, trace) {
        Ok(end) => Ending::Played(end),
        Err(_) => Ending::NoMemory,
    }
}
