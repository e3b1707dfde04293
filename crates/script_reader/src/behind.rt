//! The lines of a script after `start`.
ghost use Rattle.std.specs.Prelude.{◌≡◌, ◌≢◌, ◌<◌, ◌+◌, Bool, List, ℕ, Err, OnOk};
ghost use Rattle.byte_streams.specs.Lines.{LineList};
ghost use Rattle.byte_streams.specs.Reading.{IsWithin};
ghost use Rattle.byte_streams.specs.Streams.{CountsEach};
ghost use Rattle.script_form.specs.Bounds.{IsBounded};
ghost use Rattle.script_form.specs.declared.lines.ScriptLine.{ScriptLine as AnyLine};
ghost use Rattle.script_reader.specs.Behind.{GivesLine, end_for as end_of_fault};
ghost use Rattle.script_reader.specs.Reading.{Follows, line_count, reading, room_of};

use crate::faults::ScriptFault;
use crate::reader::ScriptReader;
use byte_streams::Source;
use script_form::ScriptLine;

/// Why a run ends after `start`.
#[derive(Clone, Copy, Debug, PartialEq, Eq)]
pub enum PlayEnd {
    /// The script was read to its end, and every line was carried out.
    Finished,
    /// The line with this number is bad.
    BadLine(u32),
    /// The script could not be read on.
    ReadFailed,
    /// The trace could not be written on.
    SinkFailed,
    /// The memory failed in a reset. The trace says so.
    ResetFailed,
}

/// Reads the next line after `start` into `line`. Where the script ends, goes on with a line in no form or can't be read on, it
/// answers that the run ends so.
#[inline(always)]
pub fn read_behind<R: Source>(
    script: &mut ScriptReader,
    source: &mut R,
    line: &mut ScriptLine,
) -> Result<(), PlayEnd>
    ensures gives { (may : AnyLine → Bool) (text : List ℕ) (found : LineList)
        → Follows text found script.old (R.left source.old)
        → GivesLine may text found script.new (R.left source.new) line.new result }
    ensures within { (text : List ℕ) → IsWithin text (reading script.old) (R.left source.old)
        → IsWithin text (reading script.new) (R.left source.new) }
    ensures cause { CountsEach (R.faults source.old) (R.faults source.new) (result ≡ Err PlayEnd.ReadFailed) }
    ensures sink { result ≢ Err PlayEnd.SinkFailed }
    ensures memory { result ≢ Err PlayEnd.ResetFailed }
    ensures nearer { OnOk result (room_of script.new < room_of script.old) }
    ensures counted { OnOk result (line_count script.new ≡ line_count script.old + 1) }
    ensures bounded { OnOk result (IsBounded line.new) }
{
    match script.next(source, line) {
        Ok(true) => Ok(()),
        Ok(false) => Err(PlayEnd::Finished),
        Err(fault) => Err(end_for(fault)),
    }
}

/// Why a run ends whose script is read no further.
pub fn end_for(fault: ScriptFault) -> PlayEnd
    ensures { result ≡ end_of_fault fault }
{
    match fault {
        ScriptFault::BadLine(number) | ScriptFault::NoRoom(number) => PlayEnd::BadLine(number),
        ScriptFault::ReadFailed => PlayEnd::ReadFailed,
    }
}
