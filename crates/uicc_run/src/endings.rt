//! Why a run ends.
ghost use Rattle.std.specs.Prelude.{◌≡◌};
ghost use Rattle.std.specs.Option.{option_to_list};
ghost use Rattle.uicc_run.specs.Endings.{line_for, line_of_counts, status_for};

use long_runs::Counts;
use script_form::TraceLine;
use script_reader::{PlayEnd, ScriptFault};

/// Why a run ended.
#[derive(Clone, Copy, Debug, PartialEq, Eq)]
pub enum Ending {
    /// The words of the command line are in no form.
    Usage,
    /// There was no memory to begin with.
    NoMemory,
    /// The script was read no further than before `start`.
    Section(ScriptFault),
    /// The card's memory failed, or lost power, in this, and no line of the trace has said so.
    MemoryFailed(Task),
    /// What the memory holds can't be opened.
    NoCard(Refusal),
    /// It ended after `start`.
    Played(PlayEnd),
    /// A long run was carried out: so many lines were given to its handset, and this is counted in its trace.
    Counted { lines: u32, counts: Counts },
}

/// In what the card's memory failed.
#[derive(Clone, Copy, Debug, PartialEq, Eq)]
pub enum Task {
    /// It was formatted.
    Formatting,
    /// The card was opened.
    Opening,
    /// The card was reset in a long run, of which no trace is kept.
    Counting,
}

/// Why a card can't be opened.
#[derive(Clone, Copy, Debug, PartialEq, Eq)]
pub enum Refusal {
    /// The memory holds none: the check at this place is the first that fails.
    NotACard(usize),
    /// The applet that is registered on this shelf is not there.
    NoApplet(u8),
}

/// The status that the program ends with.
pub fn status_of(ending: &Ending) -> u8
    ensures { result ≡ status_for ending.now }
{
    match ending {
        Ending::Played(PlayEnd::Finished) | Ending::Counted { .. } => 0,
        Ending::Usage => 1,
        Ending::Section(ScriptFault::BadLine(_)) | Ending::Played(PlayEnd::BadLine(_)) => 2,
        Ending::Section(ScriptFault::ReadFailed) | Ending::Played(PlayEnd::ReadFailed) => 3,
        Ending::Played(PlayEnd::SinkFailed) => 4,
        Ending::NoMemory => 5,
        Ending::MemoryFailed(_) | Ending::Played(PlayEnd::ResetFailed) => 6,
        Ending::NoCard(_) => 7,
        Ending::Section(ScriptFault::NoRoom(_)) => 8,
    }
}

/// The line that the trace ends with, where there is one that the run has not shown already.
pub fn last_line(ending: &Ending) -> Option<TraceLine>
    ensures { option_to_list result ≡ line_for ending.now }
{
    match ending {
        Ending::Played(PlayEnd::Finished | PlayEnd::SinkFailed | PlayEnd::ResetFailed) => None,
        Ending::Usage => Some(TraceLine::Usage),
        Ending::Section(ScriptFault::BadLine(number) | ScriptFault::NoRoom(number))
        | Ending::Played(PlayEnd::BadLine(number)) => Some(TraceLine::Line(*number)),
        Ending::Section(ScriptFault::ReadFailed) | Ending::Played(PlayEnd::ReadFailed) => {
            Some(TraceLine::ReadFailed)
        }
        Ending::NoMemory => Some(TraceLine::NoMemory),
        Ending::MemoryFailed(_) => Some(TraceLine::EepromFailed),
        Ending::NoCard(Refusal::NotACard(at)) => Some(TraceLine::NotACard(*at)),
        Ending::NoCard(Refusal::NoApplet(shelf)) => Some(TraceLine::NoApplet(*shelf)),
        Ending::Counted { lines, counts } => Some(counts_line(*lines, counts)),
    }
}

/// The line of what is counted.
fn counts_line(lines: u32, counts: &Counts) -> TraceLine
    ensures { result ≡ line_of_counts lines counts.now }
{
    TraceLine::Counts {
        lines: u64::from(lines),
        commands: counts.commands,
        fetches: counts.fetches,
        responses: counts.responses,
        envelopes: counts.envelopes,
        busy: counts.busy,
    }
}
