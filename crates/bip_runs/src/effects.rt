//! What a line of the script is for the terminal.
ghost use Rattle.std.specs.Prelude.{◌≡◌};
ghost use Rattle.bip_runs.specs.BetweenLines.{part_for};
ghost use Rattle.bip_runs.specs.Parts.{part_of};

use script_form::ScriptLine;
use uicc_types::Octets;

/// What happens to the terminal.
#[derive(Clone, Copy)]
pub enum Happening<'a> {
    /// The card gives this proactive command.
    Command(&'a Octets),
    /// The far end of a channel is to give so many bytes back.
    Echo { channel: u8, count: u16 },
    /// The network drops the link of this channel.
    Lost(u8),
}

/// What a line of the script is for the terminal.
#[derive(Clone, Copy)]
pub enum Effect<'a> {
    /// It does nothing.
    Nothing,
    /// It is `start`.
    Starts,
    /// This happens.
    Happens(Happening<'a>),
    /// It may stand nowhere.
    OutOfPlace,
}

/// Where a run stands in its script: up to `start`, or after it.
#[derive(Clone, Copy, PartialEq, Eq)]
pub enum Place {
    Before,
    Behind,
}

/// What a line of the script is for the terminal.
pub fn effect_of(line: &ScriptLine) -> Effect<'_>
    ensures { part_for result ≡ part_of line.now }
{
    match line {
        ScriptLine::Passed => Effect::Nothing,
        ScriptLine::Start => Effect::Starts,
        ScriptLine::Cmd(bytes) => Effect::Happens(Happening::Command(bytes)),
        ScriptLine::Echo { channel, count } => Effect::Happens(Happening::Echo {
            channel: *channel,
            count: *count,
        }),
        ScriptLine::Lose(channel) => Effect::Happens(Happening::Lost(*channel)),
        ScriptLine::Reset
        | ScriptLine::Df { .. }
        | ScriptLine::Transparent { .. }
        | ScriptLine::Linear { .. }
        | ScriptLine::Cyclic { .. }
        | ScriptLine::Fill { .. }
        | ScriptLine::Rec { .. }
        | ScriptLine::Pin { .. }
        | ScriptLine::Row { .. }
        | ScriptLine::Apdu(_)
        | ScriptLine::Cut(_)
        | ScriptLine::Fail(_)
        | ScriptLine::ReadFail(_)
        | ScriptLine::UserOk
        | ScriptLine::UserEnd
        | ScriptLine::UserBack
        | ScriptLine::UserNone
        | ScriptLine::UserType(_)
        | ScriptLine::UserPick(_)
        | ScriptLine::UserPress
        | ScriptLine::UserIdle
        | ScriptLine::UserDial(_)
        | ScriptLine::NetPlace(_)
        | ScriptLine::NetPoll
        | ScriptLine::Time(_)
        | ScriptLine::Tpdu(_) => Effect::OutOfPlace,
    }
}
