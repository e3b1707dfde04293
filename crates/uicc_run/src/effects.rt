//! What a line after `start` does.
ghost use Rattle.uicc_run.specs.BetweenLines.{IsEffect};

use script_form::ScriptLine;
use uicc_types::Plan;

/// What a line after `start` is for the card.
#[derive(Clone, Copy)]
pub enum Effect<'a> {
    /// It does nothing.
    Nothing,
    /// It sends the card this command.
    Sends(&'a [u8]),
    /// It gives the link this TPDU.
    Transfers(&'a [u8]),
    /// It resets the card.
    Resets,
    /// It plans faults for the next command or reset.
    Plans(Plan),
    /// It may not stand there.
    OutOfPlace,
}

/// What a line after `start` is for the card.
pub fn effect_of(line: &ScriptLine) -> Effect<'_>
    ensures { IsEffect line.now result }
{
    match line {
        ScriptLine::Passed => Effect::Nothing,
        ScriptLine::Apdu(apdu) => Effect::Sends(apdu.as_slice()),
        ScriptLine::Tpdu(tpdu) => Effect::Transfers(tpdu.as_slice()),
        ScriptLine::Reset => Effect::Resets,
        ScriptLine::Cut(cut) => Effect::Plans(Plan {
            cut: Some(*cut),
            ..Plan::NONE
        }),
        ScriptLine::Fail(fail) => Effect::Plans(Plan {
            fail: Some(*fail),
            ..Plan::NONE
        }),
        ScriptLine::ReadFail(call) => Effect::Plans(Plan {
            read_fail: Some(*call),
            ..Plan::NONE
        }),
        ScriptLine::Start
        | ScriptLine::Df { .. }
        | ScriptLine::Transparent { .. }
        | ScriptLine::Linear { .. }
        | ScriptLine::Cyclic { .. }
        | ScriptLine::Fill { .. }
        | ScriptLine::Rec { .. }
        | ScriptLine::Pin { .. }
        | ScriptLine::Row { .. }
        | ScriptLine::UserOk
        | ScriptLine::UserEnd
        | ScriptLine::UserBack
        | ScriptLine::UserNone
        | ScriptLine::UserType(_)
        | ScriptLine::UserPick(_)
        | ScriptLine::UserPress
        | ScriptLine::UserIdle
        | ScriptLine::UserDial(_)
        | ScriptLine::NetPlace(_)
        | ScriptLine::NetPoll
        | ScriptLine::Time(_)
        | ScriptLine::Cmd(_)
        | ScriptLine::Echo { .. }
        | ScriptLine::Lose(_) => Effect::OutOfPlace,
    }
}
