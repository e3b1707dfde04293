//! What a line after `start` does where a handset is used.
ghost use Rattle.std.specs.Prelude.{◌≤◌, ◌<◌, ◌+◌, ◌^◌, ℕ};
ghost use Rattle.script_form.specs.Bounds.{IsBounded};
ghost use Rattle.phone_runs.specs.Playing.{FitsIn, IsEffect, span_of_effect};
ghost use Rattle.phone_runs.specs.declared.effects.TheConstants.{LONGEST_SPAN};

use script_form::{HandsetLine, ScriptLine, handset_line};
use uicc_types::Plan;

/// The most seconds that a line of a script lets pass.
pub const LONGEST_SPAN: u32 = 999_999_999;

/// What a line after `start` is for the handset.
#[derive(Debug, Drop)]
pub enum PhoneEffect {
    /// It does nothing.
    Nothing,
    /// Something happens at it.
    Hears(HandsetLine),
    /// Faults are planned for the next command or reset.
    Plans(Plan),
    /// It may not stand there.
    OutOfPlace,
}

/// What a line after `start` is for the handset. A command of its own a script may not send there.
pub fn effect_on_phone(line: &ScriptLine) -> PhoneEffect
    ensures effect { IsEffect line.now result }
    ensures fits { (clock : ℕ) → IsBounded line.now → clock + LONGEST_SPAN < 2 ^ 63 → FitsIn clock result }
    ensures short { IsBounded line.now → span_of_effect result ≤ LONGEST_SPAN }
{
    match line {
        ScriptLine::Passed => PhoneEffect::Nothing,
        ScriptLine::Cut(cut) => PhoneEffect::Plans(Plan {
            cut: Some(*cut),
            ..Plan::NONE
        }),
        ScriptLine::Fail(fail) => PhoneEffect::Plans(Plan {
            fail: Some(*fail),
            ..Plan::NONE
        }),
        ScriptLine::ReadFail(call) => PhoneEffect::Plans(Plan {
            read_fail: Some(*call),
            ..Plan::NONE
        }),
        _ => match handset_line(line) {
            Some(said) => PhoneEffect::Hears(said),
            None => PhoneEffect::OutOfPlace,
        },
    }
}
