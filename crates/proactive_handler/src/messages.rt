//! The acts that change nothing in the memory.
ghost use Rattle.std.specs.Prelude.{◌≡◌, if◌then◌else◌};
ghost use Rattle.toolkit_commands.specs.Table.{HasWritableTime};
ghost use Rattle.timer_table.specs.Timers.{smallest_free, given_to, freed};
ghost use Rattle.applet_trait.specs.declared.stimuli.Stimulus.TheVariants.{Went, Refused, Timer};
ghost use Rattle.applet_trait.specs.Laws.{GivesTimer};
ghost use Rattle.toolkit_model.specs.Running.{is_held_by, is_admitted};
ghost use Rattle.proactive_handler.specs.declared.endings.Next.TheVariants.{Told, Sent};
ghost use Rattle.proactive_handler.specs.declared.endings.Reply.TheVariants.{Refused as WasRefused};
ghost use Rattle.proactive_handler.specs.Acts.{setting_of, stimulus_of, timer_told};

use crate::admission::{is_admitted, is_held_by};
use crate::endings::{Next, Reply};
use crate::settings::Setting;
use timer_table::Timers;
use toolkit_commands::Proactive;
use uicc_types::Shelf;

/// Sends a command to the handset, where it is admitted; where it isn't, the applet is told so. Each part of a time value is at
/// most 99.
pub(crate) fn send(at: &Setting, timers: &Timers, command: &Proactive) -> Next
    requires { HasWritableTime command.now }
    ensures { result ≡ if is_admitted (setting_of at.now) timers.now command.now then Sent else Told WasRefused }
{
    if is_admitted(at, timers, command) {
        Next::Sent
    } else {
        Next::Told(Reply::Refused)
    }
}

/// Gives the smallest free timer to the applet of a shelf, which is refused where all eight are held.
pub(crate) fn take_timer(timers: &mut Timers, shelf: Shelf) -> Reply
    ensures told { stimulus_of result ≡ timer_told (smallest_free timers.old) }
    ensures given { timers.new ≡ given_to shelf timers.old (smallest_free timers.old) }
    ensures one_of_eight { GivesTimer (stimulus_of result) }
{
    match timers.take(shelf) {
        Some(timer) => Reply::Timer { timer },
        None => Reply::Refused,
    }
}

/// Makes a timer that the applet of a shelf holds nobody's. The applet is refused where it doesn't hold it.
pub(crate) fn free_timer(timers: &mut Timers, shelf: Shelf, timer: u8) -> Reply
    ensures told { stimulus_of result ≡ if is_held_by timers.old shelf.0 timer then Went else Refused }
    ensures freed { timers.new ≡ if is_held_by timers.old shelf.0 timer then freed timers.old timer else timers.old }
{
    if is_held_by(timers, shelf, timer) {
        timers.free(timer);
        Reply::Went
    } else {
        Reply::Refused
    }
}
