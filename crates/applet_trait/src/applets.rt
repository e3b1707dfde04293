//! What is asked of an applet.
ghost use Rattle.std.specs.Prelude.{◌≡◌, ◌≤◌};
ghost use Rattle.card_state.specs.declared.sizes.TheConstants.{LAST_KIND};
ghost use Rattle.applet_trait.specs.Minds.{AppletState, fresh};
ghost use Rattle.applet_trait.specs.Turns.{act};
ghost use Rattle.applet_trait.specs.Laws.{IsWritableAct, GivesTimer, IsProperAct};

use crate::stimuli::{Act, Stimulus};
use uicc_types::Kept;

/// An applet of one of the card's kinds. Its meaning is its mind, which is fresh after it woke and moves by the table of
/// its kind.
pub trait Applet: Drop {
    /// The kind, the phase, the held byte, the event code, the kept bytes, and the bytes that it asked to be kept.
    ghost mind: { Self → AppletState };

    /// The kind, from 1 to `LAST_KIND`. It never changes.
    fn kind(&self) -> u8
        ensures value { result ≡ (mind self.now).kind }
        ensures from_1 { 1 ≤ result }
        ensures up_to_last { result ≤ LAST_KIND };

    /// Begins anew with what the card keeps for it.
    fn wake(&mut self, kept: &Kept)
        ensures { mind self.new ≡ fresh (mind self.old).kind kept.now };

    /// Takes a stimulus and answers what it does.
    fn step(&mut self, stimulus: &Stimulus) -> Act
        ensures moved { mind self.new ≡ (act (mind self.old) stimulus.now).next }
        ensures acted { result ≡ (act (mind self.old) stimulus.now).does }
        ensures same_kind { (mind self.new).kind ≡ (mind self.old).kind }

        // A command that is sent can be spelled, if it is short enough.
        ensures writable { IsWritableAct result }

        // A command that is sent is read back as it was, if it is short enough and a timer that was given is one of the
        // eight.
        ensures proper { GivesTimer stimulus.now → IsProperAct result };

    /// The same, with what it does in place of the act that was there. The card calls this one, so an applet that makes its acts in that
    /// place spares a copy of each.
    fn step_into(&mut self, stimulus: &Stimulus, does: &mut Act)
        ensures moved { mind self.new ≡ (act (mind self.old) stimulus.now).next }
        ensures acted { does.new ≡ (act (mind self.old) stimulus.now).does }
        ensures same_kind { (mind self.new).kind ≡ (mind self.old).kind }
        ensures writable { IsWritableAct does.new }
        ensures proper { GivesTimer stimulus.now → IsProperAct does.new }
    {
        *does = self.step(stimulus);
    }
}
