//! An applet in a box, as the card has them, and the boxes on the shelves.
ghost use Rattle.std.specs.Prelude.{◌≡◌, ◌≤◌, IfSome};
ghost use Rattle.card_state.specs.AppletKinds.{IsAppletKind};
ghost use Rattle.applet_trait.specs.Minds.{kind_on, minds_of};

use crate::applets::Applet;
use crate::stimuli::{Act, Stimulus};
use uicc_types::Kept;

impl Applet for Box<dyn Applet> {
    ghost mind = { λ boxed. (Applet-box boxed).mind boxed.value };

    fn kind(&self) -> u8 {
        (**self).kind()
    }

    fn wake(&mut self, kept: &Kept) {
        (**self).wake(kept)
    }

    fn step(&mut self, stimulus: &Stimulus) -> Act {
        (**self).step(stimulus)
    }

    fn step_into(&mut self, stimulus: &Stimulus, does: &mut Act) {
        (**self).step_into(stimulus, does)
    }
}

/// The kind of the applet in the box on a shelf, or none where there is no box.
pub fn kind_on<B: Applet>(cast: &[Option<B>], shelf: u8) -> Option<u8>
    ensures value { result ≡ kind_on (minds_of B.mind cast.now) shelf }
    ensures known { IfSome result IsAppletKind }
{
    match cast.get(usize::from(shelf)) {
        Some(Some(applet)) => Some(applet.kind()),
        _ => None,
    }
}
