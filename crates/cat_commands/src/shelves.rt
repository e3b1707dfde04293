//! The box on a shelf.
ghost use Rattle.std.specs.Prelude.{◌≡◌, ◌≢◌, ◌<◌, ℕ, length, None, option_map};
ghost use Rattle.applet_trait.specs.Minds.{fresh, minds_of};
ghost use Rattle.toolkit_model.specs.Running.{mind_on, with_mind};
ghost use Rattle.proactive_handler.specs.Boxes.{IsSameBox};

use applet_trait::Applet;
use uicc_types::{Kept, Shelf};

// The applet in a box begins anew with these bytes.
fn wake_in<B: Applet>(place: &mut Option<B>, kept: &Kept)
    ensures { option_map B.mind place.new
        ≡ option_map (λ mind. fresh mind.kind kept.now) (option_map B.mind place.old) }
{
    match place {
        Some(applet) => applet.wake(kept),
        None => {}
    }
}

/// The applet in the box on a shelf, if there is one, begins anew with these bytes.
pub(crate) fn wake<B: Applet>(cast: &mut [Option<B>], shelf: Shelf, kept: &Kept)
    requires { shelf.0 < length cast.old }
    ensures minds { minds_of B.mind cast.new ≡ with_mind (minds_of B.mind cast.old) shelf.0
        (option_map (λ mind. fresh mind.kind kept.now) (mind_on (minds_of B.mind cast.old) shelf.0)) }
    ensures long { length cast.new ≡ length cast.old }
    ensures others { (other : ℕ) → other ≢ shelf.0 → IsSameBox other cast.old cast.new }
{
    wake_in(&mut cast[usize::from(shelf.0)], kept);
}

/// The box on a shelf is taken out.
pub(crate) fn take_out<B: Applet>(cast: &mut [Option<B>], shelf: Shelf) -> Option<B>
    requires { shelf.0 < length cast.old }
    ensures taken { option_map B.mind result ≡ mind_on (minds_of B.mind cast.old) shelf.0 }
    ensures minds { minds_of B.mind cast.new ≡ with_mind (minds_of B.mind cast.old) shelf.0 None }
    ensures long { length cast.new ≡ length cast.old }
    ensures others { (other : ℕ) → other ≢ shelf.0 → IsSameBox other cast.old cast.new }
{
    cast[usize::from(shelf.0)].take()
}

/// What was taken out is put back on its shelf.
pub(crate) fn put_back<B: Applet>(cast: &mut [Option<B>], shelf: Shelf, applet: Option<B>)
    requires { shelf.0 < length cast.old }
    ensures minds { minds_of B.mind cast.new
        ≡ with_mind (minds_of B.mind cast.old) shelf.0 (option_map B.mind applet) }
    ensures long { length cast.new ≡ length cast.old }
    ensures others { (other : ℕ) → other ≢ shelf.0 → IsSameBox other cast.old cast.new }
{
    cast[usize::from(shelf.0)] = applet;
}
