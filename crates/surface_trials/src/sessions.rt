//! The toolkit's session.
ghost use Rattle.std.specs.Prelude.{◌≡◌, ◌≢◌, All, AllPairs, OnOk, true, is_some};
ghost use Rattle.card_state.specs.Memory.{memory};
ghost use Rattle.card_commits.specs.Entries.{HasRowOn};
ghost use Rattle.applet_trait.specs.Minds.{minds_of};
ghost use Rattle.toolkit_model.specs.Commands.{unanswered};
ghost use Rattle.proactive_handler.specs.Scenes.{IsInService};
ghost use Rattle.proactive_handler.specs.Serving.{HasPlaces};
ghost use Rattle.proactive_handler.specs.Steps.{scene};

use applet_trait::Applet;
use card_layout::Loaded;
use event_dispatch::{Index, Shelves};
use frame_store::FrameStore;
use proactive_handler::Session;
use std::test::Fail;
use store_form::{Store, StoreFault};
use toolkit_commands::{Details, Response};
use uicc_types::{Answer, Octets, Shelf};

#[test]
fn a_session_is_asked(rt: HostRuntime) -> Result<(), Fail> {
    let late = FrameStore::new(rt.alloc(), 16, 4112)?;
    let waiting = FrameStore::new(rt.alloc(), 32, 8192)?;
    let mut session = Session::new(late, waiting);
    session.set_profile(&[0xFF]);
    session.reported(4);
    session.released(Shelf(0));
    session.clear();
    let places: usize = session.late_free();
    let owner: Option<Shelf> = session.owner(1);
    let length: Option<u8> = session.unfetched();
    let fetched: Option<Details> = session.fetched();
    assert!(rt; session.idle(Shelf(0)) && places == 16 && owner.is_none());
    assert!(rt; length.is_none() && fetched.is_none());
    Ok(())
}

// What a session that runs applets requires holds in an open card, and can't be had from the calls below it alone: a registered
// applet, a mounted memory and an index that stands for its rows. So it is required here too, and no test calls these.

/// Triggers the applets on these shelves.
fn triggered<S: Store>(
    session: &mut Session,
    store: &mut S,
    loaded: &mut Loaded,
    index: &mut Index,
    cast: &mut Vec<Option<Box<dyn Applet>>>,
    to: &Shelves,
    body: &Octets,
    kept: bool,
) -> Result<Option<bool>, StoreFault>
    requires service { IsInService (scene (memory S.Store store.old loaded.old) index.old session.old
        (minds_of ⟦<Box<dyn Applet> as Applet>⟧.mind cast.old.items)) cast.old.items }
    requires rows { All (HasRowOn loaded.old) to.now }
    requires apart { AllPairs (λ a b. a ≢ b) to.now }
    requires room { kept ≡ true → HasPlaces session.old to.now }
    ensures ready { OnOk result (IsInService (scene (memory S.Store store.new loaded.new) index.new session.new
        (minds_of ⟦<Box<dyn Applet> as Applet>⟧.mind cast.new.items)) cast.new.items) }
{
    session.trigger(store, loaded, index, cast, to, 0x40, body, kept)
}

/// Takes the response to the command that was fetched, ends it, and fetches the next one.
fn answered<S: Store>(
    session: &mut Session,
    store: &mut S,
    loaded: &mut Loaded,
    index: &mut Index,
    cast: &mut Vec<Option<Box<dyn Applet>>>,
    response: &Response,
    out: &mut Answer,
) -> Result<(), StoreFault>
    requires service { IsInService (scene (memory S.Store store.old loaded.old) index.old session.old
        (minds_of ⟦<Box<dyn Applet> as Applet>⟧.mind cast.old.items)) cast.old.items }
    requires fetched { is_some (unanswered session.old) ≡ true }
{
    session.respond(store, loaded, index, cast, response)?;
    session.drive(store, loaded, index, cast)?;
    if session.unfetched().is_some() {
        session.fetch(out);
    }
    Ok(())
}
