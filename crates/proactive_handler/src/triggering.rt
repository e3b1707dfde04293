//! An event, for the applets that are registered for it.
ghost use Rattle.std.specs.Prelude.{[], ℕ, ◌≡◌, ◌≢◌, ◌≤◌, ◌<◌, List, ◌∷◌, ◌++◌, length, map, true, All, AllPairs, OnOk};
ghost use Rattle.card_state.specs.Memory.{memory};
ghost use Rattle.card_commits.specs.Entries.{HasRowOn};
ghost use Rattle.applet_trait.specs.Minds.{minds_of};
ghost use Rattle.applet_trait.specs.declared.stimuli.Stimulus.TheVariants.{Event};
ghost use Rattle.toolkit_model.specs.Commands.{late_places};
ghost use Rattle.toolkit_model.specs.Driving.{trigger_for};
ghost use Rattle.toolkit_model.specs.Passing.{in_turn};
ghost use Rattle.proactive_handler.specs.Boxes.{IsSameBox};
ghost use Rattle.proactive_handler.specs.Serving.{HasPlaces, triggered_one};
ghost use Rattle.proactive_handler.specs.Steps.{scene};
ghost use Rattle.proactive_handler.specs.Reached.{Tells};
ghost use Rattle.proactive_handler.specs.Scenes.{IsInService, KeepsScene};

use crate::running::run_one;
use crate::session::Session;
use applet_trait::{Act, Applet, Stimulus};
use card_commits::tables_tell_states;
use card_state::Loaded;
use event_dispatch::{Index, Shelves};
use store_form::{Store, StoreFault};
use uicc_types::{Octets, Shelf};

// Keeps an event for an applet that waits for an answer. It seldom does, so the place for the bytes is made in here alone.
#[inline(never)]
fn keep_late(session: &mut Session, shelf: Shelf, code: u8, body: &[u8])
    requires short { length body.now ≤ 255 }
    requires room { length session.old.late < late_places }
    ensures { session.new ≡ record session.old { late = session.old.late ++ trigger_for code body.now shelf.0 ∷ [] } }
{
    session.keep_late(shelf, code, &Octets::from_slice(body));
}

// Runs the applet of a row on an event, where it is idle. Where it waits for an answer, the event is kept for it, if it is to be.
fn trigger_one<S: Store, B: Applet>(
    store: &mut S,
    loaded: &mut Loaded,
    index: &mut Index,
    cast: &mut [Option<B>],
    session: &mut Session,
    shelf: Shelf,
    code: u8,
    body: &[u8],
    event: &Stimulus,
    kept: bool,
    does: &mut Act,
) -> Result<Option<bool>, StoreFault>
    requires service { IsInService
        (scene (memory S.Store store.old loaded.old) index.old session.old (minds_of B.mind cast.old)) cast.old }
    requires row { HasRowOn loaded.old shelf.0 }
    requires event { event.now ≡ Event code body.now }
    requires short { length body.now ≤ 255 }
    requires room { kept ≡ true → HasPlaces session.old (shelf.0 ∷ []) }
    ensures tells { Tells (triggered_one kept code body.now shelf.0)
        (scene (memory S.Store store.old loaded.old) index.old session.old (minds_of B.mind cast.old))
        (scene (memory S.Store store.new loaded.new) index.new session.new (minds_of B.mind cast.new))
        cast.old cast.new result }
    ensures places { (others : List ℕ) → All (λ other. shelf.0 ≢ other) others
        → OnOk result (HasPlaces session.old (shelf.0 ∷ others) → HasPlaces session.new others) }
    ensures untold { (other : ℕ) → shelf.0 ≢ other → IsSameBox other cast.old cast.new }
    ensures keeps { KeepsScene
        (scene (memory S.Store store.old loaded.old) index.old session.old (minds_of B.mind cast.old))
        (scene (memory S.Store store.new loaded.new) index.new session.new (minds_of B.mind cast.new)) result }
{
    // This call is a law, and does nothing.
    tables_tell_states();
    if session.idle(shelf) {
        return run_one(
            store, loaded, index, cast, session, shelf, event, false, does,
        );
    }
    if kept {
        keep_late(session, shelf, code, body);
    }
    Ok(None)
}

// One applet after the other.
fn trigger_each<S: Store, B: Applet>(
    store: &mut S,
    loaded: &mut Loaded,
    index: &mut Index,
    cast: &mut [Option<B>],
    session: &mut Session,
    to: &[Shelf],
    code: u8,
    body: &[u8],
    event: &Stimulus,
    kept: bool,
    does: &mut Act,
) -> Result<Option<bool>, StoreFault>
    requires service { IsInService
        (scene (memory S.Store store.old loaded.old) index.old session.old (minds_of B.mind cast.old)) cast.old }
    requires rows { All (λ shelf. HasRowOn loaded.old shelf.0) to.now }
    requires apart { AllPairs (λ a b. a.0 ≢ b.0) to.now }
    requires event { event.now ≡ Event code body.now }
    requires short { length body.now ≤ 255 }
    requires room { kept ≡ true → HasPlaces session.old (map (λ shelf. shelf.0) to.now) }
    ensures tells { Tells (in_turn (triggered_one kept code body.now) (map (λ shelf. shelf.0) to.now))
        (scene (memory S.Store store.old loaded.old) index.old session.old (minds_of B.mind cast.old))
        (scene (memory S.Store store.new loaded.new) index.new session.new (minds_of B.mind cast.new))
        cast.old cast.new result }
    ensures untold { (other : ℕ) → All (λ shelf. shelf.0 ≢ other) to.now → IsSameBox other cast.old cast.new }
    ensures keeps { KeepsScene
        (scene (memory S.Store store.old loaded.old) index.old session.old (minds_of B.mind cast.old))
        (scene (memory S.Store store.new loaded.new) index.new session.new (minds_of B.mind cast.new)) result }
{
    // This call is a law, and does nothing.
    tables_tell_states();
    match to.split_first() {
        Some((shelf, others)) => {
            let answer = trigger_one(
                store, loaded, index, cast, session, *shelf, code, body, event, kept, does,
            )?;
            let later = trigger_each(
                store, loaded, index, cast, session, others, code, body, event, kept, does,
            )?;
            Ok(later.or(answer))
        }
        None => Ok(None),
    }
}

/// `Session::trigger`, over boxes in a slice and bytes that stay where they are.
pub fn trigger_in_place<S: Store, B: Applet>(
    store: &mut S,
    loaded: &mut Loaded,
    index: &mut Index,
    cast: &mut [Option<B>],
    session: &mut Session,
    to: &Shelves,
    code: u8,
    body: &[u8],
    kept: bool,
) -> Result<Option<bool>, StoreFault>
    requires service { IsInService
        (scene (memory S.Store store.old loaded.old) index.old session.old (minds_of B.mind cast.old)) cast.old }
    requires rows { All (HasRowOn loaded.old) to.now }
    requires apart { AllPairs (λ a b. a ≢ b) to.now }
    requires room { kept ≡ true → HasPlaces session.old to.now }
    requires short { length body.now ≤ 255 }
    ensures tells { Tells (in_turn (triggered_one kept code body.now) to.now)
        (scene (memory S.Store store.old loaded.old) index.old session.old (minds_of B.mind cast.old))
        (scene (memory S.Store store.new loaded.new) index.new session.new (minds_of B.mind cast.new))
        cast.old cast.new result }
    ensures untold { (other : ℕ) → All (λ shelf. shelf ≢ other) to.now → IsSameBox other cast.old cast.new }
    ensures keeps { KeepsScene
        (scene (memory S.Store store.old loaded.old) index.old session.old (minds_of B.mind cast.old))
        (scene (memory S.Store store.new loaded.new) index.new session.new (minds_of B.mind cast.new)) result }
{
    let event = Stimulus::Event {
        code,
        body: Octets::from_slice(body),
    };
    let mut does = Act::Done;
    trigger_each(
        store,
        loaded,
        index,
        cast,
        session,
        to.as_slice(),
        code,
        body,
        &event,
        kept,
        &mut does,
    )
}

impl Session {
    /// An event for the applets on these shelves, one after the other: each runs on it that is idle. Where the event is one that
    /// an envelope brought, it is kept for those that wait for an answer, and otherwise these are not told of it. Answers the last
    /// answer to call control that they gave, none where they gave none. The boxes on all other shelves are left as they are, also
    /// where a commit meets a fault; then those of applets too that took no turn before it, as those after the one that met it.
    ///
    /// The shelves are different ones, with rows; there is room among the late triggers for each that is kept.
    ///
    /// Where a commit meets a fault, the table has the rows before that commit, and the memory these or those after it; of the index,
    /// the session and the minds of the applets that took a turn nothing is said then. Applets without a row stay as they are.
    pub fn trigger<S: Store, B: Applet>(
        &mut self,
        store: &mut S,
        loaded: &mut Loaded,
        index: &mut Index,
        cast: &mut Vec<Option<B>>,
        to: &Shelves,
        code: u8,
        body: &Octets,
        kept: bool,
    ) -> Result<Option<bool>, StoreFault>
        requires service { IsInService
            (scene (memory S.Store store.old loaded.old) index.old self.old (minds_of B.mind cast.old.items)) cast.old.items }
        requires rows { All (HasRowOn loaded.old) to.now }
        requires apart { AllPairs (λ a b. a ≢ b) to.now }
        requires room { kept ≡ true → HasPlaces self.old to.now }
        ensures tells { Tells (in_turn (triggered_one kept code body.now) to.now)
            (scene (memory S.Store store.old loaded.old) index.old self.old (minds_of B.mind cast.old.items))
            (scene (memory S.Store store.new loaded.new) index.new self.new (minds_of B.mind cast.new.items))
            cast.old.items cast.new.items result }
        ensures untold { (other : ℕ) → All (λ shelf. shelf ≢ other) to.now → IsSameBox other cast.old.items cast.new.items }
        ensures keeps { KeepsScene
            (scene (memory S.Store store.old loaded.old) index.old self.old (minds_of B.mind cast.old.items))
            (scene (memory S.Store store.new loaded.new) index.new self.new (minds_of B.mind cast.new.items)) result }
        ensures ready { OnOk result (IsInService
            (scene (memory S.Store store.new loaded.new) index.new self.new (minds_of B.mind cast.new.items)) cast.new.items) }
    {
        trigger_in_place(
            store,
            loaded,
            index,
            cast,
            self,
            to,
            code,
            body.as_slice(),
            kept,
        )
    }
}
