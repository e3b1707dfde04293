//! An event for some applets, and the end of its command.
ghost use Rattle.std.specs.Prelude.{◌≡◌, ◌≢◌, ◌≤◌, ℕ, length, true, All, AllPairs, IfOk};
ghost use Rattle.card_state.specs.Memory.{memory};
ghost use Rattle.card_commits.specs.Entries.{HasRowOn};
ghost use Rattle.applet_trait.specs.Minds.{minds_of};
ghost use Rattle.toolkit_model.specs.Commands.{last_answer};
ghost use Rattle.toolkit_model.specs.Driving.{driven};
ghost use Rattle.toolkit_model.specs.Passing.{in_turn, before};
ghost use Rattle.proactive_handler.specs.Boxes.{IsSameBox, AreForOthers};
ghost use Rattle.proactive_handler.specs.Serving.{HasPlaces, triggered_one};
ghost use Rattle.proactive_handler.specs.Steps.{toolkit, scene, Moves};
ghost use Rattle.proactive_handler.specs.Scenes.{IsInService, KeepsScene};

use applet_trait::Applet;
use card_state::Loaded;
use event_dispatch::{Index, Shelves};
use proactive_handler::{Session, drive_in_place, trigger_in_place};
use store_form::{Store, StoreFault};

/// An event for the applets on these shelves, as by `trigger_in_place`, and then the end of the command, as by `drive_in_place`.
pub(crate) fn tell<S: Store, B: Applet>(
    store: &mut S,
    loaded: &mut Loaded,
    index: &mut Index,
    cast: &mut [Option<B>],
    session: &mut Session,
    to: &Shelves,
    code: u8,
    body: &[u8],
    kept: bool,
) -> Result<Option<bool>, StoreFault>
    requires service { IsInService
        (scene (memory S.Store store.old loaded.old) index.old session.old (minds_of B.mind cast.old)) cast.old }
    requires rows { All (HasRowOn loaded.old) to.now }
    requires apart { AllPairs (λ a b. a ≢ b) to.now }
    requires room { kept ≡ true → HasPlaces session.old to.now }
    requires short { length body.now ≤ 255 }
    ensures moves { Moves (λ state. before (in_turn (triggered_one kept code body.now) to.now state) driven)
        (scene (memory S.Store store.old loaded.old) index.old session.old (minds_of B.mind cast.old))
        (scene (memory S.Store store.new loaded.new) index.new session.new (minds_of B.mind cast.new)) result }
    ensures answer { IfOk result (λ answer. answer ≡ last_answer (in_turn (triggered_one kept code body.now) to.now
        (toolkit (scene (memory S.Store store.old loaded.old) index.old session.old (minds_of B.mind cast.old)))).log) }
    ensures untold { (other : ℕ) → All (λ shelf. shelf ≢ other) to.now
        → AreForOthers other session.old.late → IsSameBox other cast.old cast.new }
    ensures keeps { KeepsScene
        (scene (memory S.Store store.old loaded.old) index.old session.old (minds_of B.mind cast.old))
        (scene (memory S.Store store.new loaded.new) index.new session.new (minds_of B.mind cast.new)) result }
{
    let answer = trigger_in_place(store, loaded, index, cast, session, to, code, body, kept)?;
    drive_in_place(store, loaded, index, cast, session)?;
    Ok(answer)
}
