//! What ends a command that moved the toolkit: what came late is caught up with, and a command becomes outstanding.
ghost use Rattle.std.specs.Prelude.{ℕ, OnOk};
ghost use Rattle.card_state.specs.Memory.{memory};
ghost use Rattle.applet_trait.specs.Minds.{minds_of};
ghost use Rattle.toolkit_model.specs.Driving.{caught_up, driven};
ghost use Rattle.proactive_handler.specs.Boxes.{IsSameBox, AreForOthers};
ghost use Rattle.proactive_handler.specs.Steps.{scene, Moves};
ghost use Rattle.proactive_handler.specs.Reached.{TurnsOnly};
ghost use Rattle.proactive_handler.specs.Scenes.{IsInService, KeepsScene};

use crate::running::run_alone;
use crate::session::Session;
use applet_trait::{Applet, Stimulus};
use card_commits::tables_tell_states;
use card_state::Loaded;
use event_dispatch::{Index, KeptTrigger, Late};
use store_form::{Store, StoreFault};

// So many late triggers at most, the first whose applet is idle each time.
fn catch_each<S: Store, B: Applet>(
    store: &mut S,
    loaded: &mut Loaded,
    index: &mut Index,
    cast: &mut [Option<B>],
    session: &mut Session,
    count: usize,
) -> Result<(), StoreFault>
    requires service { IsInService
        (scene (memory S.Store store.old loaded.old) index.old session.old (minds_of B.mind cast.old)) cast.old }
    ensures moves { Moves (caught_up count)
        (scene (memory S.Store store.old loaded.old) index.old session.old (minds_of B.mind cast.old))
        (scene (memory S.Store store.new loaded.new) index.new session.new (minds_of B.mind cast.new)) result }
    ensures turns { TurnsOnly (caught_up count)
        (scene (memory S.Store store.old loaded.old) index.old session.old (minds_of B.mind cast.old))
        (scene (memory S.Store store.new loaded.new) index.new session.new (minds_of B.mind cast.new))
        cast.old cast.new result }
    ensures untold { (other : ℕ) → AreForOthers other session.old.late → IsSameBox other cast.old cast.new }
    ensures keeps { KeepsScene
        (scene (memory S.Store store.old loaded.old) index.old session.old (minds_of B.mind cast.old))
        (scene (memory S.Store store.new loaded.new) index.new session.new (minds_of B.mind cast.new)) result }
{
    // This call is a law, and does nothing.
    tables_tell_states();
    if count == 0 {
        return Ok(());
    }
    match session.take_late() {
        Some(trigger) => {
            let KeptTrigger { shelf, code, body } = trigger;
            let event = Stimulus::Event { code, body };
            run_alone(store, loaded, index, cast, session, shelf, &event, false)?;
            catch_each(store, loaded, index, cast, session, count - 1)
        }
        None => Ok(()),
    }
}

// The same. Mostly there is none, so that is tested before the places for one are made.
fn catch_up<S: Store, B: Applet>(
    store: &mut S,
    loaded: &mut Loaded,
    index: &mut Index,
    cast: &mut [Option<B>],
    session: &mut Session,
    count: usize,
) -> Result<(), StoreFault>
    requires service { IsInService
        (scene (memory S.Store store.old loaded.old) index.old session.old (minds_of B.mind cast.old)) cast.old }
    ensures moves { Moves (caught_up count)
        (scene (memory S.Store store.old loaded.old) index.old session.old (minds_of B.mind cast.old))
        (scene (memory S.Store store.new loaded.new) index.new session.new (minds_of B.mind cast.new)) result }
    ensures turns { TurnsOnly (caught_up count)
        (scene (memory S.Store store.old loaded.old) index.old session.old (minds_of B.mind cast.old))
        (scene (memory S.Store store.new loaded.new) index.new session.new (minds_of B.mind cast.new))
        cast.old cast.new result }
    ensures untold { (other : ℕ) → AreForOthers other session.old.late → IsSameBox other cast.old cast.new }
    ensures keeps { KeepsScene
        (scene (memory S.Store store.old loaded.old) index.old session.old (minds_of B.mind cast.old))
        (scene (memory S.Store store.new loaded.new) index.new session.new (minds_of B.mind cast.new)) result }
{
    // This call is a law, and does nothing.
    tables_tell_states();
    if count == 0 {
        return Ok(());
    }
    catch_each(store, loaded, index, cast, session, count)
}

/// `Session::drive`, over boxes in a slice.
pub fn drive_in_place<S: Store, B: Applet>(
    store: &mut S,
    loaded: &mut Loaded,
    index: &mut Index,
    cast: &mut [Option<B>],
    session: &mut Session,
) -> Result<(), StoreFault>
    requires service { IsInService
        (scene (memory S.Store store.old loaded.old) index.old session.old (minds_of B.mind cast.old)) cast.old }
    ensures moves { Moves driven
        (scene (memory S.Store store.old loaded.old) index.old session.old (minds_of B.mind cast.old))
        (scene (memory S.Store store.new loaded.new) index.new session.new (minds_of B.mind cast.new)) result }
    ensures turns { TurnsOnly driven
        (scene (memory S.Store store.old loaded.old) index.old session.old (minds_of B.mind cast.old))
        (scene (memory S.Store store.new loaded.new) index.new session.new (minds_of B.mind cast.new))
        cast.old cast.new result }
    ensures untold { (other : ℕ) → AreForOthers other session.old.late → IsSameBox other cast.old cast.new }
    ensures keeps { KeepsScene
        (scene (memory S.Store store.old loaded.old) index.old session.old (minds_of B.mind cast.old))
        (scene (memory S.Store store.new loaded.new) index.new session.new (minds_of B.mind cast.new)) result }
{
    let late = Late::MOST - session.late_free();
    catch_up(store, loaded, index, cast, session, late)?;
    // This call is a law, and does nothing.
    tables_tell_states();
    session.settle(loaded, index);
    Ok(())
}

impl Session {
    /// Ends a command that moved the toolkit. Applets that wait for no answer any more catch up with the events that came late for
    /// them, in the order in which these came. Then, where nothing is outstanding, the command that the card itself has to send
    /// becomes so, or else the first that waits. The boxes of applets for which nothing came late are left as they are, also where a
    /// commit meets a fault.
    ///
    /// Where a commit meets a fault, the table has the rows before that commit, and the memory these or those after it; of the index,
    /// the session and the minds of the applets that took a turn before it nothing is said then. The other boxes are as they were.
    pub fn drive<S: Store, B: Applet>(
        &mut self,
        store: &mut S,
        loaded: &mut Loaded,
        index: &mut Index,
        cast: &mut Vec<Option<B>>,
    ) -> Result<(), StoreFault>
        requires service { IsInService
            (scene (memory S.Store store.old loaded.old) index.old self.old (minds_of B.mind cast.old.items)) cast.old.items }
        ensures moves { Moves driven
            (scene (memory S.Store store.old loaded.old) index.old self.old (minds_of B.mind cast.old.items))
            (scene (memory S.Store store.new loaded.new) index.new self.new (minds_of B.mind cast.new.items)) result }
        ensures turns { TurnsOnly driven
            (scene (memory S.Store store.old loaded.old) index.old self.old (minds_of B.mind cast.old.items))
            (scene (memory S.Store store.new loaded.new) index.new self.new (minds_of B.mind cast.new.items))
            cast.old.items cast.new.items result }
        ensures untold { (other : ℕ) → AreForOthers other self.old.late → IsSameBox other cast.old.items cast.new.items }
        ensures keeps { KeepsScene
            (scene (memory S.Store store.old loaded.old) index.old self.old (minds_of B.mind cast.old.items))
            (scene (memory S.Store store.new loaded.new) index.new self.new (minds_of B.mind cast.new.items)) result }
        ensures ready { OnOk result (IsInService
            (scene (memory S.Store store.new loaded.new) index.new self.new (minds_of B.mind cast.new.items)) cast.new.items) }
    {
        drive_in_place(store, loaded, index, cast, self)
    }
}
