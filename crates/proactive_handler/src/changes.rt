//! The acts that change what the memory has of a row: each is one commit, if anything changes.
ghost use Rattle.std.specs.Prelude.{ℕ, ◌≡◌, true, List, OnOk, OnErr, Ok};
ghost use Rattle.card_state.specs.States.{rows_of};
ghost use Rattle.card_state.specs.Memory.{IsMounted, Keeps, memory};
ghost use Rattle.card_commits.specs.Entries.{HasRowOn};
ghost use Rattle.timer_table.specs.Timers.{Owners};
ghost use Rattle.applet_trait.specs.declared.stimuli.Act.TheVariants.{Keep, Register, Deregister};
ghost use Rattle.applet_trait.specs.Minds.{AppletState};
ghost use Rattle.toolkit_model.specs.Registry.{registers, deregisters};
ghost use Rattle.toolkit_model.specs.Running.{Setting};
ghost use Rattle.event_dispatch.specs.Indexes.{StandsFor};
ghost use Rattle.proactive_handler.specs.Acts.{Carries, stage};
ghost use Rattle.proactive_handler.specs.Runs.{MayRun};

use crate::endings::{Next, Reply};
use applet_trait::numbers::MOST_KEPT;
use card_commits::tables_tell_states;
use card_state::{Loaded, states_are_of_entries};
use event_dispatch::Index;
use store_form::{Store, StoreFault};
use uicc_types::Shelf;

/// Keeps these bytes for the row of a shelf, which is one commit, also where they are those that it kept. More than 32 are
/// refused.
pub(crate) fn keep<S: Store>(
    store: &mut S,
    loaded: &mut Loaded,
    shelf: Shelf,
    bytes: &[u8],
) -> Result<Next, StoreFault>
    requires mounted { IsMounted (memory S.Store store.old loaded.old) }
    requires row { HasRowOn loaded.old shelf.0 }
    ensures carries { (at : Setting) (timers : Owners) (mind : AppletState) → at.shelf ≡ shelf.0
        → Carries at (Keep bytes.now) (stage (memory S.Store store.old loaded.old) timers mind)
        (stage (memory S.Store store.new loaded.new) timers mind) result }
    ensures rows_stay { (other : ℕ) → HasRowOn loaded.old other → HasRowOn loaded.new other }
    ensures indexed { OnOk result ((lists : List (List ℕ))
        → StandsFor lists (rows_of loaded.old) → StandsFor lists (rows_of loaded.new)) }
    ensures table { loaded.new ≡ record loaded.old { rows = loaded.new.rows } }
    ensures same { OnErr result (loaded.new ≡ loaded.old) }
    ensures keeps { Keeps (memory S.Store store.old loaded.old) (memory S.Store store.new loaded.new) result }
{
    // This call is a law, and does nothing.
    tables_tell_states();
    if bytes.len() > MOST_KEPT {
        return Ok(Next::Told(Reply::Refused));
    }
    card_commits::keep_bytes(store, loaded, shelf, bytes)?;
    Ok(Next::Told(Reply::Went))
}

// Commits that the row of a shelf is registered for an event that it isn't registered for.
fn commit_registration<S: Store>(
    store: &mut S,
    loaded: &mut Loaded,
    index: &mut Index,
    shelf: Shelf,
    code: u8,
) -> Result<Next, StoreFault>
    requires may_run { MayRun (memory S.Store store.old loaded.old) index.old shelf.0 }
    requires changes { registers (rows_of loaded.old) shelf.0 code ≡ Ok true }
    ensures carries { (at : Setting) (timers : Owners) (mind : AppletState) → at.shelf ≡ shelf.0
        → Carries at (Register code) (stage (memory S.Store store.old loaded.old) timers mind)
        (stage (memory S.Store store.new loaded.new) timers mind) result }
    ensures rows_stay { (other : ℕ) → HasRowOn loaded.old other → HasRowOn loaded.new other }
    ensures indexed { OnOk result (StandsFor index.new (rows_of loaded.new)) }
    ensures table { loaded.new ≡ record loaded.old { rows = loaded.new.rows } }
    ensures same { OnErr result (loaded.new ≡ loaded.old) }
    ensures keeps { Keeps (memory S.Store store.old loaded.old) (memory S.Store store.new loaded.new) result }
{
    // These calls are laws, and do nothing.
    tables_tell_states();
    states_are_of_entries();
    card_commits::register(store, loaded, shelf, code)?;
    index.added(loaded, shelf, code);
    Ok(Next::Told(Reply::Went))
}

/// Registers the row of a shelf for the event of this code, which is one commit where it isn't registered yet. A code of no such
/// event is refused, and so is that of call control where another row answers it.
pub(crate) fn register<S: Store>(
    store: &mut S,
    loaded: &mut Loaded,
    index: &mut Index,
    shelf: Shelf,
    code: u8,
) -> Result<Next, StoreFault>
    requires may_run { MayRun (memory S.Store store.old loaded.old) index.old shelf.0 }
    ensures carries { (at : Setting) (timers : Owners) (mind : AppletState) → at.shelf ≡ shelf.0
        → Carries at (Register code) (stage (memory S.Store store.old loaded.old) timers mind)
        (stage (memory S.Store store.new loaded.new) timers mind) result }
    ensures rows_stay { (other : ℕ) → HasRowOn loaded.old other → HasRowOn loaded.new other }
    ensures indexed { OnOk result (StandsFor index.new (rows_of loaded.new)) }
    ensures table { loaded.new ≡ record loaded.old { rows = loaded.new.rows } }
    ensures same { OnErr result (loaded.new ≡ loaded.old) }
    ensures keeps { Keeps (memory S.Store store.old loaded.old) (memory S.Store store.new loaded.new) result }
{
    // These calls are laws, and do nothing.
    tables_tell_states();
    states_are_of_entries();
    match applet_registry::register(loaded, shelf, code) {
        Ok(is_new) => {
            if is_new {
                commit_registration(store, loaded, index, shelf, code)
            } else {
                Ok(Next::Told(Reply::Went))
            }
        }
        Err(_) => Ok(Next::Told(Reply::Refused)),
    }
}

// Commits that the row of a shelf is no longer registered for an event that it is registered for.
fn commit_deregistration<S: Store>(
    store: &mut S,
    loaded: &mut Loaded,
    index: &mut Index,
    shelf: Shelf,
    code: u8,
) -> Result<Next, StoreFault>
    requires may_run { MayRun (memory S.Store store.old loaded.old) index.old shelf.0 }
    requires changes { deregisters (rows_of loaded.old) shelf.0 code ≡ Ok true }
    ensures carries { (at : Setting) (timers : Owners) (mind : AppletState) → at.shelf ≡ shelf.0
        → Carries at (Deregister code) (stage (memory S.Store store.old loaded.old) timers mind)
        (stage (memory S.Store store.new loaded.new) timers mind) result }
    ensures rows_stay { (other : ℕ) → HasRowOn loaded.old other → HasRowOn loaded.new other }
    ensures indexed { OnOk result (StandsFor index.new (rows_of loaded.new)) }
    ensures table { loaded.new ≡ record loaded.old { rows = loaded.new.rows } }
    ensures same { OnErr result (loaded.new ≡ loaded.old) }
    ensures keeps { Keeps (memory S.Store store.old loaded.old) (memory S.Store store.new loaded.new) result }
{
    // These calls are laws, and do nothing.
    tables_tell_states();
    states_are_of_entries();
    card_commits::deregister(store, loaded, shelf, code)?;
    index.removed(shelf, code);
    Ok(Next::Told(Reply::Went))
}

/// Registers the row of a shelf for the event of this code no longer, which is one commit where it is registered for it. A code
/// of no such event is refused.
pub(crate) fn deregister<S: Store>(
    store: &mut S,
    loaded: &mut Loaded,
    index: &mut Index,
    shelf: Shelf,
    code: u8,
) -> Result<Next, StoreFault>
    requires may_run { MayRun (memory S.Store store.old loaded.old) index.old shelf.0 }
    ensures carries { (at : Setting) (timers : Owners) (mind : AppletState) → at.shelf ≡ shelf.0
        → Carries at (Deregister code) (stage (memory S.Store store.old loaded.old) timers mind)
        (stage (memory S.Store store.new loaded.new) timers mind) result }
    ensures rows_stay { (other : ℕ) → HasRowOn loaded.old other → HasRowOn loaded.new other }
    ensures indexed { OnOk result (StandsFor index.new (rows_of loaded.new)) }
    ensures table { loaded.new ≡ record loaded.old { rows = loaded.new.rows } }
    ensures same { OnErr result (loaded.new ≡ loaded.old) }
    ensures keeps { Keeps (memory S.Store store.old loaded.old) (memory S.Store store.new loaded.new) result }
{
    // These calls are laws, and do nothing.
    tables_tell_states();
    states_are_of_entries();
    match applet_registry::deregister(loaded, shelf, code) {
        Ok(is_there) => {
            if is_there {
                commit_deregistration(store, loaded, index, shelf, code)
            } else {
                Ok(Next::Told(Reply::Went))
            }
        }
        Err(_) => Ok(Next::Told(Reply::Refused)),
    }
}
