//! DELETE, which this card has of its own.
ghost use Rattle.std.specs.Prelude.{◌≡◌, ◌≢◌, ◌⊎◌, ◌==◌, ◌&&◌, ℕ, OnOk, IfErr};
ghost use Rattle.card_state.specs.States.{rows_of};
ghost use Rattle.card_state.specs.Memory.{memory};
ghost use Rattle.applet_trait.specs.Minds.{minds_of};
ghost use Rattle.toolkit_model.specs.Commands.{unregistering, delete_carried};
ghost use Rattle.toolkit_model.specs.Driving.{is_idle};
ghost use Rattle.toolkit_model.specs.Orderly.{asks};
ghost use Rattle.proactive_handler.specs.Boxes.{kinds_of, IsSameBox, AreForOthers};
ghost use Rattle.proactive_handler.specs.Steps.{scene, Moves};
ghost use Rattle.card_model.specs.Toolkit.{has_shelf, applet_deleted};
ghost use Rattle.cat_commands.specs.Trying.{delete_tried, allowed};
ghost use Rattle.cat_commands.specs.Bounds.{IsBetweenCommands, EndsToolkitWell};
ghost use Rattle.cat_commands.specs.Deleting.{KeepsBesides, MayGo, TakesBox, HasLost};
ghost use Rattle.cat_commands.specs.Carrying.{CarriesOut};

use crate::forms::status_of;
use crate::shelves::{put_back, take_out};
use access_rules::Verified;
use apdu_form::Command;
use applet_trait::Applet;
use card_commits::{remove_row, tables_tell_states};
use card_state::sizes::ROW_COUNT;
use card_state::{Loaded, states_are_of_entries};
use event_dispatch::Index;
use proactive_handler::{Session, drive_in_place, sessions_are_served};
use store_form::{Store, StoreFault};
use toolkit_model::sessions_stay_in_order;
use uicc_types::{Answer, Shelf, StatusWord};

// P1 is 00, and P2 a shelf.
fn names_shelf(command: &Command<'_>) -> bool
    ensures { result ≡ (command.now.p1 == 0x00 && has_shelf command.now) }
{
    command.p1 == 0 && usize::from(command.p2) < ROW_COUNT
}

// Whether the row may go.
#[tactic(auto, unfolding(crate::specs::Trying::delete_tried, file_model::specs::Chains::refused_if))]
fn try_delete(
    loaded: &Loaded,
    session: &Session,
    seen: &Verified,
    command: &Command<'_>,
) -> Result<(), StatusWord>
    ensures value { result ≡ allowed (delete_tried (rows_of loaded.now)
        (is_idle (asks session.now) command.now.p2) seen.now command.now) }
    ensures usual { IfErr result (λ status. status.0 ≢ StatusWord.MEMORY_PROBLEM.0) }
{
    if !names_shelf(command) {
        return Err(StatusWord::WRONG_PARAMETERS);
    }
    if !command.body.is_empty() {
        return Err(StatusWord::WRONG_LENGTH);
    }
    if !seen.adm1 {
        return Err(StatusWord::SECURITY_NOT_SATISFIED);
    }
    let shelf = Shelf(command.p2);
    match applet_registry::delete(loaded, shelf, session.idle(shelf)) {
        Ok(()) => Ok(()),
        Err(fault) => Err(status_of(fault)),
    }
}

// Commits that there is no such row, takes it out of the index, frees its timers, and then takes out its box.
fn unregister<S: Store, B: Applet>(
    store: &mut S,
    loaded: &mut Loaded,
    index: &mut Index,
    cast: &mut [Option<B>],
    session: &mut Session,
    shelf: Shelf,
) -> Result<Option<B>, StoreFault>
    requires rests { IsBetweenCommands
        (scene (memory S.Store store.old loaded.old) index.old session.old (minds_of B.mind cast.old)) cast.old }
    requires may_go { MayGo
        (scene (memory S.Store store.old loaded.old) index.old session.old (minds_of B.mind cast.old)) shelf.0 }
    ensures moves { Moves (unregistering shelf.0)
        (scene (memory S.Store store.old loaded.old) index.old session.old (minds_of B.mind cast.old))
        (scene (memory S.Store store.new loaded.new) index.new session.new (minds_of B.mind cast.new)) result }
    ensures taken { TakesBox B.mind shelf.0 cast.old cast.new result }
    ensures late { OnOk result (session.new.late ≡ session.old.late) }
    ensures keeps { KeepsBesides shelf.0
        (scene (memory S.Store store.old loaded.old) index.old session.old (minds_of B.mind cast.old))
        (scene (memory S.Store store.new loaded.new) index.new session.new (minds_of B.mind cast.new)) result }
{
    // These calls are laws, and do nothing.
    tables_tell_states();
    sessions_are_served();
    remove_row(store, loaded, shelf)?;
    index.gone(shelf);
    session.released(shelf);
    Ok(take_out(cast, shelf))
}

// Unregisters the applet, and ends the command; where a fault stops that, its box is on its shelf again.
fn remove<S: Store, B: Applet>(
    store: &mut S,
    loaded: &mut Loaded,
    index: &mut Index,
    cast: &mut [Option<B>],
    session: &mut Session,
    shelf: Shelf,
) -> Result<(), StoreFault>
    requires rests { IsBetweenCommands
        (scene (memory S.Store store.old loaded.old) index.old session.old (minds_of B.mind cast.old)) cast.old }
    requires may_go { MayGo
        (scene (memory S.Store store.old loaded.old) index.old session.old (minds_of B.mind cast.old)) shelf.0 }
    ensures moves { Moves (delete_carried shelf.0)
        (scene (memory S.Store store.old loaded.old) index.old session.old (minds_of B.mind cast.old))
        (scene (memory S.Store store.new loaded.new) index.new session.new (minds_of B.mind cast.new)) result }
    ensures untold { (other : ℕ) → other ≢ shelf.0
        → AreForOthers other session.old.late → IsSameBox other cast.old cast.new }
    ensures lost { OnOk result (HasLost shelf.0
        (scene (memory S.Store store.old loaded.old) index.old session.old (minds_of B.mind cast.old))
        (scene (memory S.Store store.new loaded.new) index.new session.new (minds_of B.mind cast.new))) }
    ensures keeps { KeepsBesides shelf.0
        (scene (memory S.Store store.old loaded.old) index.old session.old (minds_of B.mind cast.old))
        (scene (memory S.Store store.new loaded.new) index.new session.new (minds_of B.mind cast.new)) result }
{
    let applet = unregister(store, loaded, index, cast, session, shelf)?;
    match drive_in_place(store, loaded, index, cast, session) {
        Ok(()) => Ok(()),
        Err(fault) => {
            put_back(cast, shelf, applet);
            Err(fault)
        }
    }
}

/// DELETE: the applet on the shelf P2 is registered no more. Its row goes out of the memory; after that its timers are free and its box
/// is taken out. Then the command ends as each that moves the toolkit, and the box is dropped.
///
/// Over any store there is one commit for each state that it passes. The boxes of applets that are told nothing are left as they are,
/// also where a commit meets a fault.
///
/// Where a commit meets a fault, those before it are counted and no other, the answer is empty, the table has the rows
/// before that commit, and the memory these or those after it; of the index, the session and the minds of the applets
/// that are told something nothing is said then. Each box is on its shelf still, or again; whether that of the applet
/// goes is for the caller, once it is known whether its row is gone.
pub fn delete<S: Store, B: Applet>(
    store: &mut S,
    loaded: &mut Loaded,
    index: &mut Index,
    cast: &mut [Option<B>],
    session: &mut Session,
    seen: &Verified,
    command: &Command<'_>,
    out: &mut Answer,
) -> Result<(), StoreFault>
    requires rests { IsBetweenCommands
        (scene (memory S.Store store.old loaded.old) index.old session.old (minds_of B.mind cast.old)) cast.old }
    ensures carries { CarriesOut (λ card. applet_deleted card seen.now command.now) out.new
        (scene (memory S.Store store.old loaded.old) index.old session.old (minds_of B.mind cast.old))
        (scene (memory S.Store store.new loaded.new) index.new session.new (minds_of B.mind cast.new)) result }
    ensures untold { (other : ℕ) → other ≢ command.now.p2
        → AreForOthers other session.old.late → IsSameBox other cast.old cast.new }
    ensures lost { OnOk result ((kinds_of (minds_of B.mind cast.new) ≡ kinds_of (minds_of B.mind cast.old))
        ⊎ HasLost command.now.p2
        (scene (memory S.Store store.old loaded.old) index.old session.old (minds_of B.mind cast.old))
        (scene (memory S.Store store.new loaded.new) index.new session.new (minds_of B.mind cast.new))) }
    ensures keeps { KeepsBesides command.now.p2
        (scene (memory S.Store store.old loaded.old) index.old session.old (minds_of B.mind cast.old))
        (scene (memory S.Store store.new loaded.new) index.new session.new (minds_of B.mind cast.new)) result }
    ensures ends { EndsToolkitWell out.new
        (scene (memory S.Store store.new loaded.new) index.new session.new (minds_of B.mind cast.new)) result }
{
    // These calls are laws, and do nothing.
    tables_tell_states();
    sessions_are_served();
    sessions_stay_in_order();
    states_are_of_entries();
    out.body.clear();
    match try_delete(loaded, session, seen, command) {
        Ok(()) => {
            remove(store, loaded, index, cast, session, Shelf(command.p2))?;
            out.status = StatusWord::DONE;
            Ok(())
        }
        Err(status) => {
            out.status = status;
            Ok(())
        }
    }
}
