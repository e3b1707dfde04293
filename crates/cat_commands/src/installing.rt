//! INSTALL, which this card has of its own.
ghost use Rattle.std.specs.Prelude.{[], ◌≡◌, ◌≢◌, ◌≤◌, ◌<◌, ◌+◌, ◌&&◌, ℕ, nat_le, List, length, true, IfOk, IfErr, IfSome};
ghost use Rattle.card_state.specs.declared.events.TheConstants.{EVENTS_END};
ghost use Rattle.card_state.specs.declared.sizes.TheConstants.{ROW_COUNT};
ghost use Rattle.card_state.specs.States.{registration_of, state_of};
ghost use Rattle.card_state.specs.Memory.{memory};
ghost use Rattle.card_state.specs.AppletKinds.{IsAppletKind};
ghost use Rattle.applet_trait.specs.Minds.{minds_of, kind_on};
ghost use Rattle.toolkit_model.specs.Commands.{installed};
ghost use Rattle.applet_registry.specs.Rows.{IsAdmitted};
ghost use Rattle.proactive_handler.specs.Boxes.{IsSameBox, AreForOthers};
ghost use Rattle.proactive_handler.specs.Steps.{toolkit, scene};
ghost use Rattle.proactive_handler.specs.Scenes.{IsInService, KeepsScene};
ghost use Rattle.card_model.specs.Toolkit.{has_shelf, applet_installed};
ghost use Rattle.cat_commands.specs.Carrying.{Comes, CarriesOut};
ghost use Rattle.cat_commands.specs.Registering.{Registers, IsInstallable, with_next};
ghost use Rattle.cat_commands.specs.Trying.{install_tried, registration_for};
ghost use Rattle.cat_commands.specs.Bounds.{IsBetweenCommands, EndsToolkitWell};

use crate::forms::status_of;
use crate::shelves::wake;
use access_rules::Verified;
use apdu_form::Command;
use applet_trait::{Applet, kind_on};
use card_commits::{install_row, tables_tell_states};
use card_state::sizes::ROW_COUNT;
use card_state::{Loaded, Row, states_are_of_entries};
use event_dispatch::Index;
use proactive_handler::{Session, drive_in_place, sessions_are_served};
use store_form::{Store, StoreFault};
use toolkit_model::{installed_rows_are_sound, sessions_stay_in_order};
use uicc_types::{Answer, Shelf, StatusWord};

// P1 is a priority, and P2 a shelf.
fn names_place(command: &Command<'_>) -> bool
    ensures { result ≡ (nat_le 1 command.now.p1 && has_shelf command.now) }
{
    command.p1 >= 1 && usize::from(command.p2) < ROW_COUNT
}

// The row that is to be registered.
#[tactic(auto, unfolding(crate::specs::Trying::install_tried, file_model::specs::Chains::refused_if))]
fn try_install<B: Applet>(
    loaded: &Loaded,
    cast: &[Option<B>],
    seen: &Verified,
    command: &Command<'_>,
) -> Result<Row, StatusWord>
    requires shelves { length cast.now ≡ ROW_COUNT }
    ensures value { (held : List ℕ) → registration_for command.now.p2 result
        ≡ install_tried (state_of loaded.now held) (kind_on (minds_of B.mind cast.now) command.now.p2)
        seen.now command.now }
    ensures used { IfOk result (λ row. row.used ≡ true) }
    ensures events { IfOk result (λ row. row.events < EVENTS_END) }
    ensures admitted { IfOk result (IsAdmitted loaded.now command.now.p2) }
    ensures known { IfOk result (λ row. IfSome (kind_on (minds_of B.mind cast.now) command.now.p2)
        IsAppletKind) }
    ensures usual { IfErr result (λ status. status.0 ≢ StatusWord.MEMORY_PROBLEM.0) }
{
    if !names_place(command) {
        return Err(StatusWord::WRONG_PARAMETERS);
    }
    if command.body.is_empty() {
        return Err(StatusWord::WRONG_LENGTH);
    }
    if !seen.adm1 {
        return Err(StatusWord::SECURITY_NOT_SATISFIED);
    }
    let shelf = Shelf(command.p2);
    match applet_registry::install(
        loaded,
        kind_on(cast, shelf.0),
        shelf,
        command.p1,
        command.body,
    ) {
        Ok(row) => Ok(row),
        Err(fault) => Err(status_of(fault)),
    }
}

// Commits the row, brings it into the index, and wakes its applet.
fn register<S: Store, B: Applet>(
    store: &mut S,
    loaded: &mut Loaded,
    index: &mut Index,
    cast: &mut [Option<B>],
    session: &mut Session,
    shelf: Shelf,
    row: Row,
) -> Result<(), StoreFault>
    requires service { IsInService
        (scene (memory S.Store store.old loaded.old) index.old session.old (minds_of B.mind cast.old)) cast.old }
    requires installable { IsInstallable
        (scene (memory S.Store store.old loaded.old) index.old session.old (minds_of B.mind cast.old)) shelf.0 row }
    ensures registers { Registers (registration_of shelf.0 row)
        (scene (memory S.Store store.old loaded.old) index.old session.old (minds_of B.mind cast.old))
        (scene (memory S.Store store.new loaded.new) index.new session.new (minds_of B.mind cast.new)) result }
    ensures untold { (other : ℕ) → other ≢ shelf.0 → IsSameBox other cast.old cast.new }
    ensures keeps { KeepsScene
        (with_next loaded.new.next
        (scene (memory S.Store store.old loaded.old) index.old session.old (minds_of B.mind cast.old)))
        (scene (memory S.Store store.new loaded.new) index.new session.new (minds_of B.mind cast.new)) result }
{
    // This call is a law, and does nothing.
    states_are_of_entries();
    let kept = row.kept.copy();
    install_row(store, loaded, shelf, row)?;
    index.installed(loaded, shelf);
    wake(cast, shelf, &kept);
    Ok(())
}

// Registers the row, and ends the command.
fn add<S: Store, B: Applet>(
    store: &mut S,
    loaded: &mut Loaded,
    index: &mut Index,
    cast: &mut [Option<B>],
    session: &mut Session,
    shelf: Shelf,
    row: Row,
) -> Result<(), StoreFault>
    requires service { IsInService
        (scene (memory S.Store store.old loaded.old) index.old session.old (minds_of B.mind cast.old)) cast.old }
    requires installable { IsInstallable
        (scene (memory S.Store store.old loaded.old) index.old session.old (minds_of B.mind cast.old)) shelf.0 row }
    ensures comes { Comes (record {
      body = [];
      passed = installed (registration_of shelf.0 row)
          (toolkit (scene (memory S.Store store.old loaded.old) index.old session.old (minds_of B.mind cast.old)));
      next_sequence = loaded.old.next + 1;
    })
        (scene (memory S.Store store.old loaded.old) index.old session.old (minds_of B.mind cast.old))
        (scene (memory S.Store store.new loaded.new) index.new session.new (minds_of B.mind cast.new)) result }
    ensures untold { (other : ℕ) → other ≢ shelf.0
        → AreForOthers other session.old.late → IsSameBox other cast.old cast.new }
    ensures keeps { KeepsScene
        (with_next loaded.new.next
        (scene (memory S.Store store.old loaded.old) index.old session.old (minds_of B.mind cast.old)))
        (scene (memory S.Store store.new loaded.new) index.new session.new (minds_of B.mind cast.new)) result }
{
    // This call is a law, and does nothing.
    tables_tell_states();
    register(store, loaded, index, cast, session, shelf, row)?;
    drive_in_place(store, loaded, index, cast, session)
}

/// INSTALL: registers the applet on the shelf P2 with the priority P1 and the data, which wakes; its row takes the next sequence
/// number, in the same commit. Then the command ends as each that moves the toolkit.
///
/// Over any store there is one commit for each state that it passes. The boxes of applets that are told nothing are left as they are,
/// also where a commit meets a fault.
///
/// Where a commit meets a fault, those before it are counted and no other, the answer is empty, the table has the rows
/// before that commit, and the memory these or those after it; of the index, the session and the minds of the applets
/// that are told something nothing is said then.
pub fn install<S: Store, B: Applet>(
    store: &mut S,
    loaded: &mut Loaded,
    index: &mut Index,
    cast: &mut [Option<B>],
    session: &mut Session,
    seen: &Verified,
    command: &Command<'_>,
    out: &mut Answer,
) -> Result<(), StoreFault>
    requires rests { IsBetweenCommands
        (scene (memory S.Store store.old loaded.old) index.old session.old (minds_of B.mind cast.old)) cast.old }
    ensures carries { CarriesOut (λ card. applet_installed card seen.now command.now) out.new
        (scene (memory S.Store store.old loaded.old) index.old session.old (minds_of B.mind cast.old))
        (scene (memory S.Store store.new loaded.new) index.new session.new (minds_of B.mind cast.new)) result }
    ensures untold { (other : ℕ) → other ≢ command.now.p2
        → AreForOthers other session.old.late → IsSameBox other cast.old cast.new }
    ensures keeps { KeepsScene
        (with_next loaded.new.next
        (scene (memory S.Store store.old loaded.old) index.old session.old (minds_of B.mind cast.old)))
        (scene (memory S.Store store.new loaded.new) index.new session.new (minds_of B.mind cast.new)) result }
    ensures ends { EndsToolkitWell out.new
        (scene (memory S.Store store.new loaded.new) index.new session.new (minds_of B.mind cast.new)) result }
{
    // These calls are laws, and do nothing.
    tables_tell_states();
    sessions_are_served();
    sessions_stay_in_order();
    installed_rows_are_sound();
    states_are_of_entries();
    out.body.clear();
    match try_install(loaded, cast, seen, command) {
        Ok(row) => {
            let shelf = Shelf(command.p2);
            add(store, loaded, index, cast, session, shelf, row)?;
            out.status = StatusWord::DONE;
            Ok(())
        }
        Err(status) => {
            out.status = status;
            Ok(())
        }
    }
}
