//! TERMINAL PROFILE, and STATUS as an event.
ghost use Rattle.std.specs.Prelude.{[], ◌≢◌, ◌≤◌, ℕ, length, All, OnOk};
ghost use Rattle.uicc_types.specs.declared.events.TheConstants.{PROFILE_DOWNLOAD, STATUS_COMMAND};
ghost use Rattle.card_state.specs.States.{rows_of};
ghost use Rattle.card_state.specs.Memory.{memory};
ghost use Rattle.applet_trait.specs.Minds.{minds_of};
ghost use Rattle.toolkit_model.specs.Commands.{profiled, polled};
ghost use Rattle.toolkit_model.specs.Order.{targets};
ghost use Rattle.toolkit_model.specs.OrderlySessions.{IsInOrder};
ghost use Rattle.proactive_handler.specs.Boxes.{IsSameBox, AreForOthers};
ghost use Rattle.proactive_handler.specs.Steps.{toolkit, scene, Moves};
ghost use Rattle.proactive_handler.specs.Scenes.{KeepsScene};
ghost use Rattle.card_model.specs.Toolkit.{profile_taken, coming_to, toolkit_of};
ghost use Rattle.cat_commands.specs.Bounds.{IsBetweenCommands, EndsToolkitWell};
ghost use Rattle.cat_commands.specs.Carrying.{CarriesOut, ToolkitComesTo};

use crate::forms::try_data;
use crate::telling::tell;
use crate::triggers::targets_of;
use apdu_form::Command;
use applet_trait::Applet;
use card_commits::tables_tell_states;
use card_state::Loaded;
use event_dispatch::Index;
use proactive_handler::{Session, sessions_are_served};
use store_form::{Store, StoreFault};
use toolkit_model::sessions_stay_in_order;
use uicc_types::events::{PROFILE_DOWNLOAD, STATUS_COMMAND};
use uicc_types::{Answer, StatusWord};

// The handset has this profile, of which the applets are told that are registered for it.
fn profile<S: Store, B: Applet>(
    store: &mut S,
    loaded: &mut Loaded,
    index: &mut Index,
    cast: &mut [Option<B>],
    session: &mut Session,
    bytes: &[u8],
) -> Result<(), StoreFault>
    requires rests { IsBetweenCommands
        (scene (memory S.Store store.old loaded.old) index.old session.old (minds_of B.mind cast.old)) cast.old }
    requires short { length bytes.now ≤ 255 }
    ensures moves { Moves (profiled bytes.now)
        (scene (memory S.Store store.old loaded.old) index.old session.old (minds_of B.mind cast.old))
        (scene (memory S.Store store.new loaded.new) index.new session.new (minds_of B.mind cast.new)) result }
    ensures untold { (other : ℕ) → All (λ shelf. shelf ≢ other) (targets (rows_of loaded.old) PROFILE_DOWNLOAD)
        → AreForOthers other session.old.late → IsSameBox other cast.old cast.new }
    ensures keeps { KeepsScene
        (scene (memory S.Store store.old loaded.old) index.old session.old (minds_of B.mind cast.old))
        (scene (memory S.Store store.new loaded.new) index.new session.new (minds_of B.mind cast.new)) result }
{
    // This call is a law, and does nothing.
    sessions_are_served();
    session.set_profile(bytes);
    let to = targets_of(loaded, index, PROFILE_DOWNLOAD);
    tell(
        store,
        loaded,
        index,
        cast,
        session,
        &to,
        PROFILE_DOWNLOAD,
        bytes,
        false,
    )?;
    Ok(())
}

/// TERMINAL PROFILE (ETSI TS 102 221, 11.2.1): the data are the handset's profile from now on. The applets that are registered for it
/// are told of it, if they wait for no answer; then the command ends as each that moves the toolkit.
///
/// Over any store there is one commit for each state that it passes. The boxes of applets that are told nothing are left as they are,
/// also where a commit meets a fault.
///
/// Where a commit meets a fault, those before it are counted and no other, the answer is empty, the table has the rows
/// before that commit, and the memory these or those after it; of the index, the session and the minds of the applets
/// that are told something nothing is said then.
pub fn take_profile<S: Store, B: Applet>(
    store: &mut S,
    loaded: &mut Loaded,
    index: &mut Index,
    cast: &mut [Option<B>],
    session: &mut Session,
    command: &Command<'_>,
    out: &mut Answer,
) -> Result<(), StoreFault>
    requires rests { IsBetweenCommands
        (scene (memory S.Store store.old loaded.old) index.old session.old (minds_of B.mind cast.old)) cast.old }
    requires short { length command.now.body ≤ 255 }
    ensures carries { CarriesOut (λ card. profile_taken card command.now) out.new
        (scene (memory S.Store store.old loaded.old) index.old session.old (minds_of B.mind cast.old))
        (scene (memory S.Store store.new loaded.new) index.new session.new (minds_of B.mind cast.new)) result }
    ensures untold { (other : ℕ) → All (λ shelf. shelf ≢ other) (targets (rows_of loaded.old) PROFILE_DOWNLOAD)
        → AreForOthers other session.old.late → IsSameBox other cast.old cast.new }
    ensures keeps { KeepsScene
        (scene (memory S.Store store.old loaded.old) index.old session.old (minds_of B.mind cast.old))
        (scene (memory S.Store store.new loaded.new) index.new session.new (minds_of B.mind cast.new)) result }
    ensures ends { EndsToolkitWell out.new
        (scene (memory S.Store store.new loaded.new) index.new session.new (minds_of B.mind cast.new)) result }
{
    // These calls are laws, and do nothing.
    tables_tell_states();
    sessions_are_served();
    sessions_stay_in_order();
    out.body.clear();
    match try_data(command) {
        Ok(()) => {
            profile(store, loaded, index, cast, session, command.body)?;
            out.status = StatusWord::DONE;
            Ok(())
        }
        Err(status) => {
            out.status = status;
            Ok(())
        }
    }
}

// The applets that are registered for STATUS are told of it.
fn tell_status<S: Store, B: Applet>(
    store: &mut S,
    loaded: &mut Loaded,
    index: &mut Index,
    cast: &mut [Option<B>],
    session: &mut Session,
) -> Result<(), StoreFault>
    requires rests { IsBetweenCommands
        (scene (memory S.Store store.old loaded.old) index.old session.old (minds_of B.mind cast.old)) cast.old }
    ensures moves { Moves polled
        (scene (memory S.Store store.old loaded.old) index.old session.old (minds_of B.mind cast.old))
        (scene (memory S.Store store.new loaded.new) index.new session.new (minds_of B.mind cast.new)) result }
    ensures untold { (other : ℕ) → All (λ shelf. shelf ≢ other) (targets (rows_of loaded.old) STATUS_COMMAND)
        → AreForOthers other session.old.late → IsSameBox other cast.old cast.new }
    ensures keeps { KeepsScene
        (scene (memory S.Store store.old loaded.old) index.old session.old (minds_of B.mind cast.old))
        (scene (memory S.Store store.new loaded.new) index.new session.new (minds_of B.mind cast.new)) result }
{
    // This call is a law, and does nothing.
    sessions_are_served();
    let to = targets_of(loaded, index, STATUS_COMMAND);
    tell(
        store,
        loaded,
        index,
        cast,
        session,
        &to,
        STATUS_COMMAND,
        &[],
        false,
    )?;
    Ok(())
}

/// A STATUS that was answered: the applets that are registered for it are told of it, if they wait for no answer; then the command
/// ends as each that moves the toolkit.
///
/// Over any store there is one commit for each state that it passes. The boxes of applets that are told nothing are left as they are,
/// also where a commit meets a fault.
///
/// Where a commit meets a fault, those before it are counted and no other, the table has the rows before that commit,
/// and the memory these or those after it; of the index, the session and the minds of the applets that are told
/// something nothing is said then.
pub fn poll<S: Store, B: Applet>(
    store: &mut S,
    loaded: &mut Loaded,
    index: &mut Index,
    cast: &mut [Option<B>],
    session: &mut Session,
) -> Result<(), StoreFault>
    requires rests { IsBetweenCommands
        (scene (memory S.Store store.old loaded.old) index.old session.old (minds_of B.mind cast.old)) cast.old }
    ensures comes { ToolkitComesTo (λ card. coming_to card [] (polled (toolkit_of card)))
        (scene (memory S.Store store.old loaded.old) index.old session.old (minds_of B.mind cast.old))
        (scene (memory S.Store store.new loaded.new) index.new session.new (minds_of B.mind cast.new)) result }
    ensures order { OnOk result (IsInOrder
        (toolkit (scene (memory S.Store store.new loaded.new) index.new session.new (minds_of B.mind cast.new)))) }
    ensures untold { (other : ℕ) → All (λ shelf. shelf ≢ other) (targets (rows_of loaded.old) STATUS_COMMAND)
        → AreForOthers other session.old.late → IsSameBox other cast.old cast.new }
    ensures keeps { KeepsScene
        (scene (memory S.Store store.old loaded.old) index.old session.old (minds_of B.mind cast.old))
        (scene (memory S.Store store.new loaded.new) index.new session.new (minds_of B.mind cast.new)) result }
{
    // These calls are laws, and do nothing.
    tables_tell_states();
    sessions_stay_in_order();
    tell_status(store, loaded, index, cast, session)
}
