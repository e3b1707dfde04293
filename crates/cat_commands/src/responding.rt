//! TERMINAL RESPONSE.
ghost use Rattle.std.specs.Prelude.{◌≢◌, ◌≤◌, ℕ, length, IfSome, Some};
ghost use Rattle.card_state.specs.Memory.{memory};
ghost use Rattle.applet_trait.specs.Minds.{minds_of};
ghost use Rattle.toolkit_model.specs.Commands.{unanswered};
ghost use Rattle.proactive_handler.specs.Boxes.{IsSameBox, AreForOthers};
ghost use Rattle.proactive_handler.specs.Steps.{scene};
ghost use Rattle.proactive_handler.specs.Scenes.{KeepsScene};
ghost use Rattle.card_model.specs.Toolkit.{response_taken};
ghost use Rattle.cat_commands.specs.Bounds.{IsBetweenCommands, EndsToolkitWell};
ghost use Rattle.cat_commands.specs.Carrying.{CarriesOut};

use crate::forms::try_response;
use apdu_form::Command;
use applet_trait::Applet;
use card_commits::tables_tell_states;
use card_state::Loaded;
use event_dispatch::Index;
use proactive_handler::{Session, respond_and_drive, sessions_are_served};
use store_form::{Store, StoreFault};
use toolkit_model::sessions_stay_in_order;
use uicc_types::{Answer, StatusWord};

/// TERMINAL RESPONSE (ETSI TS 102 221, 11.2.4): the handset answers the command that it fetched. The applet that sent that goes on
/// with the response; then the command ends as each that moves the toolkit.
///
/// Over any store there is one commit for each state that it passes. The boxes of applets that are told nothing are left as they are,
/// also where a commit meets a fault.
///
/// Where a commit meets a fault, those before it are counted and no other, the answer is empty, the table has the rows
/// before that commit, and the memory these or those after it; of the index, the session and the minds of the applets
/// that are told something nothing is said then.
pub fn take_response<S: Store, B: Applet>(
    store: &mut S,
    loaded: &mut Loaded,
    index: &mut Index,
    cast: &mut [Option<B>],
    session: &mut Session,
    command: &Command<'_>,
    out: &mut Answer,
) -> Result<(), StoreFault>
    requires rests { IsBetweenCommands
        (scene (memory S.Store store.old loaded.old) index.old session.old (minds_of B.mind cast.old)) cast.old }
    requires short { length command.now.body ≤ 255 }
    ensures carries { CarriesOut (λ card. response_taken card command.now) out.new
        (scene (memory S.Store store.old loaded.old) index.old session.old (minds_of B.mind cast.old))
        (scene (memory S.Store store.new loaded.new) index.new session.new (minds_of B.mind cast.new)) result }
    ensures untold { (other : ℕ) → IfSome (unanswered session.old) (λ out. out.owner ≢ Some other)
        → AreForOthers other session.old.late → IsSameBox other cast.old cast.new }
    ensures keeps { KeepsScene
        (scene (memory S.Store store.old loaded.old) index.old session.old (minds_of B.mind cast.old))
        (scene (memory S.Store store.new loaded.new) index.new session.new (minds_of B.mind cast.new)) result }
    ensures ends { EndsToolkitWell out.new
        (scene (memory S.Store store.new loaded.new) index.new session.new (minds_of B.mind cast.new)) result }
{
    // These calls are laws, and do nothing.
    tables_tell_states();
    sessions_are_served();
    sessions_stay_in_order();
    out.body.clear();
    match try_response(session.fetched(), command) {
        Ok(response) => {
            respond_and_drive(store, loaded, index, cast, session, &response)?;
            out.status = StatusWord::DONE;
            Ok(())
        }
        Err(status) => {
            out.status = status;
            Ok(())
        }
    }
}
