//! FETCH.
ghost use Rattle.std.specs.Prelude.{◌≡◌, ◌≢◌, IsOk, OnOk};
ghost use Rattle.card_state.specs.Memory.{memory};
ghost use Rattle.applet_trait.specs.Minds.{minds_of};
ghost use Rattle.toolkit_model.specs.OrderlySessions.{IsInOrder};
ghost use Rattle.proactive_handler.specs.Steps.{toolkit, scene};
ghost use Rattle.card_model.specs.Toolkit.{command_fetched};
ghost use Rattle.cat_commands.specs.Carrying.{CarriesOut};

use crate::forms::try_fetch;
use apdu_form::Command;
use applet_trait::Applet;
use card_state::Loaded;
use event_dispatch::Index;
use proactive_handler::Session;
use store_form::{Store, StoreFault};
use toolkit_model::sessions_stay_in_order;
use uicc_types::{Answer, StatusWord};

/// FETCH (ETSI TS 102 221, 11.2.3): answers the bytes of the outstanding command, all of them, and marks it fetched. Nothing but the
/// session is touched.
pub fn fetch<S: Store, B: Applet>(
    store: &mut S,
    loaded: &mut Loaded,
    index: &mut Index,
    cast: &mut [Option<B>],
    session: &mut Session,
    command: &Command<'_>,
    out: &mut Answer,
) -> Result<(), StoreFault>
    requires order { IsInOrder
        (toolkit (scene (memory S.Store store.old loaded.old) index.old session.old (minds_of B.mind cast.old))) }
    ensures carries { CarriesOut (λ card. command_fetched card command.now) out.new
        (scene (memory S.Store store.old loaded.old) index.old session.old (minds_of B.mind cast.old))
        (scene (memory S.Store store.new loaded.new) index.new session.new (minds_of B.mind cast.new)) result }
    ensures order { OnOk result (IsInOrder
        (toolkit (scene (memory S.Store store.new loaded.new) index.new session.new (minds_of B.mind cast.new)))) }
    ensures still { (store.new ≡ store.old) × (loaded.new ≡ loaded.old)
        × (index.new ≡ index.old) × (cast.new ≡ cast.old) }
    ensures usual { out.new.status.0 ≢ StatusWord.MEMORY_PROBLEM.0 }
    ensures ok { IsOk result }
{
    // This call is a law, and does nothing.
    sessions_stay_in_order();
    out.body.clear();
    match try_fetch(session.unfetched(), command) {
        Ok(()) => {
            session.fetch(out);
        }
        Err(status) => out.status = status,
    }
    Ok(())
}
