//! The commands of the toolkit.
ghost use Rattle.std.specs.Prelude.{◌≡◌, ◌≤◌, length, slice_set, None, IsOk, is_some};
ghost use Rattle.card_state.specs.Memory.{memory};
ghost use Rattle.card_state.specs.States.{pins_of, rows_of};
ghost use Rattle.file_model.specs.Access.{keys_seen};
ghost use Rattle.applet_trait.specs.Minds.{minds_of};
ghost use Rattle.toolkit_model.specs.Registry.{row_on};
ghost use Rattle.proactive_handler.specs.Steps.{scene};
ghost use Rattle.card_model.specs.Toolkit.{toolkit_outcome};
ghost use Rattle.cat_commands.specs.Bounds.{IsBetweenCommands, EndsToolkitWell};
ghost use Rattle.cat_commands.specs.Carrying.{CarriesOut};
ghost use Rattle.card_core.specs.Cards.{boxes_kept};
ghost use Rattle.card_core.specs.Commands.{leaving_by};
ghost use Rattle.card_core.specs.Serving.{KeepsToolkit};

use crate::keys::keys_seen;
use crate::laws::keys_are_own;
use access_rules::Verified;
use apdu_form::Command;
use applet_trait::Applet;
use card_model::CatCommand;
use card_state::Loaded;
use cat_commands::{delete, fetch, install, take_envelope, take_profile, take_response};
use event_dispatch::Index;
use proactive_handler::Session;
use store_form::{Store, StoreFault};
use uicc_types::{Answer, Shelf, StatusWord};

/// A command of the toolkit, over a card's memory and its boxes. The keys are looked at where one is needed.
#[tactic(auto, unfolding(card_model::specs::Toolkit::toolkit_outcome))]
pub(crate) fn by_toolkit<S: Store, B: Applet>(
    command: CatCommand,
    store: &mut S,
    loaded: &mut Loaded,
    index: &mut Index,
    cast: &mut [Option<B>],
    session: &mut Session,
    verified: &Verified,
    apdu: &Command<'_>,
    out: &mut Answer,
) -> Result<(), StoreFault>
    requires rests { IsBetweenCommands
        (scene (memory S.Store store.old loaded.old) index.old session.old (minds_of B.mind cast.old)) cast.old }
    requires short { length apdu.now.body ≤ 255 }
    ensures carries { CarriesOut
        (λ card. toolkit_outcome command card (keys_seen (pins_of loaded.old) verified.now) apdu.now) out.new
        (scene (memory S.Store store.old loaded.old) index.old session.old (minds_of B.mind cast.old))
        (scene (memory S.Store store.new loaded.new) index.new session.new (minds_of B.mind cast.new)) result }
    ensures done { command ≡ CatCommand.Fetch → IsOk result }
    ensures keeps { KeepsToolkit command apdu.now
        (scene (memory S.Store store.old loaded.old) index.old session.old (minds_of B.mind cast.old))
        (scene (memory S.Store store.new loaded.new) index.new session.new (minds_of B.mind cast.new)) result }
    ensures ends { EndsToolkitWell out.new
        (scene (memory S.Store store.new loaded.new) index.new session.new (minds_of B.mind cast.new)) result }
{
    // This call is a law, and does nothing.
    keys_are_own();
    match command {
        CatCommand::TerminalProfile => {
            take_profile(store, loaded, index, cast, session, apdu, out)
        }
        CatCommand::Fetch => fetch(store, loaded, index, cast, session, apdu, out),
        CatCommand::TerminalResponse => {
            take_response(store, loaded, index, cast, session, apdu, out)
        }
        CatCommand::Envelope => take_envelope(store, loaded, index, cast, session, apdu, out),
        CatCommand::InstallApplet => {
            let seen = keys_seen(loaded, verified);
            install(store, loaded, index, cast, session, &seen, apdu, out)
        }
        CatCommand::DeleteApplet => {
            let seen = keys_seen(loaded, verified);
            delete(store, loaded, index, cast, session, &seen, apdu, out)
        }
    }
}

/// The shelf of the applet that leaves where a fault stops this command.
pub(crate) fn leaving(command: CatCommand, apdu: &Command<'_>) -> Option<Shelf>
    ensures { result ≡ leaving_by command apdu.now }
{
    match command {
        CatCommand::DeleteApplet => Some(Shelf(apdu.p2)),
        _ => None,
    }
}

// Whether an applet is registered on a shelf. That of an idle one may go exactly where it is there.
#[tactic(auto, using(crate::proofs::RowOnLemmas::may_go_is))]
fn has_row(loaded: &Loaded, shelf: Shelf) -> bool
    ensures { result ≡ is_some (row_on (rows_of loaded.now) shelf.0) }
{
    applet_registry::delete(loaded, shelf, true).is_ok()
}

// The box on a shelf is dropped, if there is such a shelf.
fn empty<B: Applet>(boxes: &mut [Option<B>], shelf: Shelf)
    ensures minds { minds_of B.mind boxes.new ≡ slice_set (minds_of B.mind boxes.old) shelf.0 None }
    ensures long { length boxes.new ≡ length boxes.old }
{
    if usize::from(shelf.0) < boxes.len() {
        let _applet = boxes[usize::from(shelf.0)].take();
    }
}

/// The box of an applet that was leaving is dropped, if the applet is registered no more.
#[tactic(auto, using(crate::proofs::BoxesKeptLemmas::dropped, crate::proofs::BoxesKeptLemmas::not_dropped))]
pub(crate) fn drop_leaving<B: Applet>(
    loaded: &Loaded,
    boxes: &mut [Option<B>],
    leaving: Option<Shelf>,
)
    ensures minds { minds_of B.mind boxes.new ≡ boxes_kept leaving (rows_of loaded.now) (minds_of B.mind boxes.old) }
    ensures long { length boxes.new ≡ length boxes.old }
{
    if let Some(shelf) = leaving {
        if !has_row(loaded, shelf) {
            empty(boxes, shelf);
        }
    }
}
