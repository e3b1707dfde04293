//! The run of one applet, from its box, with what it leaves of the session.
ghost use Rattle.std.specs.Prelude.{ℕ, ◌≡◌, ◌≢◌, ◌<◌, List, length, true, false, IfOk, IfSome, Option, Some, None};
ghost use Rattle.card_state.specs.declared.sizes.TheConstants.{ROW_COUNT};
ghost use Rattle.card_state.specs.Memory.{memory};
ghost use Rattle.card_commits.specs.Entries.{HasRowOn};
ghost use Rattle.applet_trait.specs.Laws.{GivesTimer};
ghost use Rattle.applet_trait.specs.Minds.{AppletState, minds_of};
ghost use Rattle.toolkit_model.specs.Commands.{last_answer};
ghost use Rattle.toolkit_model.specs.Driving.{is_idle};
ghost use Rattle.toolkit_model.specs.Orderly.{asks, CanBeSent};
ghost use Rattle.toolkit_model.specs.Running.{begins_call, sending, mind_on, with_mind, run_of_row};
ghost use Rattle.event_dispatch.specs.declared.waiting.TheConstants.Waiting.{MOST};
ghost use Rattle.proactive_handler.specs.Acts.{command_of};
ghost use Rattle.proactive_handler.specs.Boxes.{IsSameBox};
ghost use Rattle.proactive_handler.specs.Serving.{IsSessionServed};
ghost use Rattle.proactive_handler.specs.Steps.{scene, toolkit, Moves};
ghost use Rattle.proactive_handler.specs.Reached.{Tells};
ghost use Rattle.proactive_handler.specs.Scenes.{IsInService, KeepsScene};
ghost use Rattle.proactive_handler.specs.Runs.{ended_by, MayRun, KeepsRows};

use crate::acting::run_row;
use crate::endings::RunEnd;
use crate::session::Session;
use crate::settings::Setting;
use applet_trait::{Act, Applet, Stimulus};
use card_commits::tables_tell_states;
use card_state::Loaded;
use event_dispatch::Index;
use store_form::{Store, StoreFault};
use uicc_types::Shelf;
use uicc_types::events::CALL_CONTROL;

// Whether call control begins the run.
fn begins_call(stimulus: &Stimulus) -> bool
    ensures { result ≡ begins_call stimulus.now }
{
    match stimulus {
        Stimulus::Event { code, .. } => *code == CALL_CONTROL,
        _ => false,
    }
}

// The command of an act goes out or waits, if it has one.
fn send_of(session: &mut Session, shelf: Shelf, is_resumed: bool, act: &Act)
    requires sendable { IfSome (command_of act.now) CanBeSent }
    requires room { is_resumed ≡ false → length session.old.waiting < MOST }
    ensures { session.new ≡ sending shelf.0 is_resumed (command_of act.now) session.old }
{
    if let Act::Send(command) = act {
        session.send(shelf, is_resumed, command);
    }
}

// The command that a run ended with goes out or waits, if there is one.
fn send_last(session: &mut Session, shelf: Shelf, is_resumed: bool, last: &Act, ending: &RunEnd)
    requires sendable { IfSome (ended_by last.now ending.now).sent CanBeSent }
    requires room { is_resumed ≡ false → length session.old.waiting < MOST }
    ensures { session.new ≡ sending shelf.0 is_resumed (ended_by last.now ending.now).sent session.old }
{
    if ending.is_sent {
        send_of(session, shelf, is_resumed, last);
    }
}

// The place of the box of a row, which is idle: then there is room for a command that it sends.
fn place_of(loaded: &Loaded, session: &Session, shelf: Shelf) -> usize
    requires row { HasRowOn loaded.now shelf.0 }
    requires served { IsSessionServed loaded.now session.now }
    requires idle { is_idle (asks session.now) shelf.0 ≡ true }
    ensures value { result ≡ shelf.0 }
    ensures low { result < ROW_COUNT }
    ensures room { length session.now.waiting < MOST }
{
    let place = usize::from(shelf.0);
    prove!(place < loaded.all_rows().len());
    place
}

// Runs an applet on a stimulus, whatever the other boxes are.
fn run_applet<S: Store, B: Applet>(
    store: &mut S,
    loaded: &mut Loaded,
    index: &mut Index,
    applet: &mut B,
    session: &mut Session,
    shelf: Shelf,
    stimulus: &Stimulus,
    is_resumed: bool,
    does: &mut Act,
) -> Result<Option<bool>, StoreFault>
    requires may_run { MayRun (memory S.Store store.old loaded.old) index.old shelf.0 }
    requires one_of_eight { GivesTimer stimulus.now }
    requires room { is_resumed ≡ false → length session.old.waiting < MOST }
    ensures moves { (minds : List (Option AppletState)) → mind_on minds shelf.0 ≡ Some (B.mind applet.old)
        → Moves (run_of_row shelf.0 stimulus.now is_resumed)
        (scene (memory S.Store store.old loaded.old) index.old session.old minds)
        (scene (memory S.Store store.new loaded.new) index.new session.new
        (with_mind minds shelf.0 (Some (B.mind applet.new)))) result }
    ensures answer { (minds : List (Option AppletState)) → mind_on minds shelf.0 ≡ Some (B.mind applet.old)
        → IfOk result (λ answer. answer ≡ last_answer (run_of_row shelf.0 stimulus.now is_resumed
        (toolkit (scene (memory S.Store store.old loaded.old) index.old session.old minds))).log) }
    ensures same_kind { (B.mind applet.new).kind ≡ (B.mind applet.old).kind }
    ensures keeps { KeepsRows (memory S.Store store.old loaded.old)
        (memory S.Store store.new loaded.new) index.new result }
{
    let at = Setting {
        shelf,
        profile: session.profile(),
        in_call: begins_call(stimulus),
    };
    match run_row(
        store,
        loaded,
        index,
        session.timers(),
        applet,
        &at,
        stimulus,
        does,
    ) {
        Ok(ending) => {
            send_last(session, shelf, is_resumed, does, &ending);
            Ok(ending.answer)
        }
        Err(fault) => Err(fault),
    }
}

/// Runs the applet of a row on a stimulus, which is idle, and answers the last answer to call control that it gave. It goes on
/// after the response to its command, or not. Where there is no box on the shelf, nothing happens. Its acts are made in one place.
pub(crate) fn run_one<S: Store, B: Applet>(
    store: &mut S,
    loaded: &mut Loaded,
    index: &mut Index,
    cast: &mut [Option<B>],
    session: &mut Session,
    shelf: Shelf,
    stimulus: &Stimulus,
    is_resumed: bool,
    does: &mut Act,
) -> Result<Option<bool>, StoreFault>
    requires service { IsInService
        (scene (memory S.Store store.old loaded.old) index.old session.old (minds_of B.mind cast.old)) cast.old }
    requires row { HasRowOn loaded.old shelf.0 }
    requires one_of_eight { GivesTimer stimulus.now }
    requires idle { is_idle (asks session.old) shelf.0 ≡ true }
    requires nothing_out { is_resumed ≡ true → session.old.out ≡ None }
    ensures tells { Tells (run_of_row shelf.0 stimulus.now is_resumed)
        (scene (memory S.Store store.old loaded.old) index.old session.old (minds_of B.mind cast.old))
        (scene (memory S.Store store.new loaded.new) index.new session.new (minds_of B.mind cast.new))
        cast.old cast.new result }
    ensures untold { (other : ℕ) → shelf.0 ≢ other → IsSameBox other cast.old cast.new }
    ensures keeps { KeepsScene
        (scene (memory S.Store store.old loaded.old) index.old session.old (minds_of B.mind cast.old))
        (scene (memory S.Store store.new loaded.new) index.new session.new (minds_of B.mind cast.new)) result }
{
    // This call is a law, and does nothing.
    tables_tell_states();
    let place = place_of(loaded, session, shelf);
    match &mut cast[place] {
        Some(applet) => run_applet(
            store, loaded, index, applet, session, shelf, stimulus, is_resumed, does,
        ),
        None => Ok(None),
    }
}

/// The same, in a place of its own for the acts.
pub(crate) fn run_alone<S: Store, B: Applet>(
    store: &mut S,
    loaded: &mut Loaded,
    index: &mut Index,
    cast: &mut [Option<B>],
    session: &mut Session,
    shelf: Shelf,
    stimulus: &Stimulus,
    is_resumed: bool,
) -> Result<Option<bool>, StoreFault>
    requires service { IsInService
        (scene (memory S.Store store.old loaded.old) index.old session.old (minds_of B.mind cast.old)) cast.old }
    requires row { HasRowOn loaded.old shelf.0 }
    requires one_of_eight { GivesTimer stimulus.now }
    requires idle { is_idle (asks session.old) shelf.0 ≡ true }
    requires nothing_out { is_resumed ≡ true → session.old.out ≡ None }
    ensures tells { Tells (run_of_row shelf.0 stimulus.now is_resumed)
        (scene (memory S.Store store.old loaded.old) index.old session.old (minds_of B.mind cast.old))
        (scene (memory S.Store store.new loaded.new) index.new session.new (minds_of B.mind cast.new))
        cast.old cast.new result }
    ensures untold { (other : ℕ) → shelf.0 ≢ other → IsSameBox other cast.old cast.new }
    ensures keeps { KeepsScene
        (scene (memory S.Store store.old loaded.old) index.old session.old (minds_of B.mind cast.old))
        (scene (memory S.Store store.new loaded.new) index.new session.new (minds_of B.mind cast.new)) result }
{
    let mut does = Act::Done;
    run_one(
        store, loaded, index, cast, session, shelf, stimulus, is_resumed, &mut does,
    )
}
