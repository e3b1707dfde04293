//! An act, whichever it is.
ghost use Rattle.std.specs.Prelude.{◌≡◌, OnErr, IfOk};
ghost use Rattle.card_state.specs.Memory.{memory};
ghost use Rattle.applet_trait.specs.Laws.{IsWritableAct};
ghost use Rattle.applet_trait.specs.Minds.{AppletState};
ghost use Rattle.proactive_handler.specs.Acts.{setting_of, after, Carries, TellsTimer, stage};
ghost use Rattle.proactive_handler.specs.Runs.{MayRun, KeepsRows};

use crate::changes::{deregister, keep, register};
use crate::endings::{Next, Reply};
use crate::messages::{free_timer, send, take_timer};
use crate::settings::Setting;
use applet_trait::Act;
use card_commits::tables_tell_states;
use card_state::Loaded;
use event_dispatch::Index;
use store_form::{Store, StoreFault};
use timer_table::Timers;

/// Carries out an act of the applet whose run is here, and says what comes after it. A fault stops its one commit, if it has one.
pub(crate) fn carry_out<S: Store>(
    store: &mut S,
    loaded: &mut Loaded,
    index: &mut Index,
    timers: &mut Timers,
    at: &Setting,
    act: &Act,
) -> Result<Next, StoreFault>
    requires may_run { MayRun (memory S.Store store.old loaded.old) index.old at.now.shelf.0 }
    requires writable { IsWritableAct act.now }
    ensures carries { (mind : AppletState) → Carries (setting_of at.now) act.now
        (stage (memory S.Store store.old loaded.old) timers.old mind)
        (stage (memory S.Store store.new loaded.new) timers.new mind) result }
    ensures one_of_eight { IfOk result (λ next. TellsTimer (after act.now next)) }
    ensures same { OnErr result (loaded.new ≡ loaded.old) }
    ensures keeps { KeepsRows (memory S.Store store.old loaded.old)
        (memory S.Store store.new loaded.new) index.new result }
{
    // This call is a law, and does nothing.
    tables_tell_states();
    match act {
        Act::Done => Ok(Next::Idle),
        Act::Send(command) => Ok(send(at, timers, command)),
        Act::Keep(bytes) => keep(store, loaded, at.shelf, bytes.as_slice()),
        Act::Register(code) => register(store, loaded, index, at.shelf, *code),
        Act::Deregister(code) => deregister(store, loaded, index, at.shelf, *code),
        Act::TakeTimer => Ok(Next::Told(take_timer(timers, at.shelf))),
        Act::FreeTimer(timer) => Ok(Next::Told(free_timer(timers, at.shelf, *timer))),
        Act::Answer(_) => Ok(Next::Told(Reply::Went)),
    }
}
