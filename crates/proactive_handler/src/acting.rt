//! A run: act after act.
ghost use Rattle.std.specs.Prelude.{◌≡◌, is_some, IfOk, IfSome};
ghost use Rattle.card_state.specs.States.{rows_of};
ghost use Rattle.card_state.specs.Memory.{memory};
ghost use Rattle.card_commits.specs.Entries.{HasRowOn};
ghost use Rattle.applet_trait.specs.Laws.{GivesTimer};
ghost use Rattle.applet_trait.specs.Minds.{fresh};
ghost use Rattle.toolkit_model.specs.Orderly.{CanBeSent};
ghost use Rattle.toolkit_model.specs.Running.{kept_on, run_on};
ghost use Rattle.proactive_handler.specs.Acts.{setting_of, command_of, stage};
ghost use Rattle.proactive_handler.specs.Runs.{answer_of, ended_by, run_of, Runs, MayRun, KeepsRows};

use crate::carrying::carry_out;
use crate::endings::{Next, RunEnd};
use crate::settings::Setting;
use applet_trait::{Act, Applet, Stimulus};
use card_commits::tables_tell_states;
use card_state::{Loaded, states_are_of_entries};
use event_dispatch::Index;
use store_form::{Store, StoreFault};
use timer_table::Timers;
use uicc_types::Shelf;

/// How many acts a run has, at most.
const MOST_ACTS: u8 = 32;

// Wakes the applet of a row, with what the row keeps.
fn wake<B: Applet>(loaded: &Loaded, applet: &mut B, shelf: Shelf)
    requires row { HasRowOn loaded.now shelf.0 }
    ensures { B.mind applet.new ≡ fresh (B.mind applet.old).kind (kept_on (rows_of loaded.now) shelf.0) }
{
    // This call is a law, and does nothing.
    states_are_of_entries();
    let row = &loaded.all_rows()[usize::from(shelf.0)];
    applet.wake(&row.kept);
}

// What an act answers to call control, if it does.
fn answer_of(act: &Act) -> Option<bool>
    ensures { result ≡ answer_of act.now }
{
    match act {
        Act::Answer(allows) => Some(*allows),
        _ => None,
    }
}

// Whether an act has a command for the handset.
fn sends(act: &Act) -> bool
    ensures { result ≡ is_some (command_of act.now) }
{
    matches!(act, Act::Send(_))
}

// So many acts at most, after which the applet wakes. The last act stays in its place.
fn run_on<S: Store, B: Applet>(
    store: &mut S,
    loaded: &mut Loaded,
    index: &mut Index,
    timers: &mut Timers,
    applet: &mut B,
    at: &Setting,
    stimulus: &Stimulus,
    does: &mut Act,
    acts: u8,
) -> Result<RunEnd, StoreFault>
    requires may_run { MayRun (memory S.Store store.old loaded.old) index.old at.now.shelf.0 }
    requires one_of_eight { GivesTimer stimulus.now }
    ensures runs { Runs (run_on acts (setting_of at.now) stimulus.now)
        (stage (memory S.Store store.old loaded.old) timers.old (B.mind applet.old))
        (stage (memory S.Store store.new loaded.new) timers.new (B.mind applet.new)) does.new result }
    ensures exact { IfOk result (λ ending. ending.is_sent ≡ is_some (ended_by does.new ending).sent) }
    ensures sendable { IfOk result (λ ending. IfSome (ended_by does.new ending).sent CanBeSent) }
    ensures same_kind { (B.mind applet.new).kind ≡ (B.mind applet.old).kind }
    ensures keeps { KeepsRows (memory S.Store store.old loaded.old)
        (memory S.Store store.new loaded.new) index.new result }
{
    // This call is a law, and does nothing.
    tables_tell_states();
    if acts == 0 {
        wake(loaded, applet, at.shelf);
        return Ok(RunEnd {
            is_sent: false,
            answer: None,
        });
    }
    applet.step_into(stimulus, does);
    let answer = answer_of(does);
    match carry_out(store, loaded, index, timers, at, does)? {
        Next::Idle => Ok(RunEnd {
            is_sent: false,
            answer,
        }),
        Next::Sent => Ok(RunEnd {
            is_sent: sends(does),
            answer,
        }),
        Next::Told(reply) => {
            let told = reply.stimulus();
            let rest = run_on(
                store,
                loaded,
                index,
                timers,
                applet,
                at,
                &told,
                does,
                acts - 1,
            )?;
            Ok(RunEnd {
                is_sent: rest.is_sent,
                answer: rest.answer.or(answer),
            })
        }
    }
}

/// Runs the applet of a row on a stimulus: what it does is carried out, and it is told how that went, until it is done, sends a
/// command that is admitted, or did 32 acts. After the 32nd it begins anew with the bytes that its row keeps.
///
/// Bytes that it keeps and changes of the codes that it is registered for are committed one by one. Where a commit meets a fault,
/// the run ends with it: the table has the rows before that commit, and the memory these or those after it. Of the index, the timers
/// and the applet, but for its kind, nothing is said then.
///
/// A timer that the stimulus names is one from 1 to 8. The last act stays in its place.
pub fn run_row<S: Store, B: Applet>(
    store: &mut S,
    loaded: &mut Loaded,
    index: &mut Index,
    timers: &mut Timers,
    applet: &mut B,
    at: &Setting,
    stimulus: &Stimulus,
    does: &mut Act,
) -> Result<RunEnd, StoreFault>
    requires may_run { MayRun (memory S.Store store.old loaded.old) index.old at.now.shelf.0 }
    requires one_of_eight { GivesTimer stimulus.now }
    ensures runs { Runs (run_of at.now stimulus.now)
        (stage (memory S.Store store.old loaded.old) timers.old (B.mind applet.old))
        (stage (memory S.Store store.new loaded.new) timers.new (B.mind applet.new)) does.new result }
    ensures exact { IfOk result (λ ending. ending.is_sent ≡ is_some (ended_by does.new ending).sent) }
    ensures sendable { IfOk result (λ ending. IfSome (ended_by does.new ending).sent CanBeSent) }
    ensures same_kind { (B.mind applet.new).kind ≡ (B.mind applet.old).kind }
    ensures keeps { KeepsRows (memory S.Store store.old loaded.old)
        (memory S.Store store.new loaded.new) index.new result }
{
    run_on(
        store, loaded, index, timers, applet, at, stimulus, does, MOST_ACTS,
    )
}
