//! ENVELOPE.
ghost use Rattle.std.specs.Prelude.{◌≡◌, ◌≢◌, ◌≤◌, [], ◌∷◌, ℕ, length, false, All, Ok, IfOk};
ghost use Rattle.card_state.specs.States.{rows_of};
ghost use Rattle.card_state.specs.Memory.{memory};
ghost use Rattle.toolkit_commands.specs.declared.envelopes.Envelope.{Envelope};
ghost use Rattle.toolkit_commands.specs.Reports.{reported};
ghost use Rattle.applet_trait.specs.Minds.{minds_of};
ghost use Rattle.toolkit_model.specs.Commands.{enveloped, triggered, trigger_of, is_busy, last_answer};
ghost use Rattle.proactive_handler.specs.Boxes.{IsSameBox, AreForOthers};
ghost use Rattle.proactive_handler.specs.Steps.{toolkit, scene, Moves};
ghost use Rattle.proactive_handler.specs.Scenes.{KeepsScene};
ghost use Rattle.card_model.specs.Toolkit.{envelope_taken};
ghost use Rattle.cat_commands.specs.Trying.{envelope_tried, reported_in, data_for};
ghost use Rattle.cat_commands.specs.Bounds.{IsBetweenCommands, EndsToolkitWell};
ghost use Rattle.cat_commands.specs.Carrying.{CarriesOut};
ghost use Rattle.cat_commands.specs.Triggers.{IsTriggerOf};

use crate::forms::try_envelope;
use crate::telling::tell;
use crate::triggers::{Trigger, is_busy, is_call, trigger_of};
use apdu_form::Command;
use applet_trait::Applet;
use card_commits::tables_tell_states;
use card_state::Loaded;
use event_dispatch::Index;
use proactive_handler::{Session, sessions_are_served};
use store_form::{Store, StoreFault};
use toolkit_commands::EnvelopeRef;
use toolkit_model::sessions_stay_in_order;
use uicc_types::{Answer, AnswerData, Full, StatusWord};

// User activity and the idle screen are reported once.
fn note_reported(session: &mut Session, envelope: &EnvelopeRef<'_>)
    ensures { session.new ≡ reported_in (reported envelope.now) session.old }
{
    if let EnvelopeRef::Event { code, .. } = envelope {
        session.reported(*code);
    }
}

// The applets run that the envelope triggers, or are told late; then the command ends. Answers the last answer to call control.
fn report<S: Store, B: Applet>(
    store: &mut S,
    loaded: &mut Loaded,
    index: &mut Index,
    cast: &mut [Option<B>],
    session: &mut Session,
    envelope: &EnvelopeRef<'_>,
    trigger: &Trigger<'_>,
) -> Result<Option<bool>, StoreFault>
    requires rests { IsBetweenCommands
        (scene (memory S.Store store.old loaded.old) index.old session.old (minds_of B.mind cast.old)) cast.old }
    requires trigger { IsTriggerOf loaded.old
        (trigger_of (rows_of loaded.old) session.old.timers (reported envelope.now)) trigger.now }
    requires room { is_busy (reported envelope.now)
        (toolkit (scene (memory S.Store store.old loaded.old) index.old session.old (minds_of B.mind cast.old)))
        ≡ false }
    ensures moves { Moves (enveloped (reported envelope.now))
        (scene (memory S.Store store.old loaded.old) index.old session.old (minds_of B.mind cast.old))
        (scene (memory S.Store store.new loaded.new) index.new session.new (minds_of B.mind cast.new)) result }
    ensures answer { IfOk result (λ answer. answer ≡ last_answer (triggered (reported envelope.now)
        (toolkit (scene (memory S.Store store.old loaded.old) index.old session.old (minds_of B.mind cast.old)))).log) }
    ensures untold { (other : ℕ) → All (λ shelf. shelf ≢ other) trigger.now.shelves
        → AreForOthers other session.old.late → IsSameBox other cast.old cast.new }
    ensures keeps { KeepsScene
        (scene (memory S.Store store.old loaded.old) index.old session.old (minds_of B.mind cast.old))
        (scene (memory S.Store store.new loaded.new) index.new session.new (minds_of B.mind cast.new)) result }
{
    // This call is a law, and does nothing.
    sessions_are_served();
    note_reported(session, envelope);
    tell(
        store,
        loaded,
        index,
        cast,
        session,
        &trigger.shelves,
        trigger.code,
        trigger.body,
        true,
    )
}

// The result of call control, in an answer that is empty before.
fn put_result(body: &mut AnswerData, permission: u8)
    requires { body.old ≡ [] }
    ensures { body.new ≡ permission ∷ 0x00 ∷ [] }
{
    match body.append(&[permission, 0x00]) {
        Ok(()) => {}
        Err(Full) => unreachable!(),
    }
}

// Call control is answered that the call is not allowed, or that it is (ETSI TS 102 223, 7.3.1.6), in an answer that is empty before.
// Other envelopes are answered without data.
fn put_data(envelope: &EnvelopeRef<'_>, answer: Option<bool>, body: &mut AnswerData)
    requires { body.old ≡ [] }
    ensures { body.new ≡ data_for (reported envelope.now) answer }
{
    if !is_call(envelope) {
        return;
    }
    match answer {
        Some(false) => put_result(body, 0x01),
        _ => put_result(body, 0x00),
    }
}

/// ENVELOPE (ETSI TS 102 221, 11.2.2): the applets that it triggers run, each that is idle, and for the others it is kept. Then the
/// command ends as each that moves the toolkit. Call control is answered with what the last applet answered to it, or else that
/// the call is allowed.
///
/// Over any store there is one commit for each state that it passes. The boxes of applets that are told nothing are left as they are,
/// also where a commit meets a fault.
///
/// Where a commit meets a fault, those before it are counted and no other, the answer is empty, the table has the rows
/// before that commit, and the memory these or those after it; of the index, the session and the minds of the applets
/// that are told something nothing is said then.
pub fn take_envelope<S: Store, B: Applet>(
    store: &mut S,
    loaded: &mut Loaded,
    index: &mut Index,
    cast: &mut [Option<B>],
    session: &mut Session,
    command: &Command<'_>,
    out: &mut Answer,
) -> Result<(), StoreFault>
    requires rests { IsBetweenCommands
        (scene (memory S.Store store.old loaded.old) index.old session.old (minds_of B.mind cast.old)) cast.old }
    requires short { length command.now.body ≤ 255 }
    ensures carries { CarriesOut (λ card. envelope_taken card command.now) out.new
        (scene (memory S.Store store.old loaded.old) index.old session.old (minds_of B.mind cast.old))
        (scene (memory S.Store store.new loaded.new) index.new session.new (minds_of B.mind cast.new)) result }
    ensures untold { (other : ℕ) → ((envelope : Envelope) → envelope_tried command.now ≡ Ok envelope
        → All (λ shelf. shelf ≢ other) (trigger_of (rows_of loaded.old) session.old.timers envelope).shelves)
        → AreForOthers other session.old.late → IsSameBox other cast.old cast.new }
    ensures keeps { KeepsScene
        (scene (memory S.Store store.old loaded.old) index.old session.old (minds_of B.mind cast.old))
        (scene (memory S.Store store.new loaded.new) index.new session.new (minds_of B.mind cast.new)) result }
    ensures ends { EndsToolkitWell out.new
        (scene (memory S.Store store.new loaded.new) index.new session.new (minds_of B.mind cast.new)) result }
{
    // These calls are laws, and do nothing.
    tables_tell_states();
    sessions_are_served();
    sessions_stay_in_order();
    out.body.clear();
    match try_envelope(command) {
        Ok(envelope) => {
            let trigger = trigger_of(loaded, index, session, &envelope);
            if is_busy(session, &envelope, &trigger.shelves) {
                out.status = StatusWord::TOOLKIT_BUSY;
                return Ok(());
            }
            let answer = report(store, loaded, index, cast, session, &envelope, &trigger)?;
            put_data(&envelope, answer, &mut out.body);
            out.status = StatusWord::DONE;
            Ok(())
        }
        Err(status) => {
            out.status = status;
            Ok(())
        }
    }
}
