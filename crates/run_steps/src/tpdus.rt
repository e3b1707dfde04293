//! A TPDU in a run.
ghost use Rattle.std.specs.Prelude.{◌≡◌, ◌≤◌, Option, IsErr, length};
ghost use Rattle.uicc_types.specs.declared.answers.Answer.{Answer as AnyAnswer};
ghost use Rattle.uicc_types.specs.declared.byte_lists.TheConstants.{LONGEST_COMMAND};
ghost use Rattle.t0_link.specs.Exchanging.{IsPassed};
ghost use Rattle.t0_link.specs.Linking.{link_answer};
ghost use Rattle.run_steps.specs.Ends.{moment_at};
ghost use Rattle.run_steps.specs.TakingTpdus.{Delivers, GivesTpdu, IsPrepared};
ghost use Rattle.run_steps.specs.Taking.{machine_of, seen};
ghost use Rattle.run_steps.specs.Stepping.{IsSeen, IsSeenBy};
ghost use Rattle.run_steps.specs.Tallies.{Tallies, tally};
ghost use Rattle.run_steps.specs.Views.{CardView};

use crate::ends::CardEnd;
use crate::steps::write_reply;
use applet_trait::Applet;
use byte_streams::{Failed, Sink};
use card_model::runs_are_counted;
use script_form::write_command;
use store_form::Store;
use t0_link::{Link, LinkFault, is_passed};
use uicc_types::Answer;

// Sets the plan that waits, where an APDU is passed, and answers whether the device was given one.
fn prepare<S: Store, B: Applet>(end: &mut CardEnd<S, B>, tpdu: &[u8]) -> bool
    ensures { (kept : Option AnyAnswer) → IsPrepared (link_answer kept tpdu.now) end.old result end.new }
{
    let passed = is_passed(tpdu);
    if passed { end.set_plan() } else { false }
}

// Gives the link a TPDU, and answers what came of it; an answer stands in `answer`.
fn deliver<S: Store, B: Applet>(
    link: &mut Link,
    end: &mut CardEnd<S, B>,
    tpdu: &[u8],
    answer: &mut Answer,
) -> Result<(), LinkFault>
    ensures delivers { (old : CardView) → IsSeenBy old (machine_of end.old.parts) end.old.parts.is_on
        → Delivers old (link_answer link.old.kept tpdu.now) (seen result answer.new) link.new.kept end.old end.new }
    ensures stays { (IsPassed (link_answer link.old.kept tpdu.now) → ⊥) → end.new ≡ end.old }
    ensures kept { end.old.parts.meter.faults ≤ end.new.parts.meter.faults }
{
    // This call is a law, and does nothing.
    runs_are_counted();
    let is_set = prepare(end, tpdu);
    let outcome = link.exchange(end, tpdu, answer);
    end.clear_plan(is_set);
    outcome
}

/// Takes a TPDU, and writes what it comes to: its own line, and the link's answer, or that power was lost or was not there. Where the
/// link passes an APDU, the plan that waits is set before. Where the sink fails in the first line, the link is given nothing. `answer`
/// is a place for the link's answer.
pub fn take_tpdu<S: Store, B: Applet, W: Sink>(
    link: &mut Link,
    end: &mut CardEnd<S, B>,
    tpdu: &[u8],
    answer: &mut Answer,
    trace: &mut W,
) -> Result<(), Failed>
    requires { length tpdu.now ≤ LONGEST_COMMAND }
    // By what is known of the card: the card itself where its memory tells its bytes, and its power over any memory.
    ensures gives { (old : CardView) → IsSeen old (moment_at end.old (W.taken trace.old))
        → GivesTpdu result old tpdu.now (link_answer link.old.kept tpdu.now) link.old.kept link.new.kept
        (moment_at end.old (W.taken trace.old)) (moment_at end.new (W.taken trace.new)) }
    ensures stays { (IsPassed (link_answer link.old.kept tpdu.now) → ⊥) → end.new ≡ end.old }
    ensures tallies { Tallies (tally W.Sink end.old trace.old) (tally W.Sink end.new trace.new) (IsErr result) }
{
    match write_command(trace, tpdu) {
        Ok(()) => {
            let outcome = deliver(link, end, tpdu, answer);
            match write_reply(trace, outcome, answer) {
                Ok(()) => Ok(()),
                Err(Failed) => Err(Failed),
            }
        }
        Err(Failed) => Err(Failed),
    }
}
