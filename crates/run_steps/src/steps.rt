//! What is done to the card, and what the trace shows of it.
ghost use Rattle.std.specs.Prelude.{◌≡◌, ◌≤◌, Err, IsErr, OnOk, OnErr, is_some, length};
ghost use Rattle.std.specs.Io.KnownBytes.{append_known};
ghost use Rattle.uicc_types.specs.Counts.{raised};
ghost use Rattle.uicc_types.specs.Told.{Becomes};
ghost use Rattle.uicc_types.specs.declared.byte_lists.TheConstants.{LONGEST_COMMAND};
ghost use Rattle.byte_streams.specs.Streams.{CountsEach, TakesFront};
ghost use Rattle.script_form.specs.Traces.{trace_text};
ghost use Rattle.t0_link.specs.Carrying.{tpdus_for};
ghost use Rattle.run_steps.specs.Carriers.{Carries};
ghost use Rattle.run_steps.specs.Ends.{moment_at};
ghost use Rattle.run_steps.specs.Runs.{item_text, line_of};
ghost use Rattle.run_steps.specs.Taking.{GivesCommand, GivesReset, seen, shown_of};
ghost use Rattle.run_steps.specs.Stepping.{IsSeen};
ghost use Rattle.run_steps.specs.Tallies.{Tallies, tally};
ghost use Rattle.run_steps.specs.Views.{CardView};

use crate::carriers::Carrier;
use crate::ends::CardEnd;
use applet_trait::Applet;
use byte_streams::{Failed, Sink};
use card_model::runs_are_counted;
use script_form::{TraceLine, write_answer, write_command, write_trace};
use store_form::Store;
use t0_link::LinkFault;
use uicc_types::Answer;

/// Why a reset is the last step.
#[derive(Clone, Copy, Debug, PartialEq, Eq)]
pub enum StepEnd {
    /// The trace could not be written on.
    SinkFailed,
    /// The memory failed in a reset. The trace says so.
    ResetFailed,
}

/// What came of a reset in which the memory did not fail.
#[derive(Clone, Copy, Debug, PartialEq, Eq)]
pub enum Restarted {
    /// The card was reset.
    Done,
    /// Power was lost in it.
    Cut,
}

/// The memory failed in a reset.
#[derive(Clone, Copy, Debug, PartialEq, Eq)]
pub struct MemoryFailed;

/// Sends a command to the card, as it is or over a link, and answers what came of it; an answer stands in `answer`. The command's
/// line is written first, and where the sink fails in it, the card is sent nothing. The trace is the same over either carrier; over a link
/// that carries the command its TPDUs are counted there. Each command passes through it, so it is inlined.
#[inline(always)]
pub fn exchange<S: Store, B: Applet, W: Sink>(
    end: &mut CardEnd<S, B>,
    carrier: &mut Carrier,
    apdu: &[u8],
    answer: &mut Answer,
    trace: &mut W,
) -> Result<Result<(), LinkFault>, Failed>
    requires short { length apdu.now ≤ LONGEST_COMMAND }
    // By what is known of the card: the card itself where its memory tells its bytes, and its power over any memory.
    ensures gives { (old : CardView) → IsSeen old (moment_at end.old (W.taken trace.old))
        → GivesCommand result apdu.now answer.new old (moment_at end.old (W.taken trace.old))
        (moment_at end.new (W.taken trace.new)) }
    ensures carries { OnOk result (Carries (tpdus_for apdu.now answer.new.body) carrier.old carrier.new) }
    ensures tallies { Tallies (tally W.Sink end.old trace.old) (tally W.Sink end.new trace.new) (IsErr result) }
{
    // This call is a law, and does nothing.
    runs_are_counted();
    match write_command(trace, apdu) {
        Ok(()) => {
            let is_set = end.set_plan();
            let outcome = carrier.send(end, apdu, answer);
            end.clear_plan(is_set);
            match write_reply(trace, outcome, answer) {
                Ok(()) => Ok(outcome),
                Err(Failed) => Err(Failed),
            }
        }
        Err(Failed) => Err(Failed),
    }
}

/// Writes what came of a command.
pub(crate) fn write_reply<W: Sink>(
    trace: &mut W,
    outcome: Result<(), LinkFault>,
    answer: &Answer,
) -> Result<(), Failed>
    ensures ok { OnOk result (W.taken trace.new ≡ append_known (W.taken trace.old)
        (item_text (seen outcome answer.now))) }
    ensures err { OnErr result (Becomes (TakesFront (item_text (seen outcome answer.now)))
        (W.taken trace.old) (W.taken trace.new)) }
    ensures cause { CountsEach (W.faults trace.old) (W.faults trace.new) (IsErr result) }
    ensures tells { is_some (W.taken trace.new) ≡ is_some (W.taken trace.old) }
{
    match outcome {
        Ok(()) => match write_answer(trace, answer) {
            Ok(()) => Ok(()),
            Err(Failed) => Err(Failed),
        },
        Err(fault) => match fault {
            LinkFault::PowerLost => write_step(trace, &TraceLine::Cut),
            LinkFault::NoPower => write_step(trace, &TraceLine::Off),
        },
    }
}

/// Resets the card, and answers what came of it.
pub fn restart<S: Store, B: Applet, W: Sink>(
    end: &mut CardEnd<S, B>,
    trace: &mut W,
) -> Result<Restarted, StepEnd>
    // By what is known of the card: the card itself where its memory tells its bytes, and its power over any memory.
    ensures gives { (old : CardView) → IsSeen old (moment_at end.old (W.taken trace.old))
        → GivesReset result old (moment_at end.old (W.taken trace.old)) (moment_at end.new (W.taken trace.new)) }
    ensures failed { result ≡ Err StepEnd.ResetFailed
        → end.new.parts.meter.faults ≡ raised end.old.parts.meter.faults }
    ensures tallies { Tallies (tally W.Sink end.old trace.old) (tally W.Sink end.new trace.new)
        (result ≡ Err StepEnd.SinkFailed) }
{
    // This call is a law, and does nothing.
    runs_are_counted();
    let is_set = end.set_plan();
    let outcome = end.reset();
    end.clear_plan(is_set);
    match write_step(trace, &reset_line(outcome)) {
        Ok(()) => match outcome {
            Ok(restarted) => Ok(restarted),
            Err(MemoryFailed) => Err(StepEnd::ResetFailed),
        },
        Err(Failed) => Err(StepEnd::SinkFailed),
    }
}

/// The line that shows what came of a reset.
fn reset_line(outcome: Result<Restarted, MemoryFailed>) -> TraceLine
    ensures { result ≡ line_of (shown_of outcome) }
{
    match outcome {
        Ok(Restarted::Done) => TraceLine::Reset,
        Ok(Restarted::Cut) => TraceLine::Cut,
        Err(MemoryFailed) => TraceLine::EepromFailed,
    }
}

/// Writes a line of a step. Few steps have one, so it is out of the way of the others.
#[inline(never)]
fn write_step<W: Sink>(trace: &mut W, line: &TraceLine) -> Result<(), Failed>
    ensures ok { OnOk result (W.taken trace.new ≡ append_known (W.taken trace.old) (trace_text line.now)) }
    ensures err { OnErr result (Becomes (TakesFront (trace_text line.now)) (W.taken trace.old) (W.taken trace.new)) }
    ensures cause { CountsEach (W.faults trace.old) (W.faults trace.new) (IsErr result) }
    ensures tells { is_some (W.taken trace.new) ≡ is_some (W.taken trace.old) }
{
    match write_trace(trace, line) {
        Ok(()) => Ok(()),
        Err(Failed) => Err(Failed),
    }
}
