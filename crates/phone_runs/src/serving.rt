//! What the handset asks for, done one after the other.
ghost use Rattle.std.specs.Prelude.{◌≡◌, ◌∷◌, List, Ok, Err, OnOk, true, false};
ghost use Rattle.uicc_types.specs.Counts.{Rose, raised};
ghost use Rattle.handset_model.specs.History.{Happened};
ghost use Rattle.handset_model.specs.declared.known.Duty.TheVariants as duty;
ghost use Rattle.terminal_side.specs.Kept.{kept};
ghost use Rattle.run_steps.specs.Ends.{moment_at};
ghost use Rattle.run_steps.specs.Tallies.{Tallies, tally};
ghost use Rattle.phone_runs.specs.Logs.{Event, lines_back};
ghost use Rattle.phone_runs.specs.Runs.{Beginning};
ghost use Rattle.phone_runs.specs.Settling.{GoesFurther, IsAt, Settles};
ghost use Rattle.phone_runs.specs.Serving.{CarriesMore, IsAtRest, IsPhoneServed, IsServedMore, replied, reset_by};

use applet_trait::Applet;
use byte_streams::{Failed, Sink};
use card_model::{plans_are_set_in_order, runs_are_counted};
use handset_model::lines_end;
use run_steps::{CardEnd, Carrier, Restarted, StepEnd, exchange, restart};
use script_form::{Note, write_note};
use store_form::Store;
use t0_link::LinkFault;
use terminal_side::{Next, Phone};
use uicc_types::{Answer, ApduBytes};

/// The places of what goes between a handset and its card, which are used again for each command.
#[derive(Debug, Drop)]
pub struct Places {
    // What the handset sends, and what it notes.
    apdu: ApduBytes,
    note: Note,
    // What the card answers.
    answer: Answer,
}

impl Places {
    /// The places of a run.
    pub fn new() -> Places {
        Places {
            apdu: ApduBytes::new(),
            note: Note::Call,
            answer: Answer::new(),
        }
    }
}

/// Does all that the handset asks for, until it rests.
pub fn settle<S: Store, B: Applet, W: Sink>(
    card: &mut CardEnd<S, B>,
    carrier: &mut Carrier,
    phone: &mut Phone,
    places: &mut Places,
    trace: &mut W,
) -> Result<(), StepEnd>
    requires served { IsPhoneServed phone.old }
    ensures settles { (given : Beginning) (log : List Event)
        → IsAt given log phone.old (moment_at card.old (W.taken trace.old))
        → Settles given (lines_back log) phone.new (moment_at card.new (W.taken trace.new)) result }
    ensures rest { OnOk result (IsAtRest phone.new) }
    ensures clock { OnOk result (phone.new.known.clock ≡ phone.old.known.clock) }
    ensures carried { OnOk result (CarriesMore phone.old phone.new carrier.old carrier.new) }
    ensures failed { result ≡ Err StepEnd.ResetFailed
        → Rose card.old.parts.meter.faults card.new.parts.meter.faults }
    ensures tallies { Tallies (tally W.Sink card.old trace.old) (tally W.Sink card.new trace.new)
        (result ≡ Err StepEnd.SinkFailed) }
{
    loop {
        match serve(card, carrier, phone, places, trace) {
            Ok(true) => {}
            Ok(false) => return Ok(()),
            Err(end) => return Err(end),
        }
    }
}

/// Does the next thing that the handset asks for, and answers whether there was one.
fn serve<S: Store, B: Applet, W: Sink>(
    card: &mut CardEnd<S, B>,
    carrier: &mut Carrier,
    phone: &mut Phone,
    places: &mut Places,
    trace: &mut W,
) -> Result<bool, StepEnd>
    requires served { IsPhoneServed phone.old }
    ensures further { (given : Beginning) (log : List Event)
        → IsAt given log phone.old (moment_at card.old (W.taken trace.old))
        → GoesFurther given (lines_back log) phone.new (moment_at card.new (W.taken trace.new)) result }
    ensures more { result ≡ Ok true → IsServedMore phone.old phone.new }
    ensures rests { result ≡ Ok false → phone.new.asked ≡ duty.Rest }
    ensures same { result ≡ Ok false → phone.new ≡ phone.old }
    ensures carried { OnOk result (CarriesMore phone.old phone.new carrier.old carrier.new) }
    ensures failed { result ≡ Err StepEnd.ResetFailed
        → card.new.parts.meter.faults ≡ raised card.old.parts.meter.faults }
    ensures tallies { Tallies (tally W.Sink card.old trace.old) (tally W.Sink card.new trace.new)
        (result ≡ Err StepEnd.SinkFailed) }
{
    // These calls are laws, and do nothing.
    runs_are_counted();
    plans_are_set_in_order();
    lines_end();
    match phone.next_into(&mut places.apdu, &mut places.note) {
        Next::Nothing => Ok(false),
        Next::Send => {
            let apdu = places.apdu.as_slice();
            match exchange(card, carrier, apdu, &mut places.answer, trace) {
                Ok(outcome) => {
                    hear(phone, outcome, &places.answer);
                    Ok(true)
                }
                Err(Failed) => Err(StepEnd::SinkFailed),
            }
        }
        Next::Reset => match restart(card, trace) {
            Ok(restarted) => {
                begin_anew(phone, restarted);
                Ok(true)
            }
            Err(end) => Err(end),
        },
        Next::Show => match write_note(trace, &places.note) {
            Ok(()) => Ok(true),
            Err(Failed) => Err(StepEnd::SinkFailed),
        },
    }
}

/// Tells the handset what came of its command.
fn hear(phone: &mut Phone, outcome: Result<(), LinkFault>, answer: &Answer)
    ensures { (h : List Happened) → phone.old ≡ kept h → phone.new ≡ kept (replied outcome answer.now ∷ h) }
{
    match outcome {
        Ok(()) => phone.take_answer(answer),
        Err(LinkFault::PowerLost | LinkFault::NoPower) => phone.lost_power(),
    }
}

/// Tells the handset what came of the reset that it asked for.
fn begin_anew(phone: &mut Phone, restarted: Restarted)
    ensures { (h : List Happened) → phone.old ≡ kept h → phone.new ≡ kept (reset_by restarted ∷ h) }
{
    match restarted {
        Restarted::Done => phone.start(),
        Restarted::Cut => phone.lost_power(),
    }
}
