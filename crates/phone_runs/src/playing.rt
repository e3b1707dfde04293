//! The lines of a script, carried out by a handset.
ghost use Rattle.std.specs.Prelude.{◌≡◌, ◌<◌, ◌+◌, ◌^◌, ◌∷◌, [], List, Err, OnOk};
ghost use Rattle.uicc_types.specs.Counts.{Rose};
ghost use Rattle.handset_model.specs.History.{span_of};
ghost use Rattle.handset_model.specs.Legal.{IsBounded};
ghost use Rattle.terminal_side.specs.Kept.{unstarted};
ghost use Rattle.run_steps.specs.Carriers.{Carries};
ghost use Rattle.run_steps.specs.Ends.{moment_at};
ghost use Rattle.run_steps.specs.Tallies.{Tallies, tally};
ghost use Rattle.phone_runs.specs.Logs.{Event, Hears, lines_back};
ghost use Rattle.phone_runs.specs.Playing.{Begins};
ghost use Rattle.phone_runs.specs.Runs.{Beginning};
ghost use Rattle.phone_runs.specs.Settling.{IsAt, Settles};
ghost use Rattle.phone_runs.specs.Serving.{IsAtRest};

use crate::serving::{Places, settle};
use applet_trait::Applet;
use byte_streams::Sink;
use run_steps::{CardEnd, Carrier, StepEnd};
use script_form::HandsetLine;
use store_form::Store;
use terminal_side::Phone;

/// Starts a new handset on a card that was just opened, and does all that it asks for at first.
pub fn start_phone<S: Store, B: Applet, W: Sink>(
    card: &mut CardEnd<S, B>,
    carrier: &mut Carrier,
    phone: &mut Phone,
    places: &mut Places,
    trace: &mut W,
) -> Result<(), StepEnd>
    requires new { phone.old ≡ unstarted }
    ensures starts { (given : Beginning) → Begins given (moment_at card.old (W.taken trace.old))
        → Settles given [] phone.new (moment_at card.new (W.taken trace.new)) result }
    ensures rest { OnOk result (IsAtRest phone.new) }
    ensures clock { OnOk result (phone.new.known.clock ≡ 0) }
    ensures carried { OnOk result (Carries phone.new.known.commands carrier.old carrier.new) }
    ensures failed { result ≡ Err StepEnd.ResetFailed
        → Rose card.old.parts.meter.faults card.new.parts.meter.faults }
    ensures tallies { Tallies (tally W.Sink card.old trace.old) (tally W.Sink card.new trace.new)
        (result ≡ Err StepEnd.SinkFailed) }
{
    phone.start();
    settle(card, carrier, phone, places, trace)
}

/// Hands a line to the handset, and does all that it asks for then.
pub fn hear_line<S: Store, B: Applet, W: Sink>(
    card: &mut CardEnd<S, B>,
    carrier: &mut Carrier,
    phone: &mut Phone,
    line: &HandsetLine,
    places: &mut Places,
    trace: &mut W,
) -> Result<(), StepEnd>
    requires rest { IsAtRest phone.old }
    requires bounded { IsBounded line.now }
    requires time { phone.old.known.clock + span_of line.now < 2 ^ 63 }
    ensures plays { (given : Beginning) (log : List Event)
        → IsAt given log phone.old (moment_at card.old (W.taken trace.old))
        → Settles given (Hears line.now ∷ lines_back log) phone.new (moment_at card.new (W.taken trace.new))
        result }
    ensures rest { OnOk result (IsAtRest phone.new) }
    ensures clock { OnOk result (phone.new.known.clock ≡ phone.old.known.clock + span_of line.now) }
    ensures carried { OnOk result (Carries phone.new.known.commands carrier.old carrier.new) }
    ensures failed { result ≡ Err StepEnd.ResetFailed
        → Rose card.old.parts.meter.faults card.new.parts.meter.faults }
    ensures tallies { Tallies (tally W.Sink card.old trace.old) (tally W.Sink card.new trace.new)
        (result ≡ Err StepEnd.SinkFailed) }
{
    phone.hear(line);
    settle(card, carrier, phone, places, trace)
}
