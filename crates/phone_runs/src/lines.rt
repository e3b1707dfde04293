//! A line of a script after `start`, read, and carried out by a handset that serves the card.
ghost use Rattle.std.specs.Prelude.{◌≡◌, List, ℕ, Err, OnOk};
ghost use Rattle.byte_streams.specs.Reading.{IsWithin};
ghost use Rattle.script_form.specs.declared.lines.ScriptLine.{ScriptLine as AnyLine};
ghost use Rattle.script_reader.specs.Reading.{reading};
ghost use Rattle.run_steps.specs.Ends.{moment_at};
ghost use Rattle.run_steps.specs.Tallies.{tally};
ghost use Rattle.phone_runs.specs.LineTallies.{TalliesLines};
ghost use Rattle.phone_runs.specs.BetweenLines.{EndsAmid, GivesServed, IsBetweenLines, IsLineFurther, IsServing};
ghost use Rattle.phone_runs.specs.Runs.{Beginning};
ghost use Rattle.phone_runs.specs.Serving.{LineIsCarried};

use crate::effects::{PhoneEffect, effect_on_phone};
use crate::playing::hear_line;
use crate::serving::Places;
use applet_trait::Applet;
use byte_streams::{Sink, Source};
use card_model::plans_are_set_in_order;
use run_steps::{CardEnd, Carrier, StepEnd};
use script_form::ScriptLine;
use script_reader::{PlayEnd, ScriptReader, read_behind};
use store_form::Store;
use terminal_side::Phone;

/// Reads the next line after `start` into `line`, and carries it out, as soon as its end was read. What the handset sends goes to the
/// card by the carrier: over a link, which counts its TPDUs, or as it is. The trace is the same over each. It takes no memory.
pub fn serve_line<S: Store, B: Applet, R: Source, W: Sink>(
    script: &mut ScriptReader,
    source: &mut R,
    line: &mut ScriptLine,
    card: &mut CardEnd<S, B>,
    carrier: &mut Carrier,
    phone: &mut Phone,
    places: &mut Places,
    trace: &mut W,
) -> Result<(), PlayEnd>
    requires between { IsBetweenLines script.old phone.old }
    ensures served { (text : List ℕ) (opening : List AnyLine) (given : Beginning)
        → IsServing text opening given script.old (R.left source.old) phone.old
        (moment_at card.old (W.taken trace.old))
        → GivesServed text opening given script.new (R.left source.new) phone.new
        (moment_at card.new (W.taken trace.new)) result }
    ensures further { OnOk result (IsLineFurther script.old script.new phone.new) }
    ensures carried { OnOk result (LineIsCarried phone.old phone.new carrier.old carrier.new) }
    ensures within { (text : List ℕ) → IsWithin text (reading script.old) (R.left source.old)
        → IsWithin text (reading script.new) (R.left source.new) }
    ensures tallies { TalliesLines (tally W.Sink card.old trace.old) (tally W.Sink card.new trace.new)
        (R.faults source.old) (R.faults source.new) (λ end. result ≡ Err end) }
{
    // This call is a law, and does nothing.
    plans_are_set_in_order();
    match read_behind(script, source, line) {
        Err(end) => Err(end),
        Ok(()) => match effect_on_phone(line) {
            PhoneEffect::Nothing => Ok(()),
            PhoneEffect::OutOfPlace => Err(PlayEnd::BadLine(script.number())),
            PhoneEffect::Plans(plan) => {
                card.plan(plan);
                Ok(())
            }
            PhoneEffect::Hears(said) => {
                match hear_line(card, carrier, phone, &said, places, trace) {
                    Ok(()) => Ok(()),
                    Err(end) => Err(end_of(end)),
                }
            }
        },
    }
}

/// Why a run ends in what the handset asked for.
pub fn end_of(end: StepEnd) -> PlayEnd
    ensures { EndsAmid end result }
{
    match end {
        StepEnd::SinkFailed => PlayEnd::SinkFailed,
        StepEnd::ResetFailed => PlayEnd::ResetFailed,
    }
}
