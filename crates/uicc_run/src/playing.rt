//! The rest of a script: what is done to the card, line by line.
ghost use Rattle.std.specs.Prelude.{◌≡◌, ◌<◌, List, ℕ, None, Err, OnOk, true, false};
ghost use Rattle.uicc_types.specs.Counts.{raised};
ghost use Rattle.byte_streams.specs.Reading.{IsWithin};
ghost use Rattle.script_form.specs.declared.lines.ScriptLine.{ScriptLine as AnyLine};
ghost use Rattle.script_reader.specs.Reading.{reading, room_of};
ghost use Rattle.run_steps.specs.Ends.{moment_at};
ghost use Rattle.run_steps.specs.Tallies.{tally};
ghost use Rattle.run_steps.specs.Views.{CardView};
ghost use Rattle.phone_runs.specs.LineTallies.{TalliesLines};
ghost use Rattle.phone_runs.specs.BetweenLines.{IsBetweenLines, IsServing};
ghost use Rattle.phone_runs.specs.Lines.{PhoneComesTo};
ghost use Rattle.phone_runs.specs.Runs.{Beginning};
ghost use Rattle.uicc_run.specs.Opening.{is_handset};
ghost use Rattle.uicc_run.specs.Playing.{CardComesTo, Given, left_at};
ghost use Rattle.uicc_run.specs.BetweenLines.{GivesPlayed, IsPlaying};

use crate::effects::{Effect, effect_of};
use crate::listeners::Listener;
use applet_trait::Applet;
use byte_streams::{Failed, Sink, Source};
use card_model::{plans_are_set_in_order, runs_are_counted};
use phone_runs::{Places, serve_line};
use run_steps::{CardEnd, Carrier, StepEnd, exchange, restart, take_tpdu};
use script_form::ScriptLine;
use script_reader::{PlayEnd, ScriptReader, read_behind};
use store_form::Store;
use t0_link::Link;
use terminal_side::Phone;
use uicc_types::Answer;

/// Carries out the lines after `start` that are left, each as soon as its end was read, and answers why the run ends. A handset does, which
/// serves the card by the carrier and rests before the first of them, or the card itself.
pub(crate) fn play_lines<S: Store, B: Applet, R: Source, W: Sink>(
    listener: Listener,
    script: &mut ScriptReader,
    source: &mut R,
    card: &mut CardEnd<S, B>,
    carrier: &mut Carrier,
    phone: &mut Phone,
    places: &mut Places,
    trace: &mut W,
) -> PlayEnd
    requires between { is_handset listener ≡ true → IsBetweenLines script.old phone.old }
    // By what is known of the card: the card itself where its memory tells its bytes, and its power over any memory.
    ensures played { (given : Given) (first : CardView) → is_handset listener ≡ false
        → IsPlaying given first script.old (R.left source.old) None (moment_at card.old (W.taken trace.old))
        → CardComesTo given first (R.left source.new) result (left_at (moment_at card.new (W.taken trace.new))) }
    ensures served { (text : List ℕ) (opening : List AnyLine) (given : Beginning) → is_handset listener ≡ true
        → IsServing text opening given script.old (R.left source.old) phone.old
        (moment_at card.old (W.taken trace.old))
        → PhoneComesTo text opening given (R.left source.new) result (moment_at card.new (W.taken trace.new)) }
    ensures within { (text : List ℕ) → IsWithin text (reading script.old) (R.left source.old)
        → IsWithin text (reading script.new) (R.left source.new) }
    ensures tallies { TalliesLines (tally W.Sink card.old trace.old) (tally W.Sink card.new trace.new)
        (R.faults source.old) (R.faults source.new) (λ end. result ≡ end) }
{
    let mut line = ScriptLine::Passed;
    let mut link = Link::new();
    let mut answer = Answer::new();
    loop {
        match listener {
            Listener::Card => {
                if let Err(end) = play_line(
                    script,
                    source,
                    &mut line,
                    card,
                    &mut link,
                    carrier,
                    &mut answer,
                    trace,
                ) {
                    return end;
                }
            }
            Listener::Handset(_) => {
                if let Err(end) = serve_line(
                    script, source, &mut line, card, carrier, phone, places, trace,
                ) {
                    return end;
                }
            }
        }
    }
}

/// Reads one line into `line`, and carries it out.
fn play_line<S: Store, B: Applet, R: Source, W: Sink>(
    script: &mut ScriptReader,
    source: &mut R,
    line: &mut ScriptLine,
    card: &mut CardEnd<S, B>,
    link: &mut Link,
    carrier: &mut Carrier,
    answer: &mut Answer,
    trace: &mut W,
) -> Result<(), PlayEnd>
    ensures played { (given : Given) (first : CardView)
        → IsPlaying given first script.old (R.left source.old) link.old.kept (moment_at card.old (W.taken trace.old))
        → GivesPlayed given first script.new (R.left source.new) link.new.kept
        (moment_at card.new (W.taken trace.new)) result }
    ensures within { (text : List ℕ) → IsWithin text (reading script.old) (R.left source.old)
        → IsWithin text (reading script.new) (R.left source.new) }
    ensures failed { result ≡ Err PlayEnd.ResetFailed
        → card.new.parts.meter.faults ≡ raised card.old.parts.meter.faults }
    ensures tallies { TalliesLines (tally W.Sink card.old trace.old) (tally W.Sink card.new trace.new)
        (R.faults source.old) (R.faults source.new) (λ end. result ≡ Err end) }
    ensures nearer { OnOk result (room_of script.new < room_of script.old) }
{
    // These calls are laws, and do nothing.
    runs_are_counted();
    plans_are_set_in_order();
    match read_behind(script, source, line) {
        Err(end) => Err(end),
        Ok(()) => match effect_of(line) {
            Effect::Nothing => Ok(()),
            Effect::OutOfPlace => Err(PlayEnd::BadLine(script.number())),
            Effect::Sends(apdu) => {
                link.clear();
                match exchange(card, carrier, apdu, answer, trace) {
                    Ok(_) => Ok(()),
                    Err(Failed) => Err(PlayEnd::SinkFailed),
                }
            }
            Effect::Transfers(tpdu) => match take_tpdu(link, card, tpdu, answer, trace) {
                Ok(()) => Ok(()),
                Err(Failed) => Err(PlayEnd::SinkFailed),
            },
            Effect::Resets => {
                link.clear();
                match restart(card, trace) {
                    Ok(_) => Ok(()),
                    Err(StepEnd::SinkFailed) => Err(PlayEnd::SinkFailed),
                    Err(StepEnd::ResetFailed) => Err(PlayEnd::ResetFailed),
                }
            }
            Effect::Plans(plan) => {
                card.plan(plan);
                Ok(())
            }
        },
    }
}
