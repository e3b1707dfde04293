//! The lines of a long run, and what is counted in its trace.
ghost use Rattle.std.specs.Prelude.{◌≡◌, ◌<◌, ◌≤◌, ◌+◌, ◌*◌, ◌^◌, [], List, Some, Ok, IsErr, OnOk, length, true};
ghost use Rattle.uicc_types.specs.Counts.{Rose};
ghost use Rattle.script_form.specs.declared.handset.HandsetLine.{HandsetLine as AnyLine};
ghost use Rattle.run_steps.specs.Ends.{moment_at};
ghost use Rattle.long_runs.specs.LoadLines.{made_lines};
ghost use Rattle.long_runs.specs.declared.load_lines.TheConstants.{LONGEST_SPAN};
ghost use Rattle.phone_runs.specs.LoadingLines.{Gives, GivesAll, GivesServed, IsLoading};
ghost use Rattle.phone_runs.specs.Playing.{Begins};
ghost use Rattle.phone_runs.specs.Runs.{Beginning};
ghost use Rattle.phone_runs.specs.Serving.{IsAtRest};

use crate::playing::{hear_line, start_phone};
use crate::serving::Places;
use applet_trait::Applet;
use long_runs::{CountingSink, Counts, LoadLines};
use run_steps::{CardEnd, Carrier, MemoryFailed, StepEnd};
use store_form::Store;
use terminal_side::Phone;

/// Starts a handset on a card that was just opened, has it carry out `count` lines that are made from the number `start`, and
/// counts what its trace would show. It takes no memory.
pub fn count_lines<S: Store, B: Applet>(
    card: &mut CardEnd<S, B>,
    start: u32,
    count: u32,
) -> Result<Counts, MemoryFailed>
    ensures counts { (given : Beginning) → given.before ≡ Some [] → Begins given (moment_at card.old (Some []))
        → Gives (made_lines start count) given card.new.parts result }
    ensures kept { card.old.parts.meter.faults ≤ card.new.parts.meter.faults }
    ensures failed { IsErr result → Rose card.old.parts.meter.faults card.new.parts.meter.faults }
{
    let mut carrier = Carrier::Direct;
    let mut places = Places::new();
    let mut phone = Phone::new();
    let mut sink = CountingSink::new();
    match start_phone(card, &mut carrier, &mut phone, &mut places, &mut sink) {
        Ok(()) => {
            let mut lines = LoadLines::new(start, count);
            match serve_all(
                card,
                &mut lines,
                &mut carrier,
                &mut phone,
                &mut places,
                &mut sink,
            ) {
                Ok(()) => Ok(sink.counts()),
                Err(failed) => Err(failed),
            }
        }
        Err(StepEnd::ResetFailed) => Err(MemoryFailed),
        Err(StepEnd::SinkFailed) => unreachable!(),
    }
}

/// Carries out all lines that are to come.
fn serve_all<S: Store, B: Applet>(
    card: &mut CardEnd<S, B>,
    lines: &mut LoadLines,
    carrier: &mut Carrier,
    phone: &mut Phone,
    places: &mut Places,
    sink: &mut CountingSink,
) -> Result<(), MemoryFailed>
    requires rest { IsAtRest phone.old }
    requires clock { phone.old.known.clock + length lines.old * LONGEST_SPAN < 2 ^ 63 }
    ensures served { (made : List AnyLine) (given : Beginning)
        → IsLoading made given lines.old phone.old (moment_at card.old (Some sink.old))
        → GivesAll made given phone.new (moment_at card.new (Some sink.new)) result }
    ensures kept { card.old.parts.meter.faults ≤ card.new.parts.meter.faults }
    ensures failed { IsErr result → Rose card.old.parts.meter.faults card.new.parts.meter.faults }
{
    loop {
        match serve_next(card, lines, carrier, phone, places, sink) {
            Ok(true) => {}
            Ok(false) => return Ok(()),
            Err(failed) => return Err(failed),
        }
    }
}

/// Carries out the next line, and answers whether there was one.
fn serve_next<S: Store, B: Applet>(
    card: &mut CardEnd<S, B>,
    lines: &mut LoadLines,
    carrier: &mut Carrier,
    phone: &mut Phone,
    places: &mut Places,
    sink: &mut CountingSink,
) -> Result<bool, MemoryFailed>
    requires rest { IsAtRest phone.old }
    requires clock { phone.old.known.clock + length lines.old * LONGEST_SPAN < 2 ^ 63 }
    ensures served { (made : List AnyLine) (given : Beginning)
        → IsLoading made given lines.old phone.old (moment_at card.old (Some sink.old))
        → GivesServed made given lines.new phone.new (moment_at card.new (Some sink.new)) result }
    ensures rest { OnOk result (IsAtRest phone.new) }
    ensures clock { OnOk result (phone.new.known.clock + length lines.new * LONGEST_SPAN < 2 ^ 63) }
    ensures nearer { result ≡ Ok true → length lines.new < length lines.old }
    ensures kept { card.old.parts.meter.faults ≤ card.new.parts.meter.faults }
    ensures failed { IsErr result → Rose card.old.parts.meter.faults card.new.parts.meter.faults }
{
    match lines.next() {
        None => Ok(false),
        Some(line) => {
            match hear_line(card, carrier, phone, &line, places, sink) {
                Ok(()) => Ok(true),
                Err(StepEnd::ResetFailed) => Err(MemoryFailed),
                Err(StepEnd::SinkFailed) => unreachable!(),
            }
        }
    }
}
