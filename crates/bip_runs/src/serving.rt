//! The lines of a script, read one by one, each carried out as soon as its end was read.
ghost use Rattle.std.specs.Prelude.{◌≡◌, ◌≢◌, ◌<◌, ◌+◌, List, ℕ, Ok, Err, Option, OnOk, OnErr, Some, IfOk, is_some};
ghost use Rattle.byte_streams.specs.Lines.{LineList};
ghost use Rattle.byte_streams.specs.Reading.{IsTaken, IsWithin};
ghost use Rattle.byte_streams.specs.Streams.{CountsEach};
ghost use Rattle.byte_streams.specs.declared.limits.TheConstants.{MOST_BYTES};
ghost use Rattle.script_reader.specs.Reading.{Follows, reading, room_of};
ghost use Rattle.bip_channels.specs.Channels.{none_open};
ghost use Rattle.bip_channels.specs.Kept.{IsKept};
ghost use Rattle.bip_runs.specs.Serving.{BipComesTo};
ghost use Rattle.bip_runs.specs.BetweenLines.{GivesLine, GivesServed, IsServing};

use crate::effects::{Effect, Place, effect_of};
use crate::happening::happen;
use bip_channels::{Bip, each_channel_tells};
use byte_streams::{Failed, Sink, Source};
use script_form::ScriptLine;
use script_reader::{PlayEnd, ScriptReader, end_for};
use std::alloc::Global;
use uicc_types::OutOfMemory;

/// Has a new terminal carry out a script: `start`, and after it proactive commands and what the network does. Shows each command,
/// each response and each event, and answers why the run ends. It takes all memory before the script is read.
pub fn serve<R: Source, W: Sink>(
    alloc: Global,
    source: &mut R,
    trace: &mut W,
) -> Result<PlayEnd, OutOfMemory>
    ensures comes { (text : List ℕ) → R.left source.old ≡ Some text
        → IfOk result (BipComesTo text (W.taken trace.old) (R.left source.new) (W.taken trace.new)) }
    ensures memory_only { OnErr result ((source.new ≡ source.old) × (trace.new ≡ trace.old)) }
    // No more than 16,777,217 bytes of the script are taken.
    ensures taken { (text : List ℕ) → R.left source.old ≡ Some text
        → IsTaken (MOST_BYTES + 1) text (R.left source.new) }
    ensures source_cause { CountsEach (R.faults source.old) (R.faults source.new) (result ≡ Ok PlayEnd.ReadFailed) }
    ensures sink_cause { CountsEach (W.faults trace.old) (W.faults trace.new) (result ≡ Ok PlayEnd.SinkFailed) }
    ensures tells { is_some (W.taken trace.new) ≡ is_some (W.taken trace.old) }
    ensures no_reset { result ≢ Ok PlayEnd.ResetFailed }
{
    match Bip::new(alloc) {
        Ok(mut bip) => {
            let end = serve_script(&mut bip, source, trace);
            Ok(end)
        }
        Err(OutOfMemory) => Err(OutOfMemory),
    }
}

/// Has a terminal on which no channel is open carry out a script.
fn serve_script<R: Source, W: Sink>(bip: &mut Bip, source: &mut R, trace: &mut W) -> PlayEnd
    requires new { IsKept none_open bip.old }
    ensures comes { (text : List ℕ) → R.left source.old ≡ Some text
        → BipComesTo text (W.taken trace.old) (R.left source.new) (W.taken trace.new) result }
    ensures taken { (text : List ℕ) → R.left source.old ≡ Some text
        → IsTaken (MOST_BYTES + 1) text (R.left source.new) }
    ensures source_cause { CountsEach (R.faults source.old) (R.faults source.new) (result ≡ PlayEnd.ReadFailed) }
    ensures sink_cause { CountsEach (W.faults trace.old) (W.faults trace.new) (result ≡ PlayEnd.SinkFailed) }
    ensures tells { is_some (W.taken trace.new) ≡ is_some (W.taken trace.old) }
    ensures no_reset { result ≢ PlayEnd.ResetFailed }
{
    let mut script = ScriptReader::new();
    serve_lines(&mut script, bip, source, trace)
}

/// Carries out the lines of a script of which none was read.
fn serve_lines<R: Source, W: Sink>(
    script: &mut ScriptReader,
    bip: &mut Bip,
    source: &mut R,
    trace: &mut W,
) -> PlayEnd
    ensures comes { (text : List ℕ) (before : Option (List ℕ))
        → IsServing text before Place.Before script.old (R.left source.old) (W.taken trace.old) bip.old
        → BipComesTo text before (R.left source.new) (W.taken trace.new) result }
    ensures within { (text : List ℕ) → IsWithin text (reading script.old) (R.left source.old)
        → IsWithin text (reading script.new) (R.left source.new) }
    ensures source_cause { CountsEach (R.faults source.old) (R.faults source.new) (result ≡ PlayEnd.ReadFailed) }
    ensures sink_cause { CountsEach (W.faults trace.old) (W.faults trace.new) (result ≡ PlayEnd.SinkFailed) }
    ensures tells { is_some (W.taken trace.new) ≡ is_some (W.taken trace.old) }
    ensures no_reset { result ≢ PlayEnd.ResetFailed }
{
    let mut place = Place::Before;
    let mut line = ScriptLine::Passed;
    loop {
        if let Err(end) = serve_line(script, source, &mut line, &mut place, bip, trace) {
            return end;
        }
    }
}

/// Reads one line into `line`, and carries it out.
fn serve_line<R: Source, W: Sink>(
    script: &mut ScriptReader,
    source: &mut R,
    line: &mut ScriptLine,
    place: &mut Place,
    bip: &mut Bip,
    trace: &mut W,
) -> Result<(), PlayEnd>
    ensures served { (text : List ℕ) (before : Option (List ℕ))
        → IsServing text before place.old script.old (R.left source.old) (W.taken trace.old) bip.old
        → GivesServed text before place.new script.new (R.left source.new) (W.taken trace.new) bip.new result }
    ensures within { (text : List ℕ) → IsWithin text (reading script.old) (R.left source.old)
        → IsWithin text (reading script.new) (R.left source.new) }
    ensures source_cause { CountsEach (R.faults source.old) (R.faults source.new) (result ≡ Err PlayEnd.ReadFailed) }
    ensures sink_cause { CountsEach (W.faults trace.old) (W.faults trace.new) (result ≡ Err PlayEnd.SinkFailed) }
    ensures tells { is_some (W.taken trace.new) ≡ is_some (W.taken trace.old) }
    ensures no_reset { result ≢ Err PlayEnd.ResetFailed }
    ensures nearer { OnOk result (room_of script.new < room_of script.old) }
{
    // This call is a law, and does nothing.
    each_channel_tells();
    match next_line(script, source, line, *place) {
        Err(end) => Err(end),
        Ok(()) => match effect_of(line) {
            Effect::Nothing => Ok(()),
            Effect::Starts => match *place {
                Place::Before => {
                    *place = Place::Behind;
                    Ok(())
                }
                Place::Behind => Err(PlayEnd::BadLine(script.number())),
            },
            Effect::Happens(what) => match *place {
                Place::Before => Err(PlayEnd::BadLine(script.number())),
                Place::Behind => match happen(what, bip, trace) {
                    Ok(()) => Ok(()),
                    Err(Failed) => Err(PlayEnd::SinkFailed),
                },
            },
            Effect::OutOfPlace => Err(PlayEnd::BadLine(script.number())),
        },
    }
}

/// Reads the next line into `line`. Where the script ends, goes on with a line in no form or can't be read on, it answers that the
/// run ends so.
fn next_line<R: Source>(
    script: &mut ScriptReader,
    source: &mut R,
    line: &mut ScriptLine,
    place: Place,
) -> Result<(), PlayEnd>
    ensures gives { (text : List ℕ) (found : LineList) → Follows text found script.old (R.left source.old)
        → GivesLine place text found script.new (R.left source.new) line.new result }
    ensures within { (text : List ℕ) → IsWithin text (reading script.old) (R.left source.old)
        → IsWithin text (reading script.new) (R.left source.new) }
    ensures cause { CountsEach (R.faults source.old) (R.faults source.new) (result ≡ Err PlayEnd.ReadFailed) }
    ensures no_sink { result ≢ Err PlayEnd.SinkFailed }
    ensures no_reset { result ≢ Err PlayEnd.ResetFailed }
    ensures nearer { OnOk result (room_of script.new < room_of script.old) }
{
    match script.next(source, line) {
        Ok(true) => Ok(()),
        Ok(false) => match place {
            Place::Before => Err(end_for(script.next_is_bad())),
            Place::Behind => Err(PlayEnd::Finished),
        },
        Err(fault) => Err(end_for(fault)),
    }
}
