//! What happens to the terminal, and what is shown of it.
ghost use Rattle.std.specs.Prelude.{◌≡◌, ◌∷◌, List, IsErr, OnOk, is_some};
ghost use Rattle.byte_streams.specs.Streams.{CountsEach};
ghost use Rattle.script_form.specs.Traces.{IsPut};
ghost use Rattle.bip_channels.specs.Channels.{BipChannel, answered};
ghost use Rattle.bip_channels.specs.Kept.{IsKept};
ghost use Rattle.bip_channels.specs.Traffic.{Occurrence, channels_after};
ghost use Rattle.bip_runs.specs.BetweenLines.{occurrence_for};
ghost use Rattle.bip_runs.specs.Traces.{command_lines, event_lines, lines_of, text_of};

use crate::effects::Happening;
use bip_channels::Bip;
use byte_streams::{Failed, Sink};
use script_form::{TraceLine, write_command, write_trace};
use uicc_types::Octets;

/// Has this happen to the terminal, and writes what is shown of it. A command is written before it is carried out.
pub fn happen<W: Sink>(what: Happening<'_>, bip: &mut Bip, trace: &mut W) -> Result<(), Failed>
    ensures kept { (history : List Occurrence) → IsKept (channels_after history) bip.old
        → OnOk result (IsKept (channels_after (occurrence_for what.entry ∷ history)) bip.new) }
    ensures shown { (history : List Occurrence) → IsKept (channels_after history) bip.old
        → IsPut (text_of (lines_of (occurrence_for what.entry) (channels_after history))) (W.taken trace.old)
        (W.taken trace.new) result }
    ensures cause { CountsEach (W.faults trace.old) (W.faults trace.new) (IsErr result) }
    ensures tells { is_some (W.taken trace.new) ≡ is_some (W.taken trace.old) }
{
    match what {
        Happening::Command(bytes) => command(bytes, bip, trace),
        Happening::Echo { channel, count } => {
            let event = bip.echo(channel, count);
            tell(event, trace)
        }
        Happening::Lost(channel) => {
            let event = bip.cut_link(channel);
            tell(event, trace)
        }
    }
}

/// Writes a proactive command, has the terminal carry it out, and writes its response.
fn command<W: Sink>(bytes: &Octets, bip: &mut Bip, trace: &mut W) -> Result<(), Failed>
    ensures kept { (history : List Occurrence) → IsKept (channels_after history) bip.old
        → OnOk result (IsKept (answered bytes.now (channels_after history)).channels bip.new) }
    ensures shown { (history : List Occurrence) → IsKept (channels_after history) bip.old
        → IsPut (text_of (command_lines bytes.now (answered bytes.now (channels_after history)).response))
        (W.taken trace.old) (W.taken trace.new) result }
    ensures cause { CountsEach (W.faults trace.old) (W.faults trace.new) (IsErr result) }
    ensures tells { is_some (W.taken trace.new) ≡ is_some (W.taken trace.old) }
{
    let command = bytes.as_slice();
    match write_command(trace, command) {
        Err(Failed) => Err(Failed),
        Ok(()) => {
            let response = bip.command(command);
            write_trace(trace, &TraceLine::Response(response))
        }
    }
}

/// Writes the event that the card is told of, if there is one.
fn tell<W: Sink>(event: Option<Octets>, trace: &mut W) -> Result<(), Failed>
    ensures shown { IsPut (text_of (event_lines event)) (W.taken trace.old) (W.taken trace.new) result }
    ensures cause { CountsEach (W.faults trace.old) (W.faults trace.new) (IsErr result) }
    ensures tells { is_some (W.taken trace.new) ≡ is_some (W.taken trace.old) }
{
    match event {
        Some(bytes) => write_trace(trace, &TraceLine::Event(bytes)),
        None => Ok(()),
    }
}
