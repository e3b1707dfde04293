//! Proactive commands, responses, envelopes, and what a terminal's profile allows.
ghost use Rattle.std.specs.Prelude.{◌≤◌, length};
ghost use Rattle.toolkit_commands.specs.Table.{HasWritableTime};

use terminal_profile::Profile;
use toolkit_commands::{
    BadEnvelope, Details, Envelope, Item, Items, Mismatch, Proactive, ProactiveFault, Response,
    TooLong, read_envelope, read_proactive, read_response, spell,
};
use uicc_types::{Full, Octets, ShortText};

fn added(items: &mut Items, id: u8, text: ShortText) -> Result<(), Full> {
    items.push(Item { id, text })
}

fn spelled(command: &Proactive) -> Result<Octets, TooLong>
    requires { HasWritableTime command.now }
{
    spell(command, 1)
}

fn proactive_in(bytes: &[u8]) -> Result<(Details, Proactive), ProactiveFault>
    requires { length bytes.now ≤ 256 }
{
    read_proactive(bytes)
}

fn response_in(bytes: &[u8], details: &Details) -> Result<Response, Mismatch>
    requires { length bytes.now ≤ 256 }
{
    read_response(bytes, details)
}

fn envelope_in(bytes: &[u8]) -> Result<Envelope, BadEnvelope>
    requires { length bytes.now ≤ 256 }
{
    read_envelope(bytes)
}

/// Whether a profile allows a command, or none allows an event.
fn is_allowed(profile: &[u8], command: &Proactive) -> bool {
    Profile::read(profile).allows(command) || Profile::none().allows_event(3)
}
