//! The vocabulary of the card toolkit: proactive commands, terminal responses and envelopes.
ghost use Rattle.std.specs.Prelude.{◌≤◌, length};
ghost use Rattle.toolkit_commands.specs.Table.{HasWritableTime};

use crate::rows::Row;
use crate::spelled::show_proactive;
use toolkit_commands::{
    BadEnvelope, Details, Envelope, Mismatch, Proactive, ProactiveFault, TooLong, details_of,
    found_details, lengths_of_commands, read_envelope, read_proactive, read_response, spell,
};

/// No command, response or envelope has more bytes.
const MOST_BYTES: usize = 256;

/// The message of these bytes; of too many for one the first.
fn message(bytes: &[u8]) -> &[u8]
    ensures { length result.now ≤ MOST_BYTES }
{
    if bytes.len() > MOST_BYTES {
        return &bytes[..MOST_BYTES];
    }
    bytes
}

fn show_details(details: &Details, row: &mut Row<'_>) {
    row.show_byte("", details.number);
    row.show_byte(" ", details.kind);
    row.show_byte(" ", details.qualifier);
}

/// `details BYTES`: the command details that are found.
pub fn show_found_details(row: &mut Row<'_>) {
    let bytes = row.all_bytes();
    show_details(&found_details(message(bytes.as_slice())), row);
}

/// `command BYTES`: the details and the command that are read, and how it is spelled.
pub fn show_read_command(row: &mut Row<'_>) {
    let bytes = row.all_bytes();
    let read = message(bytes.as_slice());
    // A law: what is read can be spelled.
    lengths_of_commands();
    match read_proactive(read) {
        Ok((details, command)) => {
            show_details(&details, row);
            row.show(" ");
            show_proactive(&command, row);
            show_spelling(&command, details.number, read, row);
            if found_details(read) != details {
                row.show(", other details are found");
            }
            if details_of(&command, details.number) != details {
                row.show(", other details are its own");
            }
        }
        Err(fault) => show_fault(fault, row),
    }
}

/// Shows how a command is spelled where it was read from these bytes.
fn show_spelling(command: &Proactive, number: u8, read: &[u8], row: &mut Row<'_>)
    requires { HasWritableTime command.now }
{
    match spell(command, number) {
        Ok(bytes) if bytes.as_slice() == read => row.show(", spelled so"),
        Ok(bytes) => row.show_bytes(", spelled ", bytes.as_slice()),
        Err(TooLong) => row.show(", too long to be spelled"),
    }
}

fn show_fault(fault: ProactiveFault, row: &mut Row<'_>) {
    match fault {
        ProactiveFault::Tlv => row.show("no list"),
        ProactiveFault::Missing => row.show("missing"),
        ProactiveFault::UnknownType(kind) => row.show_byte("unknown type ", kind),
        ProactiveFault::BadData => row.show("bad data"),
    }
}

/// `same BYTES BYTES`: whether the commands that are read are the same.
pub fn show_sameness(row: &mut Row<'_>) {
    match (proactive(row), proactive(row)) {
        (Some(one), Some(other)) => {
            let is_same = one.is_same(&other.copy());
            row.show(if is_same { "yes" } else { "no" });
        }
        _ => row.reject(),
    }
}

fn proactive(row: &mut Row<'_>) -> Option<Proactive> {
    match read_proactive(message(row.bytes().as_slice())) {
        Ok((_, command)) => Some(command),
        Err(_) => None,
    }
}

/// `response NUMBER TYPE QUALIFIER BYTES`: the response to the command with these details.
pub fn show_response(row: &mut Row<'_>) {
    let details = Details {
        number: row.byte(),
        kind: row.byte(),
        qualifier: row.byte(),
    };
    match read_response(message(row.all_bytes().as_slice()), &details) {
        Ok(response) => {
            row.show_byte("result ", response.result);
            row.show_number(" item ", response.item);
            row.show_text(" text ", response.text.as_slice());
        }
        Err(Mismatch) => row.show("mismatch"),
    }
}

/// `envelope BYTES`: what it reports.
pub fn show_envelope(row: &mut Row<'_>) {
    match read_envelope(message(row.all_bytes().as_slice())) {
        Ok(Envelope::Menu { item }) => row.show_number("menu item ", item),
        Ok(Envelope::CallControl { address }) => {
            row.show_bytes("call control ", address.as_slice())
        }
        Ok(Envelope::Event { code, body }) => {
            row.show_byte("event ", code);
            row.show_bytes(" ", body.as_slice());
        }
        Ok(Envelope::Timer { timer }) => row.show_number("timer ", timer),
        Err(BadEnvelope) => row.show("no envelope"),
    }
}
