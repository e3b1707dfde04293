//! The objects of responses and of events, with the comprehension flag.
ghost use Rattle.std.specs.Prelude.{◌≡◌, ◌+◌, ◌≤◌, ◌<◌, ◌++◌, ◌∷◌, [], length};
ghost use Rattle.comprehension_tlv.specs.Writing.{spellings, tagged};
ghost use Rattle.toolkit_commands.specs.Table.{required};
ghost use Rattle.toolkit_commands.specs.Responses.{result_object};
ghost use Rattle.bip_channels.specs.Replies.{heading, from_terminal, status_object, count_object, protocol_error, unable, opened, misread, no_channel, bytes_available, link_lost};

use crate::codes::{
    BEARER_DESCRIPTION, BUFFER_SIZE, CHANNEL_DATA, CHANNEL_DATA_LENGTH, CHANNEL_STATUS,
    DEFAULT_BEARER, LINK_DROPPED, LINK_UP, NOTHING_MORE, PROTOCOL_ERROR,
};
use comprehension_tlv::TlvWriter;
use toolkit_commands::devices::{CARD, TERMINAL};
use toolkit_commands::results::{
    DATA_NOT_UNDERSTOOD, PERFORMED, TYPE_NOT_UNDERSTOOD, UNABLE_TO_PROCESS, VALUES_MISSING,
};
use toolkit_commands::tags::{
    COMMAND_DETAILS, DEVICE_IDENTITIES, EVENT_DOWNLOAD, EVENT_LIST, RESULT,
};
use toolkit_commands::{Details, ProactiveFault};
use uicc_types::events::{CHANNEL_STATUS as STATUS_EVENT, DATA_AVAILABLE};
use uicc_types::{Full, Octets};

/// Adds an object of less than 128 bytes.
#[tactic(auto, using(toolkit_commands::proofs::LengthsOfCommandsLemmas::short_tagged))]
pub fn put(objects: &mut TlvWriter, tag: u16, value: &[u8])
    requires low { 1 ≤ tag }
    requires high { tag ≤ 126 }
    requires short { length value.now < 128 }
    requires room { length objects.old + length value.now + 2 ≤ 255 }
    ensures put { objects.new ≡ objects.old ++ spellings (required tag value.now ∷ []) }
    ensures size { length objects.new ≡ length objects.old + length value.now + 2 }
{
    match objects.put(tag, true, value) {
        Ok(()) => {}
        Err(Full) => unreachable!(),
    }
}

/// Adds the bytes of a channel.
#[tactic(auto, using(toolkit_commands::proofs::LengthsOfCommandsLemmas::long_tagged))]
pub fn put_bytes(objects: &mut TlvWriter, bytes: &[u8])
    requires short { length bytes.now < 256 }
    requires room { length objects.old + length bytes.now + 3 ≤ 255 }
    ensures put { objects.new ≡ objects.old ++ spellings (required CHANNEL_DATA bytes.now ∷ []) }
    ensures size { length objects.new ≤ length objects.old + length bytes.now + 3 }
{
    match objects.put(CHANNEL_DATA, true, bytes) {
        Ok(()) => {}
        Err(Full) => unreachable!(),
    }
}

/// The terminal speaks to the card.
fn put_devices(objects: &mut TlvWriter)
    requires { length objects.old ≤ 200 }
    ensures put { objects.new ≡ objects.old ++ spellings (from_terminal ∷ []) }
    ensures size { length objects.new ≡ length objects.old + 4 }
{
    put(objects, DEVICE_IDENTITIES, &[TERMINAL, CARD])
}

/// A response that has its details and devices.
pub fn headed(details: &Details) -> TlvWriter
    ensures put { result ≡ spellings (heading details.now) }
    ensures size { length result ≡ 9 }
{
    let mut objects = TlvWriter::new();
    put(
        &mut objects,
        COMMAND_DETAILS,
        &[details.number, details.kind, details.qualifier],
    );
    put_devices(&mut objects);
    objects
}

/// A general result without more.
pub fn put_result(objects: &mut TlvWriter, general: u8)
    requires { length objects.old ≤ 200 }
    ensures put { objects.new ≡ objects.old ++ spellings (result_object general ∷ []) }
    ensures size { length objects.new ≡ length objects.old + 3 }
{
    put(objects, RESULT, &[general])
}

/// An error of the protocol.
pub fn put_error(objects: &mut TlvWriter, cause: u8)
    requires { length objects.old ≤ 200 }
    ensures { objects.new ≡ objects.old ++ spellings (protocol_error cause) }
{
    put(objects, RESULT, &[PROTOCOL_ERROR, cause])
}

/// The terminal can't carry it out now.
pub fn put_unable(objects: &mut TlvWriter)
    requires { length objects.old ≤ 200 }
    ensures { objects.new ≡ objects.old ++ spellings unable }
{
    put(objects, RESULT, &[UNABLE_TO_PROCESS, 0x00])
}

/// How a channel stands.
pub fn put_status(objects: &mut TlvWriter, number: u8, dropped: bool)
    requires number { number ≤ 7 }
    requires room { length objects.old ≤ 200 }
    ensures put { objects.new ≡ objects.old ++ spellings (status_object number dropped ∷ []) }
    ensures size { length objects.new ≡ length objects.old + 4 }
{
    if dropped {
        put(objects, CHANNEL_STATUS, &[number, LINK_DROPPED])
    } else {
        put(objects, CHANNEL_STATUS, &[LINK_UP + number, NOTHING_MORE])
    }
}

/// That no channel is open.
pub fn put_no_channel(objects: &mut TlvWriter)
    requires { length objects.old ≤ 200 }
    ensures { objects.new ≡ objects.old ++ spellings (no_channel ∷ []) }
{
    put(objects, CHANNEL_STATUS, &[0x00, NOTHING_MORE])
}

/// A number of bytes, as far as a byte tells it.
pub fn put_count(objects: &mut TlvWriter, count: usize)
    requires { length objects.old ≤ 252 }
    ensures put { objects.new ≡ objects.old ++ spellings (count_object count ∷ []) }
    ensures size { length objects.new ≡ length objects.old + 3 }
{
    put(objects, CHANNEL_DATA_LENGTH, &[count.min(255) as u8])
}

/// That a channel was opened.
pub fn put_opened(objects: &mut TlvWriter, number: u8, size: u16)
    requires number { number ≤ 7 }
    requires room { length objects.old ≤ 100 }
    ensures { objects.new ≡ objects.old ++ spellings (opened number size) }
{
    put_result(objects, PERFORMED);
    put_status(objects, number, false);
    put(objects, BEARER_DESCRIPTION, &[DEFAULT_BEARER]);
    put(objects, BUFFER_SIZE, &size.to_be_bytes())
}

/// The result of a command that couldn't be read.
pub fn misread(fault: ProactiveFault) -> u8
    ensures { result ≡ misread fault }
{
    match fault {
        ProactiveFault::Tlv | ProactiveFault::BadData => DATA_NOT_UNDERSTOOD,
        ProactiveFault::Missing => VALUES_MISSING,
        ProactiveFault::UnknownType(_) => TYPE_NOT_UNDERSTOOD,
    }
}

/// An event of the terminal, without its objects.
fn event(code: u8) -> TlvWriter
    ensures put { result ≡ spellings (required EVENT_LIST (code ∷ []) ∷ from_terminal ∷ []) }
    ensures size { length result ≡ 7 }
{
    let mut objects = TlvWriter::new();
    put(&mut objects, EVENT_LIST, &[code]);
    put_devices(&mut objects);
    objects
}

/// ENVELOPE (EVENT DOWNLOAD) of less than 128 bytes.
#[tactic(auto, using(toolkit_commands::proofs::LengthsOfCommandsLemmas::short_tagged))]
fn enveloped(objects: TlvWriter) -> Octets
    requires { length objects ≤ 100 }
    ensures { result ≡ tagged EVENT_DOWNLOAD objects }
{
    match objects.finish(EVENT_DOWNLOAD) {
        Ok(bytes) => bytes,
        Err(Full) => unreachable!(),
    }
}

/// The event that so many bytes came back on a channel and wait.
pub fn bytes_available(number: u8, count: usize) -> Octets
    requires { number ≤ 7 }
    ensures { result ≡ bytes_available number count }
{
    let mut objects = event(DATA_AVAILABLE);
    put_status(&mut objects, number, false);
    put_count(&mut objects, count);
    enveloped(objects)
}

/// The event that the link of a channel was dropped.
pub fn link_lost(number: u8) -> Octets
    requires { number ≤ 7 }
    ensures { result ≡ link_lost number }
{
    let mut objects = event(STATUS_EVENT);
    put_status(&mut objects, number, true);
    enveloped(objects)
}
