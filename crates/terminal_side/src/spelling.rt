//! The bytes of what the handset sends.
ghost use Rattle.std.specs.Prelude.{◌≡◌, ◌+◌, ◌≤◌, ◌<◌, ◌++◌, ◌∷◌, [], length};
ghost use Rattle.comprehension_tlv.specs.Writing.{spellings, tagged};
ghost use Rattle.toolkit_commands.specs.Table.{required, timer_value, two_digits};
ghost use Rattle.handset_model.specs.Sending.{apdu_of, event, from, envelope, packed, performed, reply_objects, response_objects, timer_object, toolkit_apdu};
ghost use Rattle.handset_model.specs.declared.commands.Command.TheVariants.{AskStatus, Fetch, Respond};
ghost use Rattle.handset_model.specs.declared.commands.Reply.TheVariants.{Result};
ghost use Rattle.handset_model.specs.declared.commands.Report.TheVariants.{CallControl, Location};

use comprehension_tlv::TlvWriter;
use handset_model::{Command, Digits, Place, Reply, Report};
use toolkit_commands::devices::{CARD, DISPLAY, KEYPAD, TERMINAL};
use toolkit_commands::qualifiers::{EIGHT_BITS, IN_SECONDS};
use toolkit_commands::results::{AGAINST_TIMER_STATE, PERFORMED, UNABLE_TO_PROCESS};
use toolkit_commands::tags::{
    ADDRESS, CALL_CONTROL, COMMAND_DETAILS, DEVICE_IDENTITIES, DURATION, EVENT_DOWNLOAD,
    ITEM_IDENTIFIER, LOCATION_INFORMATION, MENU_SELECTION, RESULT, TEXT_STRING, TIMER_EXPIRATION,
    TIMER_IDENTIFIER, TIMER_VALUE,
};
use toolkit_commands::{Details, TimeValue};
use uicc_types::events::{IDLE_SCREEN, LOCATION_STATUS as LOCATION_EVENT, USER_ACTIVITY};
use uicc_types::{ApduBytes, Full, Octets};

/// Adds an object of less than 128 bytes, with the comprehension flag.
#[tactic(auto, using(toolkit_commands::proofs::LengthsOfCommandsLemmas::short_tagged))]
fn put(objects: &mut TlvWriter, tag: u16, value: &[u8])
    requires low { 1 ≤ tag }
    requires high { tag ≤ 126 }
    requires short { length value.now < 128 }
    requires room { length objects.old + length value.now + 2 ≤ 255 }
    ensures put { objects.new ≡ objects.old ++ spellings (required tag value.now ∷ []) }
    ensures size { length objects.new ≡ length objects.old + length value.now + 2 }
{
    match objects.put(tag, true, value) {
        Ok(()) => {}
        Err(Full) => unreachable!(),
    }
}

/// The device that speaks, to the card.
fn put_device(objects: &mut TlvWriter, device: u8)
    requires { length objects.old ≤ 200 }
    ensures put { objects.new ≡ objects.old ++ spellings (from device ∷ []) }
    ensures size { length objects.new ≡ length objects.old + 4 }
{
    put(objects, DEVICE_IDENTITIES, &[device, CARD])
}

/// Two decimal digits of a number below 100, the lower one in the upper half of the byte.
fn digits_of(number: u8) -> u8
    ensures { result ≡ two_digits number }
{
    number % 10 * 16 + number / 10
}

fn put_time(objects: &mut TlvWriter, value: &TimeValue)
    requires { length objects.old ≤ 200 }
    ensures put { objects.new ≡ objects.old ++ spellings (timer_value value.now ∷ []) }
    ensures size { length objects.new ≡ length objects.old + 5 }
{
    let digits = [
        digits_of(value.hours),
        digits_of(value.minutes),
        digits_of(value.seconds),
    ];
    put(objects, TIMER_VALUE, &digits)
}

/// The result of a command that was performed, and an object of less than 128 bytes.
fn put_performed(objects: &mut TlvWriter, tag: u16, value: &[u8])
    requires low { 1 ≤ tag }
    requires high { tag ≤ 126 }
    requires short { length value.now < 128 }
    requires room { length objects.old ≤ 100 }
    ensures put { objects.new ≡ objects.old ++ spellings (performed (required tag value.now)) }
    ensures size { length objects.new ≡ length objects.old + length value.now + 5 }
{
    put(objects, RESULT, &[PERFORMED]);
    put(objects, tag, value);
}

/// A byte, and the bytes after it.
fn prefixed(first: u8, rest: &[u8]) -> Octets
    requires { length rest.now < 255 }
    ensures { result ≡ first ∷ rest.now }
{
    let mut bytes = Octets::from_slice(&[first]);
    match bytes.append(rest) {
        Ok(()) => bytes,
        Err(Full) => unreachable!(),
    }
}

/// What a response says after the details and the devices.
fn put_reply(objects: &mut TlvWriter, reply: &Reply)
    requires { length objects.old ≤ 100 }
    ensures put { objects.new ≡ objects.old ++ spellings (reply_objects reply.now) }
    ensures fits { length objects.new ≤ 200 }
{
    match reply {
        Reply::Result(general) => put(objects, RESULT, &[*general]),
        Reply::Typed { text } => {
            let value = prefixed(EIGHT_BITS, text.as_slice());
            put_performed(objects, TEXT_STRING, value.as_slice())
        }
        Reply::Chosen { item } => put_performed(objects, ITEM_IDENTIFIER, &[*item]),
        Reply::Interval { seconds } => put_performed(objects, DURATION, &[IN_SECONDS, *seconds]),
        Reply::Located { place } => {
            put_performed(objects, LOCATION_INFORMATION, place.as_slice())
        }
        Reply::Unable => put(objects, RESULT, &[UNABLE_TO_PROCESS, 0x00]),
        Reply::Started { timer } => put_performed(objects, TIMER_IDENTIFIER, &[*timer]),
        Reply::Left { timer, value } => {
            put_performed(objects, TIMER_IDENTIFIER, &[*timer]);
            put_time(objects, value)
        }
        Reply::NotRunning { timer } => {
            put(objects, RESULT, &[AGAINST_TIMER_STATE]);
            put(objects, TIMER_IDENTIFIER, &[*timer])
        }
    }
}

/// Puts these bytes in the place of those that were there.
fn spell(apdu: &mut ApduBytes, bytes: &[u8])
    requires { length bytes.now ≤ 20 }
    ensures { apdu.new ≡ bytes.now }
{
    apdu.clear();
    match apdu.append(bytes) {
        Ok(()) => {}
        Err(Full) => unreachable!(),
    }
}

/// A command of the toolkit with data.
fn spell_toolkit(apdu: &mut ApduBytes, instruction: u8, content: &[u8])
    requires { length content.now ≤ 255 }
    ensures { apdu.new ≡ toolkit_apdu instruction content.now }
{
    spell(apdu, &[0x80, instruction, 0x00, 0x00, content.len() as u8]);
    match apdu.append(content) {
        Ok(()) => {}
        Err(Full) => unreachable!(),
    }
}

/// FETCH of so many bytes.
#[tactic(auto, unfolding(handset_model::specs::Sending::apdu_of))]
pub fn spell_fetch(apdu: &mut ApduBytes, length: u8)
    ensures { apdu.new ≡ apdu_of (Fetch length) }
{
    spell(apdu, &[0x80, 0x12, 0x00, 0x00, length])
}

/// STATUS.
#[tactic(auto, unfolding(handset_model::specs::Sending::apdu_of))]
pub fn spell_status(apdu: &mut ApduBytes)
    ensures { apdu.new ≡ apdu_of AskStatus }
{
    spell(apdu, &[0x80, 0xF2, 0x00, 0x0C])
}

/// TERMINAL RESPONSE with a result and no more. Most are of this kind, and their objects have their bytes at once.
#[tactic(auto, unfolding(comprehension_tlv::specs::Writing::tagged, handset_model::specs::Sending::apdu_of))]
pub fn spell_result(apdu: &mut ApduBytes, details: &Details, general: u8)
    ensures { apdu.new ≡ apdu_of (Respond details.now (Result general)) }
{
    spell(
        apdu,
        &[
            0x80,
            0x14,
            0x00,
            0x00,
            12,
            DETAILS_BYTE,
            3,
            details.number,
            details.kind,
            details.qualifier,
            DEVICES_BYTE,
            2,
            TERMINAL,
            CARD,
            RESULT_BYTE,
            1,
            general,
        ],
    )
}

/// TERMINAL RESPONSE.
#[tactic(auto, unfolding(handset_model::specs::Sending::apdu_of))]
fn spell_response(apdu: &mut ApduBytes, details: &Details, reply: &Reply)
    ensures { apdu.new ≡ apdu_of (Respond details.now reply.now) }
{
    match reply {
        Reply::Result(general) => spell_result(apdu, details, *general),
        _ => spell_long_response(apdu, details, reply),
    }
}

/// The same, with any reply.
#[inline(never)]
fn spell_long_response(apdu: &mut ApduBytes, details: &Details, reply: &Reply)
    ensures { apdu.new ≡ toolkit_apdu 0x14 (spellings (response_objects details.now reply.now)) }
{
    let mut objects = TlvWriter::new();
    put(
        &mut objects,
        COMMAND_DETAILS,
        &[details.number, details.kind, details.qualifier],
    );
    put_device(&mut objects, TERMINAL);
    put_reply(&mut objects, reply);
    spell_toolkit(apdu, 0x14, objects.as_slice())
}

/// ENVELOPE with a template that holds the objects.
#[tactic(auto, using(crate::proofs::ToolkitApduLemmas::enveloped))]
fn spell_enveloped(apdu: &mut ApduBytes, template: u8, objects: &[u8])
    requires { length objects.now ≤ 100 }
    ensures { apdu.new ≡ toolkit_apdu 0xC2 (tagged template objects.now) }
{
    let size = objects.len() as u8;
    spell(apdu, &[0x80, 0xC2, 0x00, 0x00, size + 2, template, size]);
    match apdu.append(objects) {
        Ok(()) => {}
        Err(Full) => unreachable!(),
    }
}

/// ENVELOPE with the code of an event, and the device that it comes from.
#[tactic(auto, unfolding(comprehension_tlv::specs::Writing::tagged))]
fn spell_event(apdu: &mut ApduBytes, code: u8, device: u8)
    ensures { apdu.new ≡ toolkit_apdu 0xC2 (tagged EVENT_DOWNLOAD (spellings (event code device))) }
{
    spell_enveloped(
        apdu,
        EVENT_DOWNLOAD,
        &[EVENT_BYTE, 1, code, DEVICES_BYTE, 2, device, CARD],
    )
}

/// The first byte of an object: its tag with the comprehension flag.
const DETAILS_BYTE: u8 = 0x81;

const DEVICES_BYTE: u8 = 0x82;

const RESULT_BYTE: u8 = 0x83;

const ITEM_BYTE: u8 = 0x90;

const PLACE_BYTE: u8 = 0x93;

const EVENT_BYTE: u8 = 0x99;

const STATUS_BYTE: u8 = 0x9B;

/// The type of number is unknown, and the numbering plan is that of ISDN and telephony (TS 102 223, 8.1).
const UNKNOWN_TYPE_ISDN: u8 = 0x81;

/// The handset is in normal service (8.27).
const NORMAL_SERVICE: u8 = 0x00;

/// Adds one byte to a list that has room for it.
fn push(bytes: &mut Octets, byte: u8)
    requires { length bytes.old < 255 }
    ensures { bytes.new ≡ bytes.old ++ byte ∷ [] }
{
    match bytes.push(byte) {
        Ok(()) => {}
        Err(Full) => unreachable!(),
    }
}

/// Adds decimal digits two to a byte, the first in the lower half, filled up with F.
fn put_packed(bytes: &mut Octets, digits: &[u8])
    requires { length bytes.old + length digits.now ≤ 255 }
    ensures put { bytes.new ≡ bytes.old ++ packed digits.now }
    ensures fits { length bytes.new ≤ length bytes.old + length digits.now }
{
    match digits {
        [] => {}
        [last] => push(bytes, 0xF0 + last % 16),
        [first, second, others @ ..] => {
            push(bytes, 16 * (second % 16) + first % 16);
            put_packed(bytes, others)
        }
    }
}

/// The digits of a number to be called, and where it leads.
fn put_number(objects: &mut TlvWriter, digits: &Digits)
    requires { length objects.old ≤ 100 }
    ensures put { objects.new ≡ objects.old ++ spellings (required ADDRESS (0x81 ∷ packed digits.now) ∷ []) }
    ensures fits { length objects.new ≤ length objects.old + 23 }
{
    let mut value = Octets::from_slice(&[UNKNOWN_TYPE_ISDN]);
    put_packed(&mut value, digits.as_slice());
    put(objects, ADDRESS, value.as_slice())
}

/// ENVELOPE with a location.
#[tactic(auto, using(crate::proofs::ToolkitApduLemmas::located))]
fn spell_location(apdu: &mut ApduBytes, place: &Place)
    ensures { apdu.new ≡ toolkit_apdu 0xC2 (envelope (Location place.now)) }
{
    let place = place.as_slice();
    let size = place.len() as u8;
    spell(
        apdu,
        &[
            0x80,
            0xC2,
            0x00,
            0x00,
            size + 14,
            EVENT_DOWNLOAD,
            size + 12,
            EVENT_BYTE,
            1,
            LOCATION_EVENT,
            DEVICES_BYTE,
            2,
            TERMINAL,
            CARD,
            STATUS_BYTE,
            1,
            NORMAL_SERVICE,
            PLACE_BYTE,
            size,
        ],
    );
    match apdu.append(place) {
        Ok(()) => {}
        Err(Full) => unreachable!(),
    }
}

/// ENVELOPE with a number to be called.
fn spell_call(apdu: &mut ApduBytes, digits: &Digits)
    ensures { apdu.new ≡ toolkit_apdu 0xC2 (envelope (CallControl digits.now)) }
{
    let mut objects = TlvWriter::new();
    put_device(&mut objects, TERMINAL);
    put_number(&mut objects, digits);
    spell_enveloped(apdu, CALL_CONTROL, objects.as_slice())
}

/// ENVELOPE with a timer that has run down, and the value that it was started with.
fn spell_expired(apdu: &mut ApduBytes, timer: u8, value: &TimeValue)
    ensures { apdu.new ≡ toolkit_apdu 0xC2 (tagged TIMER_EXPIRATION
        (spellings (from TERMINAL ∷ timer_object timer ∷ timer_value value.now ∷ []))) }
{
    let mut objects = TlvWriter::new();
    put_device(&mut objects, TERMINAL);
    put(&mut objects, TIMER_IDENTIFIER, &[timer]);
    put_time(&mut objects, value);
    spell_enveloped(apdu, TIMER_EXPIRATION, objects.as_slice())
}

/// ENVELOPE.
#[tactic(auto, unfolding(comprehension_tlv::specs::Writing::tagged))]
fn spell_envelope(apdu: &mut ApduBytes, report: &Report)
    ensures { apdu.new ≡ toolkit_apdu 0xC2 (envelope report.now) }
{
    match report {
        Report::MenuSelection { item } => spell_enveloped(
            apdu,
            MENU_SELECTION,
            &[DEVICES_BYTE, 2, KEYPAD, CARD, ITEM_BYTE, 1, *item],
        ),
        Report::UserActivity => spell_event(apdu, USER_ACTIVITY, TERMINAL),
        Report::IdleScreen => spell_event(apdu, IDLE_SCREEN, DISPLAY),
        Report::Location { place } => spell_location(apdu, place),
        Report::CallControl { digits } => spell_call(apdu, digits),
        Report::Expired { timer, value, .. } => spell_expired(apdu, *timer, value),
    }
}

/// Puts the bytes of a command in the place of those that were there.
#[tactic(auto, unfolding(handset_model::specs::Sending::apdu_of))]
pub fn spell_command(apdu: &mut ApduBytes, command: &Command)
    ensures { apdu.new ≡ apdu_of command.now }
{
    match command {
        Command::SelectMf => spell(apdu, &[0x00, 0xA4, 0x00, 0x0C, 0x02, 0x3F, 0x00]),
        Command::SendProfile => spell(
            apdu,
            &[
                0x80, 0x10, 0x00, 0x00, 0x08, 0x29, 0x00, 0xBF, 0x61, 0x71, 0x00, 0x00, 0x13,
            ],
        ),
        Command::Fetch { length } => spell_fetch(apdu, *length),
        Command::Respond { details, reply } => spell_response(apdu, details, reply),
        Command::Tell(report) => spell_envelope(apdu, report),
        Command::AskStatus => spell_status(apdu),
    }
}
