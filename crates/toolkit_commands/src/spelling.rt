//! The one spelling of a proactive command.
ghost use Rattle.std.specs.Prelude.{◌≡◌, ◌+◌, ◌≤◌, ◌<◌, ◌↔◌, [], ◌∷◌, length, Ok, IsOk, IfOk, OnOk, All, map};
ghost use Rattle.toolkit_commands.specs.Table.{row_of, details_of, objects_of_command, required, spelled, two_digits, text_string, item_object, menu_objects, timer_objects, IsWritable, HasWritableTime, IsProper};
ghost use Rattle.toolkit_commands.specs.Reading.{proactive_of};
ghost use Rattle.toolkit_commands.specs.Matching.{IsBounded};
ghost use Rattle.toolkit_commands.specs.Putting.{Puts};

use crate::commands::{Details, Proactive, TimeValue};
use crate::devices::{CARD, DISPLAY, EARPIECE, TERMINAL};
use crate::items::Item;
use crate::kinds::{
    DISPLAY_TEXT, GET_INKEY, GET_INPUT, IDLE_TEXT, LOCAL_INFORMATION, MORE_TIME, PLAY_TONE,
    POLL_INTERVAL, REFRESH, SELECT_ITEM, SET_UP_EVENT_LIST, SET_UP_MENU, TIMER_MANAGEMENT,
};
use crate::qualifiers::{CHARACTERS, DIGITS, EIGHT_BITS, IN_SECONDS, NONE, START, UNTIL_CLEARED};
use crate::tags::{
    ALPHA_IDENTIFIER, COMMAND_DETAILS, DEVICE_IDENTITIES, DURATION, EVENT_LIST, ITEM,
    PROACTIVE_COMMAND, RESPONSE_LENGTH, TEXT_STRING, TIMER_IDENTIFIER, TIMER_VALUE, TONE,
};
use comprehension_tlv::TlvWriter;
use uicc_types::{Full, Octets};

/// The command has no spelling of at most 255 bytes.
#[derive(Clone, Copy, Debug, PartialEq, Eq)]
pub struct TooLong;

impl From<Full> for TooLong {
    fn from(_: Full) -> Self {
        TooLong
    }
}

/// Type, qualifier and destination.
#[derive(Clone, Copy)]
pub struct Heading {
    pub kind: u8,
    pub qualifier: u8,
    pub destination: u8,
}

/// A byte of two decimal digits, the lower one in the upper half.
fn digits_of(number: u8) -> u8
    requires { number ≤ 99 }
    ensures { result ≡ two_digits number }
{
    number % 10 * 16 + number / 10
}

/// All objects of a command carry the comprehension flag.
fn put(objects: &mut TlvWriter, tag: u16, value: &[u8]) -> Result<(), Full>
    requires low { 1 ≤ tag }
    requires high { tag ≤ 126 }
    ensures { Puts objects.old (required tag value.now ∷ []) result objects.new }
{
    objects.put(tag, true, value)
}

/// The same where the value is a byte and the bytes after it.
fn put_behind(objects: &mut TlvWriter, tag: u16, first: u8, rest: &[u8]) -> Result<(), Full>
    requires low { 1 ≤ tag }
    requires high { tag ≤ 126 }
    ensures { Puts objects.old (required tag (first ∷ rest.now) ∷ []) result objects.new }
{
    objects.put_behind(tag, true, first, rest)
}

fn put_text(objects: &mut TlvWriter, text: &Octets) -> Result<(), Full>
    ensures { Puts objects.old (text_string text.now ∷ []) result objects.new }
{
    put_behind(objects, TEXT_STRING, EIGHT_BITS, text.as_slice())
}

fn put_item(objects: &mut TlvWriter, item: &Item) -> Result<(), Full>
    ensures put { Puts objects.old (item_object item.now ∷ []) result objects.new }
    ensures bounded { OnOk result (length item.now.text ≤ 10) }
{
    put_behind(objects, ITEM, item.id, item.text.as_slice())
}

fn put_items(objects: &mut TlvWriter, items: &[Item]) -> Result<(), Full>
    ensures put { Puts objects.old (map item_object items.now) result objects.new }
    ensures bounded { OnOk result (All (λ item. length item.text ≤ 10) items.now) }
{
    for item in items {
        put_item(objects, item)?;
    }
    Ok(())
}

fn put_menu(objects: &mut TlvWriter, items: &[Item]) -> Result<(), Full>
    ensures put { Puts objects.old (menu_objects items.now) result objects.new }
    ensures bounded { OnOk result (All (λ item. length item.text ≤ 10) items.now) }
{
    if items.is_empty() {
        return put(objects, ITEM, &[]);
    }
    put_items(objects, items)
}

fn put_timer(objects: &mut TlvWriter, action: u8, timer: u8, value: &TimeValue) -> Result<(), Full>
    requires { IsWritable value.now }
    ensures { Puts objects.old (timer_objects action timer value.now) result objects.new }
{
    put(objects, TIMER_IDENTIFIER, &[timer])?;
    if action == START {
        let digits = [
            digits_of(value.hours),
            digits_of(value.minutes),
            digits_of(value.seconds),
        ];
        put(objects, TIMER_VALUE, &digits)?;
    }
    Ok(())
}

/// The objects after the details and the device identities.
fn put_objects(objects: &mut TlvWriter, command: &Proactive) -> Result<(), Full>
    requires { HasWritableTime command.now }
    ensures put { Puts objects.old (row_of command.now).objects result objects.new }
    ensures bounded { OnOk result (IsBounded command.now) }
{
    match command {
        Proactive::Refresh { .. } => Ok(()),
        Proactive::MoreTime => Ok(()),
        Proactive::LocalInformation { .. } => Ok(()),
        Proactive::PollInterval { seconds } => put(objects, DURATION, &[IN_SECONDS, *seconds]),
        Proactive::SetUpEventList { events } => put(objects, EVENT_LIST, events.as_slice()),
        Proactive::PlayTone { tone } => put(objects, TONE, &[*tone]),
        Proactive::DisplayText { text } => put_text(objects, text),
        Proactive::GetInkey { text } => put_text(objects, text),
        Proactive::GetInput { text, min, max, .. } => {
            put_text(objects, text)?;
            put(objects, RESPONSE_LENGTH, &[*min, *max])
        }
        Proactive::SelectItem { title, items } => {
            put(objects, ALPHA_IDENTIFIER, title.as_slice())?;
            put_items(objects, items.as_slice())
        }
        Proactive::SetUpMenu { title, items } => {
            put(objects, ALPHA_IDENTIFIER, title.as_slice())?;
            put_menu(objects, items.as_slice())
        }
        Proactive::TimerManagement {
            action,
            timer,
            value,
        } => put_timer(objects, *action, *timer, value),
        Proactive::IdleText { text } => put_text(objects, text),
    }
}

/// The type, the qualifier and the destination of a command.
pub fn heading_of(command: &Proactive) -> Heading
    ensures kind { result.kind ≡ (row_of command.now).kind }
    ensures qualifier { result.qualifier ≡ (row_of command.now).qualifier }
    ensures destination { result.destination ≡ (row_of command.now).destination }
{
    let (kind, qualifier, destination) = match command {
        Proactive::Refresh { mode } => (REFRESH, *mode, TERMINAL),
        Proactive::MoreTime => (MORE_TIME, NONE, TERMINAL),
        Proactive::PollInterval { .. } => (POLL_INTERVAL, NONE, TERMINAL),
        Proactive::SetUpEventList { .. } => (SET_UP_EVENT_LIST, NONE, TERMINAL),
        Proactive::PlayTone { .. } => (PLAY_TONE, NONE, EARPIECE),
        Proactive::DisplayText { .. } => (DISPLAY_TEXT, UNTIL_CLEARED, DISPLAY),
        Proactive::GetInkey { .. } => (GET_INKEY, CHARACTERS, TERMINAL),
        Proactive::GetInput { digits: true, .. } => (GET_INPUT, DIGITS, TERMINAL),
        Proactive::GetInput { digits: false, .. } => (GET_INPUT, CHARACTERS, TERMINAL),
        Proactive::SelectItem { .. } => (SELECT_ITEM, NONE, TERMINAL),
        Proactive::SetUpMenu { .. } => (SET_UP_MENU, NONE, TERMINAL),
        Proactive::LocalInformation { what } => (LOCAL_INFORMATION, *what, TERMINAL),
        Proactive::TimerManagement { action, .. } => (TIMER_MANAGEMENT, *action, TERMINAL),
        Proactive::IdleText { .. } => (IDLE_TEXT, NONE, TERMINAL),
    };
    Heading {
        kind,
        qualifier,
        destination,
    }
}

/// The details of a command that has this number.
pub fn details_of(command: &Proactive, number: u8) -> Details
    ensures { result ≡ details_of command.now number }
{
    let heading = heading_of(command);
    Details {
        number,
        kind: heading.kind,
        qualifier: heading.qualifier,
    }
}

/// The details, the device identities and the objects of a command.
fn put_command(objects: &mut TlvWriter, command: &Proactive, number: u8) -> Result<(), Full>
    requires { HasWritableTime command.now }
    ensures put { Puts objects.old (objects_of_command command.now number) result objects.new }
    ensures bounded { OnOk result (IsBounded command.now) }
{
    let heading = heading_of(command);
    put(
        objects,
        COMMAND_DETAILS,
        &[number, heading.kind, heading.qualifier],
    )?;
    put(objects, DEVICE_IDENTITIES, &[CARD, heading.destination])?;
    put_objects(objects, command)
}

/// The bytes of a command with its number: `TooLong` exactly where they would be more than 255. Each part of a time
/// value is at most 99.
pub fn spell(command: &Proactive, number: u8) -> Result<Octets, TooLong>
    requires { HasWritableTime command.now }
    ensures room { IsOk result ↔ (length (spelled command.now number) ≤ 255) }
    ensures ok { IfOk result (λ bytes. bytes ≡ spelled command.now number) }

    // Titles and items are within their bounds, and a proper command is read back with its number.
    ensures bounded { OnOk result (IsBounded command.now) }
    ensures read_back { IfOk result (λ bytes. IsProper command.now
        → proactive_of bytes ≡ Ok (details_of command.now number, command.now)) }
{
    let mut objects = TlvWriter::new();
    put_command(&mut objects, command, number)?;
    let mut bytes = Octets::new();
    objects.finish_into(PROACTIVE_COMMAND, &mut bytes)?;
    Ok(bytes)
}
