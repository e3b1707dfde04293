//! Reading a proactive command.
ghost use Rattle.std.specs.Prelude.{◌≡◌, ◌≤◌, ◌+◌, ℕ, None, length, Ok, IfOk, OnOk};
ghost use Rattle.comprehension_tlv.specs.Reading.{flaw};
ghost use Rattle.toolkit_commands.specs.Counting.{IsFirst};
ghost use Rattle.toolkit_commands.specs.declared.commands.Proactive.TheVariants.{DisplayText, GetInkey, IdleText, LocalInformation, MoreTime, Refresh};
ghost use Rattle.toolkit_commands.specs.Table.{IsProper, details_of, spelled};
ghost use Rattle.toolkit_commands.specs.Matching.{IsBounded};
ghost use Rattle.toolkit_commands.specs.Steps.{Gives, Tells, Writes, items_in, template_in, needed, text_in, text_command, poll_interval_in, tone_in, input_in, titled_in, choice_in, menu_in, event_list_in, command_in, started_timer_in, other_timer_in, command_of, details_read};
ghost use Rattle.toolkit_commands.specs.Reading.{proactive_of, details_found};
ghost use Rattle.toolkit_commands.specs.declared.commands.Details.{Details as ADetails};
ghost use Rattle.toolkit_commands.specs.declared.commands.Proactive.{Proactive as ACommand};

use crate::choices::{choice_of, menu_of};
use crate::commands::{Details, Proactive, TimeValue};
use crate::faults::ProactiveFault;
use crate::kinds::{
    DISPLAY_TEXT, GET_INKEY, GET_INPUT, IDLE_TEXT, LOCAL_INFORMATION, MORE_TIME, PLAY_TONE,
    POLL_INTERVAL, REFRESH, SELECT_ITEM, SET_UP_EVENT_LIST, SET_UP_MENU, TIMER_MANAGEMENT,
};
use crate::qualifiers::{DIGITS, GET_VALUE, START};
use crate::spelling::heading_of;
use crate::tags::{
    ALPHA_IDENTIFIER, COMMAND_DETAILS, DEVICE_IDENTITIES, DURATION, EVENT_LIST, ITEM,
    PROACTIVE_COMMAND, RESPONSE_LENGTH, TEXT_STRING, TIMER_IDENTIFIER, TIMER_VALUE, TONE,
};
use crate::values::{
    is_sent_to, one_byte, seconds_of, short_text_of, text_of, three_bytes, time_of, timer_of,
    two_bytes,
};
use comprehension_tlv::{find, read_template};
use uicc_types::{Octets, ShortText};

/// The list of objects in the template of a command.
#[tactic(auto, unfolding(crate::specs::Steps::template_in))]
fn objects_in(bytes: &[u8]) -> Result<&[u8], ProactiveFault>
    ensures exact { Gives (λ x. x.now) result (template_in bytes.now) }
    ensures fits { IfOk result (λ content. length content.now + 2 ≤ length bytes.now) }
{
    let (tag, content) = read_template(bytes)?;
    if tag != PROACTIVE_COMMAND {
        return Err(ProactiveFault::Tlv);
    }
    Ok(content)
}

/// The value of the first object with the tag.
#[tactic(auto, unfolding(crate::specs::Steps::needed))]
fn needed(content: &[u8], tag: u16) -> Result<&[u8], ProactiveFault>
    ensures exact { Gives (λ x. x.now) result (needed tag content.now) }
    ensures fits { IfOk result (λ value. length value.now + 2 ≤ length content.now) }
    ensures whole { OnOk result (flaw content.now ≡ None) }
    ensures item { IfOk result (λ value. tag ≡ ITEM → IsFirst (items_in content.now) value.now) }
{
    find(content, tag)?.ok_or(ProactiveFault::Missing)
}

/// The bytes of the text string.
#[tactic(auto, unfolding(crate::specs::Steps::text_in))]
fn text_in(content: &[u8]) -> Result<&[u8], ProactiveFault>
    ensures exact { Gives (λ x. x.now) result (text_in content.now) }
    ensures fits { IfOk result (λ text. length text.now + 2 ≤ length content.now) }
{
    text_of(needed(content, TEXT_STRING)?)
}

fn display_text_in(content: &[u8], command: &mut Proactive) -> Result<(), ProactiveFault>
    requires { length content.now ≤ 254 }
    ensures exact { Writes result command.new (text_command DisplayText content.now) }
    ensures proper { OnOk result (IsProper command.new) }
{
    let text = Octets::from_slice(text_in(content)?);
    *command = Proactive::DisplayText { text };
    Ok(())
}

fn inkey_in(content: &[u8], command: &mut Proactive) -> Result<(), ProactiveFault>
    requires { length content.now ≤ 254 }
    ensures exact { Writes result command.new (text_command GetInkey content.now) }
    ensures proper { OnOk result (IsProper command.new) }
{
    let text = Octets::from_slice(text_in(content)?);
    *command = Proactive::GetInkey { text };
    Ok(())
}

fn idle_text_in(content: &[u8], command: &mut Proactive) -> Result<(), ProactiveFault>
    requires { length content.now ≤ 254 }
    ensures exact { Writes result command.new (text_command IdleText content.now) }
    ensures proper { OnOk result (IsProper command.new) }
{
    let text = Octets::from_slice(text_in(content)?);
    *command = Proactive::IdleText { text };
    Ok(())
}

#[tactic(auto, unfolding(crate::specs::Steps::poll_interval_in))]
fn poll_interval_in(content: &[u8], command: &mut Proactive) -> Result<(), ProactiveFault>
    ensures exact { Writes result command.new (poll_interval_in content.now) }
    ensures proper { OnOk result (IsProper command.new) }
{
    let seconds = seconds_of(needed(content, DURATION)?)?;
    *command = Proactive::PollInterval { seconds };
    Ok(())
}

#[tactic(auto, unfolding(crate::specs::Steps::tone_in))]
fn tone_in(content: &[u8], command: &mut Proactive) -> Result<(), ProactiveFault>
    ensures exact { Writes result command.new (tone_in content.now) }
    ensures proper { OnOk result (IsProper command.new) }
{
    let tone = one_byte(needed(content, TONE)?)?;
    *command = Proactive::PlayTone { tone };
    Ok(())
}

#[tactic(auto, unfolding(crate::specs::Steps::input_in))]
fn input_in(content: &[u8], qualifier: u8, command: &mut Proactive) -> Result<(), ProactiveFault>
    requires { length content.now ≤ 254 }
    ensures exact { Writes result command.new (input_in qualifier content.now) }
    ensures proper { OnOk result (IsProper command.new) }
{
    let string = needed(content, TEXT_STRING)?;
    let lengths = needed(content, RESPONSE_LENGTH)?;
    let text = Octets::from_slice(text_of(string)?);
    let (min, max) = two_bytes(lengths)?;
    let digits = qualifier == DIGITS;
    *command = Proactive::GetInput {
        text,
        digits,
        min,
        max,
    };
    Ok(())
}

#[tactic(auto, unfolding(crate::specs::Steps::started_timer_in))]
fn started_timer_in(content: &[u8], command: &mut Proactive) -> Result<(), ProactiveFault>
    ensures exact { Writes result command.new (started_timer_in content.now) }
    ensures proper { OnOk result (IsProper command.new) }
{
    let identifier = needed(content, TIMER_IDENTIFIER)?;
    let span = needed(content, TIMER_VALUE)?;
    let timer = timer_of(identifier)?;
    let value = time_of(span)?;
    *command = Proactive::TimerManagement {
        action: START,
        timer,
        value,
    };
    Ok(())
}

#[tactic(auto, unfolding(crate::specs::Steps::other_timer_in))]
fn other_timer_in(content: &[u8], action: u8, command: &mut Proactive) -> Result<(), ProactiveFault>
    ensures exact { Writes result command.new (other_timer_in action content.now) }
    ensures proper { OnOk result (IsProper command.new) }
{
    let timer = timer_of(needed(content, TIMER_IDENTIFIER)?)?;
    if action > GET_VALUE {
        return Err(ProactiveFault::BadData);
    }
    let value = TimeValue {
        hours: 0,
        minutes: 0,
        seconds: 0,
    };
    *command = Proactive::TimerManagement {
        action,
        timer,
        value,
    };
    Ok(())
}

/// The title, and the value of the first item.
#[tactic(auto, unfolding(crate::specs::Steps::titled_in))]
fn titled_in(content: &[u8]) -> Result<(ShortText, &[u8]), ProactiveFault>
    ensures exact { Gives (λ x. (x.0, x.1.now)) result (titled_in content.now) }
    ensures whole { OnOk result (flaw content.now ≡ None) }
    ensures first { IfOk result (λ x. IsFirst (items_in content.now) x.1.now) }
{
    let alpha = needed(content, ALPHA_IDENTIFIER)?;
    let first = needed(content, ITEM)?;
    Ok((short_text_of(alpha)?, first))
}

#[tactic(auto, unfolding(crate::specs::Steps::choice_in))]
fn choice_in(content: &[u8], command: &mut Proactive) -> Result<(), ProactiveFault>
    ensures exact { Writes result command.new (choice_in content.now) }
    ensures proper { OnOk result (IsProper command.new) }
{
    let (title, _) = titled_in(content)?;
    let items = choice_of(content)?;
    *command = Proactive::SelectItem { title, items };
    Ok(())
}

#[tactic(auto, unfolding(crate::specs::Steps::menu_in))]
fn menu_in(content: &[u8], command: &mut Proactive) -> Result<(), ProactiveFault>
    ensures exact { Writes result command.new (menu_in content.now) }
    ensures proper { OnOk result (IsProper command.new) }
{
    let (title, first) = titled_in(content)?;
    let items = menu_of(content, first)?;
    *command = Proactive::SetUpMenu { title, items };
    Ok(())
}

#[tactic(auto, unfolding(crate::specs::Steps::event_list_in))]
fn event_list_in(content: &[u8], command: &mut Proactive) -> Result<(), ProactiveFault>
    requires { length content.now ≤ 254 }
    ensures exact { Writes result command.new (event_list_in content.now) }
    ensures proper { OnOk result (IsProper command.new) }
{
    let events = Octets::from_slice(needed(content, EVENT_LIST)?);
    *command = Proactive::SetUpEventList { events };
    Ok(())
}

fn write_refresh(mode: u8, command: &mut Proactive)
    ensures { command.new ≡ Refresh mode }
{
    *command = Proactive::Refresh { mode };
}

fn write_more_time(command: &mut Proactive)
    ensures { command.new ≡ MoreTime }
{
    *command = Proactive::MoreTime;
}

fn write_local_information(what: u8, command: &mut Proactive)
    ensures { command.new ≡ LocalInformation what }
{
    *command = Proactive::LocalInformation { what };
}

/// Writes the command with this type and qualifier.
// Each kind has a function of its own: a function makes room for the largest value of all its arms.
#[tactic(auto, unfolding(crate::specs::Steps::command_in))]
fn command_in(
    content: &[u8],
    kind: u8,
    qualifier: u8,
    command: &mut Proactive,
) -> Result<(), ProactiveFault>
    requires { length content.now ≤ 254 }
    ensures exact { Writes result command.new (command_in kind qualifier content.now) }
    ensures proper { OnOk result (IsProper command.new) }
{
    match kind {
        REFRESH => {
            write_refresh(qualifier, command);
            Ok(())
        }
        MORE_TIME => {
            write_more_time(command);
            Ok(())
        }
        POLL_INTERVAL => poll_interval_in(content, command),
        SET_UP_EVENT_LIST => event_list_in(content, command),
        PLAY_TONE => tone_in(content, command),
        DISPLAY_TEXT => display_text_in(content, command),
        GET_INKEY => inkey_in(content, command),
        GET_INPUT => input_in(content, qualifier, command),
        SELECT_ITEM => choice_in(content, command),
        SET_UP_MENU => menu_in(content, command),
        LOCAL_INFORMATION => {
            write_local_information(qualifier, command);
            Ok(())
        }
        TIMER_MANAGEMENT if qualifier == START => started_timer_in(content, command),
        TIMER_MANAGEMENT => other_timer_in(content, qualifier, command),
        IDLE_TEXT => idle_text_in(content, command),
        _ => Err(ProactiveFault::UnknownType(kind)),
    }
}

/// Writes the command of a list of objects, and answers its details.
#[tactic(auto, unfolding(crate::specs::Steps::command_of))]
fn details_and(content: &[u8], command: &mut Proactive) -> Result<Details, ProactiveFault>
    requires { length content.now ≤ 254 }
    ensures exact { Tells result command.new (command_of content.now) }
    ensures proper { OnOk result (IsProper command.new) }
{
    let details = needed(content, COMMAND_DETAILS)?;
    let devices = needed(content, DEVICE_IDENTITIES)?;
    let (number, kind, qualifier) = three_bytes(details)?;
    command_in(content, kind, qualifier, command)?;
    let heading = heading_of(command);
    if heading.qualifier != qualifier || !is_sent_to(devices, heading.destination) {
        return Err(ProactiveFault::BadData);
    }
    Ok(Details {
        number,
        kind,
        qualifier,
    })
}

/// Writes the command that the bytes are, and answers its details: the first object with each tag and all items count,
/// whichever flags they have, and other objects are passed over. After a fault the command is any.
#[tactic(auto, using(crate::proofs::ProactiveOfLemmas::faulty_by_table))]
pub fn read_command(bytes: &[u8], command: &mut Proactive) -> Result<Details, ProactiveFault>
    requires { length bytes.now ≤ 256 }
    ensures exact { Tells result command.new (proactive_of bytes.now) }
    ensures proper { OnOk result (IsProper command.new) }
{
    details_and(objects_in(bytes)?, command)
}

/// The command that the bytes are, with its details, read as `read_command` reads it.
pub fn read_proactive(bytes: &[u8]) -> Result<(Details, Proactive), ProactiveFault>
    requires { length bytes.now ≤ 256 }
    ensures exact { result ≡ proactive_of bytes.now }
    ensures proper { IfOk result (λ x. IsProper x.1) }
    ensures bounded { IfOk result (λ x. IsBounded x.1) }

    // What was spelled is read back, with its number.
    ensures read_back { (command : ACommand) (number : ℕ)
        → IsProper command → IsBounded command → bytes.now ≡ spelled command number
        → result ≡ Ok (details_of command number, command) }
{
    let mut command = Proactive::MoreTime;
    match read_command(bytes, &mut command) {
        Ok(details) => Ok((details, command)),
        Err(fault) => Err(fault),
    }
}

/// The details of a command, where they are three bytes long.
fn read_details(bytes: &[u8]) -> Result<Details, ProactiveFault>
    ensures { result ≡ details_read bytes.now }
{
    let content = objects_in(bytes)?;
    let (number, kind, qualifier) = three_bytes(needed(content, COMMAND_DETAILS)?)?;
    Ok(Details {
        number,
        kind,
        qualifier,
    })
}

/// The details of a command, also of one that cannot be read: where they are three bytes long, else `00 00 00`.
pub fn found_details(bytes: &[u8]) -> Details
    ensures exact { result ≡ details_found bytes.now }
    ensures of_command { (details : ADetails) (command : ACommand)
        → proactive_of bytes.now ≡ Ok (details, command) → result ≡ details }
{
    match read_details(bytes) {
        Ok(details) => details,
        Err(_) => NO_DETAILS,
    }
}

/// The details of a command in which none were found.
const NO_DETAILS: Details = Details {
    number: 0x00,
    kind: 0x00,
    qualifier: 0x00,
};
