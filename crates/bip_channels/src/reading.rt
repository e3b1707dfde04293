//! Reading a command of the bearer independent protocol.
ghost use Rattle.std.specs.Prelude.{◌≡◌, ◌≤◌, ◌+◌, length, IfOk};
ghost use Rattle.toolkit_commands.specs.Steps.{Gives, template_in, needed};
ghost use Rattle.toolkit_commands.specs.Values.{one_byte, two_bytes, three_bytes, is_pair};
ghost use Rattle.bip_channels.specs.Commands.{IsNumber, IsProper};
ghost use Rattle.bip_channels.specs.Reading.{channel_of, is_default_bearer, opening_in, closing_in, receiving_in, sending_in, status_in, command_in, command_of, bip_of};

use crate::codes::{
    AT_ONCE, BEARER_DESCRIPTION, BUFFER_SIZE, CHANNEL_DATA, CHANNEL_DATA_LENGTH, CHANNEL_DEVICES,
    CLOSE_CHANNEL, DEFAULT_BEARER, GET_CHANNEL_STATUS, OPEN_CHANNEL, RECEIVE_DATA, SEND_DATA,
    SEND_NOW,
};
use crate::commands::BipCommand;
use comprehension_tlv::{find, read_template};
use toolkit_commands::devices::{CARD, TERMINAL};
use toolkit_commands::qualifiers::NONE;
use toolkit_commands::tags::{COMMAND_DETAILS, DEVICE_IDENTITIES, PROACTIVE_COMMAND};
use toolkit_commands::{Details, ProactiveFault};
use uicc_types::Octets;

/// The list of objects in the template of a command.
#[tactic(auto, unfolding(toolkit_commands::specs::Steps::template_in))]
fn objects_in(bytes: &[u8]) -> Result<&[u8], ProactiveFault>
    ensures exact { Gives (λ x. x.now) result (template_in bytes.now) }
    ensures fits { IfOk result (λ content. length content.now + 2 ≤ length bytes.now) }
{
    let (tag, content) = read_template(bytes)?;
    if tag != PROACTIVE_COMMAND {
        return Err(ProactiveFault::Tlv);
    }
    Ok(content)
}

/// The value of the first object with the tag.
#[tactic(auto, unfolding(toolkit_commands::specs::Steps::needed))]
fn needed(content: &[u8], tag: u16) -> Result<&[u8], ProactiveFault>
    ensures exact { Gives (λ x. x.now) result (needed tag content.now) }
    ensures fits { IfOk result (λ value. length value.now + 2 ≤ length content.now) }
{
    find(content, tag)?.ok_or(ProactiveFault::Missing)
}

fn one_byte(value: &[u8]) -> Result<u8, ProactiveFault>
    ensures { result ≡ one_byte value.now }
{
    match value {
        [byte] => Ok(*byte),
        _ => Err(ProactiveFault::BadData),
    }
}

fn two_bytes(value: &[u8]) -> Result<(u8, u8), ProactiveFault>
    ensures { result ≡ two_bytes value.now }
{
    match value {
        [first, second] => Ok((*first, *second)),
        _ => Err(ProactiveFault::BadData),
    }
}

fn three_bytes(value: &[u8]) -> Result<(u8, u8, u8), ProactiveFault>
    ensures { result ≡ three_bytes value.now }
{
    match value {
        [first, second, third] => Ok((*first, *second, *third)),
        _ => Err(ProactiveFault::BadData),
    }
}

/// The number of the channel that the card speaks to.
fn channel_of(devices: &[u8]) -> Result<u8, ProactiveFault>
    ensures exact { result ≡ channel_of devices.now }
    ensures known { IfOk result IsNumber }
{
    match devices {
        [CARD, device @ 0x21..=0x27] => Ok(*device - CHANNEL_DEVICES),
        _ => Err(ProactiveFault::BadData),
    }
}

/// Whether the card speaks to the terminal.
fn is_to_terminal(devices: &[u8]) -> bool
    ensures { result ≡ is_pair devices.now CARD TERMINAL }
{
    match devices {
        [CARD, to] => *to == TERMINAL,
        _ => false,
    }
}

fn is_default_bearer(bearer: &[u8]) -> bool
    ensures { result ≡ is_default_bearer bearer.now }
{
    match bearer {
        [bearer] => *bearer == DEFAULT_BEARER,
        _ => false,
    }
}

#[tactic(auto, unfolding(crate::specs::Reading::opening_in))]
fn opening_in(content: &[u8], qualifier: u8, devices: &[u8]) -> Result<BipCommand, ProactiveFault>
    ensures exact { result ≡ opening_in qualifier devices.now content.now }
    ensures proper { IfOk result IsProper }
{
    let bearer = needed(content, BEARER_DESCRIPTION)?;
    let size = needed(content, BUFFER_SIZE)?;
    let (high, low) = two_bytes(size)?;
    if qualifier == AT_ONCE && (is_to_terminal(devices) && is_default_bearer(bearer)) {
        Ok(BipCommand::OpenChannel {
            size: u16::from_be_bytes([high, low]),
        })
    } else {
        Err(ProactiveFault::BadData)
    }
}

#[tactic(auto, unfolding(crate::specs::Reading::closing_in))]
fn closing_in(qualifier: u8, devices: &[u8]) -> Result<BipCommand, ProactiveFault>
    ensures exact { result ≡ closing_in qualifier devices.now }
    ensures proper { IfOk result IsProper }
{
    let channel = channel_of(devices)?;
    if qualifier == NONE {
        Ok(BipCommand::CloseChannel { channel })
    } else {
        Err(ProactiveFault::BadData)
    }
}

#[tactic(auto, unfolding(crate::specs::Reading::receiving_in))]
fn receiving_in(content: &[u8], qualifier: u8, devices: &[u8]) -> Result<BipCommand, ProactiveFault>
    ensures exact { result ≡ receiving_in qualifier devices.now content.now }
    ensures proper { IfOk result IsProper }
{
    let count = one_byte(needed(content, CHANNEL_DATA_LENGTH)?)?;
    let channel = channel_of(devices)?;
    if qualifier == NONE {
        Ok(BipCommand::ReceiveBytes { channel, count })
    } else {
        Err(ProactiveFault::BadData)
    }
}

#[tactic(auto, unfolding(crate::specs::Reading::sending_in))]
fn sending_in(content: &[u8], qualifier: u8, devices: &[u8]) -> Result<BipCommand, ProactiveFault>
    requires { length content.now ≤ 255 }
    ensures exact { result ≡ sending_in qualifier devices.now content.now }
    ensures proper { IfOk result IsProper }
{
    let bytes = needed(content, CHANNEL_DATA)?;
    let channel = channel_of(devices)?;
    if qualifier <= SEND_NOW {
        Ok(BipCommand::SendBytes {
            channel,
            bytes: Octets::from_slice(bytes),
            now: qualifier == SEND_NOW,
        })
    } else {
        Err(ProactiveFault::BadData)
    }
}

#[tactic(auto, unfolding(crate::specs::Reading::status_in))]
fn status_in(qualifier: u8, devices: &[u8]) -> Result<BipCommand, ProactiveFault>
    ensures exact { result ≡ status_in qualifier devices.now }
    ensures proper { IfOk result IsProper }
{
    if qualifier == NONE && is_to_terminal(devices) {
        Ok(BipCommand::ChannelStatus)
    } else {
        Err(ProactiveFault::BadData)
    }
}

/// The command with this type and qualifier.
#[tactic(auto, unfolding(crate::specs::Reading::command_in))]
fn command_in(
    content: &[u8],
    kind: u8,
    qualifier: u8,
    devices: &[u8],
) -> Result<BipCommand, ProactiveFault>
    requires { length content.now ≤ 255 }
    ensures exact { result ≡ command_in kind qualifier devices.now content.now }
    ensures proper { IfOk result IsProper }
{
    match kind {
        OPEN_CHANNEL => opening_in(content, qualifier, devices),
        CLOSE_CHANNEL => closing_in(qualifier, devices),
        RECEIVE_DATA => receiving_in(content, qualifier, devices),
        SEND_DATA => sending_in(content, qualifier, devices),
        GET_CHANNEL_STATUS => status_in(qualifier, devices),
        _ => Err(ProactiveFault::UnknownType(kind)),
    }
}

/// The command of a list of objects, with its details.
#[tactic(auto, unfolding(crate::specs::Reading::command_of))]
fn command_of(content: &[u8]) -> Result<(Details, BipCommand), ProactiveFault>
    requires { length content.now ≤ 255 }
    ensures exact { result ≡ command_of content.now }
    ensures proper { IfOk result (λ x. IsProper x.1) }
{
    let details = needed(content, COMMAND_DETAILS)?;
    let devices = needed(content, DEVICE_IDENTITIES)?;
    let (number, kind, qualifier) = three_bytes(details)?;
    let command = command_in(content, kind, qualifier, devices)?;
    let details = Details {
        number,
        kind,
        qualifier,
    };
    Ok((details, command))
}

/// The command that the bytes are, with its details: the first object with each tag counts, whichever flags the objects
/// have, and other objects are passed over.
#[tactic(auto, unfolding(crate::specs::Reading::bip_of))]
pub fn read_bip(bytes: &[u8]) -> Result<(Details, BipCommand), ProactiveFault>
    requires { length bytes.now ≤ 255 }
    ensures exact { result ≡ bip_of bytes.now }
    ensures proper { IfOk result (λ x. IsProper x.1) }
{
    command_of(objects_in(bytes)?)
}
