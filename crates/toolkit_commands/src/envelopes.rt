//! Envelopes, and reading one in place.
ghost use Rattle.std.specs.Prelude.{◌≡◌, ◌≤◌, ◌+◌, length, IfOk, option_map};
ghost use Rattle.std.specs.Result.{result_ok};
ghost use Rattle.toolkit_commands.specs.Envelopes.{value_in, byte_in, envelope_in, envelope_of};
ghost use Rattle.toolkit_commands.specs.Reports.{reported, bytes_in};

use crate::tags::{
    ADDRESS, CALL_CONTROL, EVENT_DOWNLOAD, EVENT_LIST, ITEM_IDENTIFIER, MENU_SELECTION,
    TIMER_EXPIRATION, TIMER_IDENTIFIER,
};
use comprehension_tlv::{TlvFault, find, read_template};
use uicc_types::Octets;

/// What the handset reports to the card (TS 102 223, 7).
#[derive(Debug, Drop)]
pub enum Envelope {
    /// An item of the card's menu was chosen.
    Menu { item: u8 },
    /// A call is about to be set up, to this address.
    CallControl { address: Octets },
    /// An event from the event list, with all objects of the envelope.
    Event { code: u8, body: Octets },
    /// A timer, from 1 to 8, has run down.
    Timer { timer: u8 },
}

/// The bytes are no envelope that is known.
#[derive(Clone, Copy, Debug, PartialEq, Eq)]
pub struct BadEnvelope;

impl From<TlvFault> for BadEnvelope {
    fn from(_: TlvFault) -> Self {
        BadEnvelope
    }
}

/// An envelope, whose bytes stay where they are.
#[derive(Clone, Copy, Debug)]
pub enum EnvelopeRef<'a> {
    /// An item of the card's menu was chosen.
    Menu { item: u8 },
    /// A call is about to be set up, to this address.
    CallControl { address: &'a [u8] },
    /// An event from the event list, with all objects of the envelope.
    Event { code: u8, body: &'a [u8] },
    /// A timer, from 1 to 8, has run down.
    Timer { timer: u8 },
}

// The value of the first object with the tag.
#[tactic(auto, unfolding(crate::specs::Envelopes::value_in))]
fn value_in(content: &[u8], tag: u16) -> Result<&[u8], BadEnvelope>
    ensures exact { option_map (λ value. value.now) (result_ok result) ≡ value_in tag content.now }
    ensures fits { IfOk result (λ value. length value.now + 2 ≤ length content.now) }
{
    find(content, tag)?.ok_or(BadEnvelope)
}

// The same, where it is one byte.
fn byte_in(content: &[u8], tag: u16) -> Result<u8, BadEnvelope>
    ensures { result_ok result ≡ byte_in tag content.now }
{
    match value_in(content, tag)? {
        [byte] => Ok(*byte),
        _ => Err(BadEnvelope),
    }
}

// What a template with this tag and content says.
#[tactic(auto, unfolding(crate::specs::Envelopes::envelope_in))]
fn report_in(tag: u8, content: &[u8]) -> Result<EnvelopeRef<'_>, BadEnvelope>
    ensures exact { option_map reported (result_ok result) ≡ envelope_in tag content.now }
    ensures fits { IfOk result (λ report. length (bytes_in report) ≤ length content.now) }
{
    match tag {
        MENU_SELECTION => {
            let item = byte_in(content, ITEM_IDENTIFIER)?;
            Ok(EnvelopeRef::Menu { item })
        }
        CALL_CONTROL => match value_in(content, ADDRESS)? {
            [] => Err(BadEnvelope),
            address => Ok(EnvelopeRef::CallControl { address }),
        },
        EVENT_DOWNLOAD => {
            let code = byte_in(content, EVENT_LIST)?;
            Ok(EnvelopeRef::Event {
                code,
                body: content,
            })
        }
        TIMER_EXPIRATION => match byte_in(content, TIMER_IDENTIFIER)? {
            timer @ 1..=8 => Ok(EnvelopeRef::Timer { timer }),
            _ => Err(BadEnvelope),
        },
        _ => Err(BadEnvelope),
    }
}

/// What the bytes report: a template whose content is a list of objects, of which the first with the template's tag
/// counts and others are passed over.
#[tactic(auto, unfolding(crate::specs::Envelopes::envelope_of))]
pub fn read_envelope_in_place(bytes: &[u8]) -> Result<EnvelopeRef<'_>, BadEnvelope>
    ensures exact { option_map reported (result_ok result) ≡ envelope_of bytes.now }
    ensures fits { IfOk result (λ report. length (bytes_in report) + 2 ≤ length bytes.now) }
{
    let (tag, content) = read_template(bytes)?;
    report_in(tag, content)
}

/// The same, with copies of the bytes that it hands on.
pub fn read_envelope(bytes: &[u8]) -> Result<Envelope, BadEnvelope>
    requires { length bytes.now ≤ 256 }
    ensures { result_ok result ≡ envelope_of bytes.now }
{
    match read_envelope_in_place(bytes)? {
        EnvelopeRef::Menu { item } => Ok(Envelope::Menu { item }),
        EnvelopeRef::CallControl { address } => Ok(Envelope::CallControl {
            address: Octets::from_slice(address),
        }),
        EnvelopeRef::Event { code, body } => Ok(Envelope::Event {
            code,
            body: Octets::from_slice(body),
        }),
        EnvelopeRef::Timer { timer } => Ok(Envelope::Timer { timer }),
    }
}
