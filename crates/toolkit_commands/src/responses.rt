//! Terminal responses, and reading one in place.
ghost use Rattle.std.specs.Prelude.{◌≡◌, ◌≤◌, ◌-◌, length, IfOk, option_map, option_copied};
ghost use Rattle.std.specs.Result.{result_ok};
ghost use Rattle.comprehension_tlv.specs.Reading.{objects_of};
ghost use Rattle.comprehension_tlv.specs.Seen.{object_of};
ghost use Rattle.toolkit_commands.specs.Responses.{details_match, response_of, text_after};
ghost use Rattle.toolkit_commands.specs.Replies.{replied, first_of, item_first_found, with_object, values_of, values_in, response_from};

use crate::commands::Details;
use crate::tags::{COMMAND_DETAILS, ITEM_IDENTIFIER, RESULT, TEXT_STRING};
use comprehension_tlv::{Part, TlvFault, walk};
use uicc_types::Octets;

/// What the handset answered to a command (TS 102 223, 6.8).
#[derive(Debug, Drop)]
pub struct Response {
    /// The general result, the first byte of the result object.
    pub result: u8,
    /// The identifier of the item that was chosen, or 0.
    pub item: u8,
    /// The text that was typed, as bytes.
    pub text: Octets,
}

/// The bytes are no list of objects, answer to another command, or have no result.
#[derive(Clone, Copy, Debug, PartialEq, Eq)]
pub struct Mismatch;

impl From<TlvFault> for Mismatch {
    fn from(_: TlvFault) -> Self {
        Mismatch
    }
}

/// What the handset answered to a command; its text stays where it is.
#[derive(Clone, Copy, Debug)]
pub struct ResponseRef<'a> {
    /// The general result, the first byte of the result object.
    pub result: u8,
    /// The identifier of the item that was chosen, or 0.
    pub item: u8,
    /// The text that was typed, as bytes.
    pub text: &'a [u8],
}

// The values of the first objects that count, and the first item identifier of one byte.
#[derive(Clone, Copy, Debug)]
struct Found<'a> {
    details: Option<&'a [u8]>,
    result: Option<&'a [u8]>,
    text: Option<&'a [u8]>,
    item: Option<u8>,
}

// A value, where none was found before.
fn first_of<'a>(found: Option<&'a [u8]>, value: &'a [u8]) -> Option<&'a [u8]>
    ensures { option_copied result ≡ first_of (option_copied found.entry) value.now }
{
    match found {
        Some(before) => Some(before),
        None => Some(value),
    }
}

// An item identifier of one byte, where none was found before.
fn item_of(found: Option<u8>, value: &[u8]) -> Option<u8>
    ensures { result ≡ item_first_found found value.now }
{
    match found {
        Some(item) => Some(item),
        None => match value {
            [item] => Some(*item),
            _ => None,
        },
    }
}

impl<'a> Found<'a> {
    // Takes note of the next object.
    fn note(&mut self, part: &Part<'a>)
        ensures { values_of self.new ≡ with_object (object_of part.now) (values_of self.old) }
    {
        match part.tag {
            COMMAND_DETAILS => self.details = first_of(self.details, part.value),
            RESULT => self.result = first_of(self.result, part.value),
            TEXT_STRING => self.text = first_of(self.text, part.value),
            ITEM_IDENTIFIER => self.item = item_of(self.item, part.value),
            _ => {}
        }
    }
}

// What counts of a list of objects.
fn found_in(bytes: &[u8]) -> Result<Found<'_>, Mismatch>
    ensures { option_map values_of (result_ok result) ≡ values_in (objects_of bytes.now) }
{
    let mut found = Found {
        details: None,
        result: None,
        text: None,
        item: None,
    };
    let mut parts = walk(bytes);
    while let Some(part) = parts.next()? {
        found.note(&part);
    }
    Ok(found)
}

// Whether the details object is that of the command.
fn is_named(found: Option<&[u8]>, details: &Details) -> bool
    ensures { result ≡ details_match details.now (option_copied found.entry) }
{
    match found {
        Some([number, kind, qualifier]) => {
            *number == details.number && *kind == details.kind && *qualifier == details.qualifier
        }
        _ => false,
    }
}

// A text string without its coding.
fn text_after(found: Option<&[u8]>) -> &[u8]
    ensures { result.now ≡ text_after (option_copied found.entry) }
{
    match found {
        Some([_, text @ ..]) => text,
        _ => &[],
    }
}

// The answer to the command with these details.
fn reply_from<'a>(found: &Found<'a>, details: &Details) -> Result<ResponseRef<'a>, Mismatch>
    ensures { option_map replied (result_ok result) ≡ response_from details.now (values_of found.now) }
{
    if !is_named(found.details, details) {
        return Err(Mismatch);
    }
    match found.result {
        Some([result, ..]) => Ok(ResponseRef {
            result: *result,
            item: found.item.unwrap_or(0),
            text: text_after(found.text),
        }),
        _ => Err(Mismatch),
    }
}

/// The answer to the command with these details.
pub fn read_response_in_place<'a>(
    bytes: &'a [u8],
    details: &Details,
) -> Result<ResponseRef<'a>, Mismatch>
    ensures exact { option_map replied (result_ok result) ≡ response_of details.now bytes.now }
    ensures fits { IfOk result (λ reply. length reply.text.now ≤ length bytes.now - 1) }
{
    let found = found_in(bytes)?;
    reply_from(&found, details)
}

/// The same, with a copy of the text.
pub fn read_response(bytes: &[u8], details: &Details) -> Result<Response, Mismatch>
    requires { length bytes.now ≤ 256 }
    ensures { result_ok result ≡ response_of details.now bytes.now }
{
    let reply = read_response_in_place(bytes, details)?;
    Ok(Response {
        result: reply.result,
        item: reply.item,
        text: Octets::from_slice(reply.text),
    })
}
