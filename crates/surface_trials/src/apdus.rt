//! APDUs, the objects in them, and rules of access.

use access_rules::{Op, Verified, allowed};
use apdu_form::{Command, WrongLength, read_command, write_answer};
use comprehension_tlv::{Part, TlvFault, TlvWriter, Walk, find, read_template, walk};
use uicc_types::{Answer, Full, Octets};

/// The channel that a command's class names.
fn channel_in(bytes: &[u8]) -> Result<u8, WrongLength> {
    let command: Command<'_> = read_command(bytes)?;
    Ok(command.channel())
}

/// How many bytes an answer takes.
fn length_of(answer: &Answer) -> usize {
    let mut out = [0; 258];
    write_answer(answer, &mut out)
}

/// A template with one object.
fn template_of(value: &[u8]) -> Result<Octets, Full> {
    let mut writer = TlvWriter::new();
    writer.put(0x0F, true, value)?;
    writer.finish(0xD0)
}

/// The first object of a template.
fn first_in(template: &[u8]) -> Result<Option<Part<'_>>, TlvFault> {
    let (_tag, content): (u8, &[u8]) = read_template(template)?;
    let mut objects: Walk<'_> = walk(content);
    objects.next()
}

fn found_in(content: &[u8]) -> Result<Option<&[u8]>, TlvFault> {
    find(content, 0x0F)
}

fn may_read(rule: &[u8], seen: &Verified) -> bool {
    allowed(rule, Op::ReadBinary, seen)
}
