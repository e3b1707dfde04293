//! Comprehension-TLV objects and templates.

use crate::rows::Row;
use comprehension_tlv::{TlvFault, TlvWriter, Walk, find, read_template, walk};
use uicc_types::Full;

fn show_fault(fault: TlvFault, row: &mut Row<'_>) {
    let (words, at) = match fault {
        TlvFault::NoTag(at) => ("no tag at ", at),
        TlvFault::BadLength(at) => ("bad length at ", at),
        TlvFault::CutShort(at) => ("cut short at ", at),
        TlvFault::Trailing(at) => ("trailing at ", at),
    };
    row.show_number(words, at as u64);
}

/// `objects BYTES`: the parts of a walk, and what it answers at the end, twice. `!` stands for the flag.
pub fn show_objects(row: &mut Row<'_>) {
    let bytes = row.all_bytes();
    let mut parts = walk(bytes.as_slice());
    for _ in 0..=bytes.len() {
        if !show_next(&mut parts, row) {
            break;
        }
    }
    show_next(&mut parts, row);
}

/// Shows what a walk answers next, and tells whether that is a part.
fn show_next(parts: &mut Walk<'_>, row: &mut Row<'_>) -> bool {
    row.part();
    match parts.next() {
        Ok(Some(part)) => {
            show_tag(part.tag, row);
            row.show_bytes(if part.flag { "! " } else { " " }, part.value);
            return true;
        }
        Ok(None) => row.show("end"),
        Err(fault) => show_fault(fault, row),
    }
    false
}

fn show_tag(tag: u16, row: &mut Row<'_>) {
    let [high, low] = tag.to_be_bytes();
    if high > 0 {
        row.show_number("", high);
    }
    row.show_byte("", low);
}

/// `template BYTES`: its tag and its content.
pub fn show_template(row: &mut Row<'_>) {
    match read_template(row.all_bytes().as_slice()) {
        Ok((tag, content)) => {
            row.show_byte("", tag);
            row.show_bytes(" ", content);
        }
        Err(fault) => show_fault(fault, row),
    }
}

/// `first TAG BYTES`: the value of the first object with the tag.
pub fn show_first(row: &mut Row<'_>) {
    let tag = row.double_byte();
    match find(row.all_bytes().as_slice(), tag) {
        Ok(Some(value)) => row.show_bytes("", value),
        Ok(None) => row.show("nothing"),
        Err(fault) => show_fault(fault, row),
    }
}

/// `written TEMPLATE TAG VALUE ..`: the bytes that are written, in a template or in `none`, and the objects before them for which there
/// was no room. A tag with `!` has its flag.
pub fn show_written(row: &mut Row<'_>) {
    let template = row.word();
    let mut writer = TlvWriter::new();
    let mut tag = None;
    for word in row.words() {
        match tag {
            None => tag = Some(word),
            Some(tag_word) => {
                put_object(&mut writer, tag_word, word, row);
                tag = None;
            }
        }
    }
    row.part();
    match template {
        "none" => row.show_bytes("", writer.finish_list().as_slice()),
        _ => show_finished(writer, template, row),
    }
}

/// Puts an object whose tag is from `01` to `7E`.
fn put_object(writer: &mut TlvWriter, tag: &str, value: &str, row: &mut Row<'_>) {
    let (digits, flag) = match tag.strip_suffix('!') {
        Some(digits) => (digits, true),
        None => (tag, false),
    };
    match row.byte_in(digits) {
        number @ 1..=126 => {
            let value = row.bytes_in(value);
            if writer.put(u16::from(number), flag, value.as_slice()) == Err(Full) {
                row.part();
                row.show("no room for ");
                row.show(tag);
            }
        }
        _ => row.reject(),
    }
}

fn show_finished(writer: TlvWriter, template: &str, row: &mut Row<'_>) {
    match writer.finish(row.byte_in(template)) {
        Ok(bytes) => row.show_bytes("", bytes.as_slice()),
        Err(Full) => row.show("no room for the template"),
    }
}
