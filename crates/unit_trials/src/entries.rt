//! The entries of a card's layout, and the writes of their bytes.
ghost use Rattle.std.specs.Prelude.{◌≤◌, ◌<◌, IfSome};

use crate::rows::Row;
use crate::writes::show_added;
use card_state::sizes::{
    KEPT_WIDTH, NODE_COUNT, NODE_WIDTH, PIN_COUNT, PIN_WIDTH, ROW_COUNT, ROW_WIDTH,
};
use card_state::{Node, PinSlot, Row as AppletRow};
use layout_entries::{kept_write, node_write, pin_write, row_write, sequence_write, version_write};
use store_form::Writes;
use uicc_types::{FileId, Full, Pin8, Shelf};

/// The number of an entry, and which of its bytes are written: from one up to but without another.
#[derive(Clone, Copy)]
struct Part {
    at: u8,
    from: u8,
    to: u8,
}

/// `entry ENTRY ..`: the piece that is added to the writes. `file NUMBER FROM TO FIELDS`, `pin SLOT FROM TO FIELDS`,
/// `row SHELF FROM TO FIELDS`, `kept SHELF FIELDS`, `version WIDTH`, `sequence NUMBER`.
pub fn show_entry(writes: &mut Writes, row: &mut Row<'_>) {
    let added = match row.word() {
        "file" => write_file(writes, row),
        "pin" => write_pin(writes, row),
        "row" => write_row(writes, row),
        "kept" => write_kept(writes, row),
        "version" => Some(version_write(row.either("wide", "narrow"), writes)),
        "sequence" => Some(sequence_write(row.double_byte(), writes)),
        _ => None,
    };
    match added {
        Some(added) => show_added(writes, added, row),
        None => row.reject(),
    }
}

/// `NUMBER FROM TO`: the part of one of so many entries, each of so many bytes.
fn part_of(count: usize, width: usize, row: &mut Row<'_>) -> Option<Part>
    ensures { IfSome result (λ part. (part.at < count) × (part.from < part.to) × (part.to ≤ width)) }
{
    let part = Part {
        at: row.small_number(),
        from: row.small_number(),
        to: row.small_number(),
    };
    if usize::from(part.at) < count && part.from < part.to && usize::from(part.to) <= width {
        Some(part)
    } else {
        None
    }
}

fn write_file(writes: &mut Writes, row: &mut Row<'_>) -> Option<Result<(), Full>> {
    let part = part_of(NODE_COUNT, NODE_WIDTH, row)?;
    let node = node(row);
    Some(node_write(part.at, &node, part.from, part.to, writes))
}

/// `KIND ID PARENT SHORT LIFE RULE ARR PLACE SIZE LENGTH HEAD`
fn node(row: &mut Row<'_>) -> Node {
    Node {
        used: true,
        kind: row.byte(),
        id: FileId(row.double_byte()),
        parent: row.small_number(),
        short: row.small_number(),
        life: row.byte(),
        rule: row.small_number(),
        arr: FileId(row.double_byte()),
        place: row.number(),
        size: row.number(),
        length: row.small_number(),
        head: row.small_number(),
    }
}

fn write_pin(writes: &mut Writes, row: &mut Row<'_>) -> Option<Result<(), Full>> {
    let part = part_of(PIN_COUNT, PIN_WIDTH, row)?;
    let slot = pin_slot(row);
    Some(pin_write(part.at, &slot, part.from, part.to, writes))
}

/// `KEY on|off TRIES UNBLOCK-TRIES VALUE UNBLOCK`
fn pin_slot(row: &mut Row<'_>) -> PinSlot {
    PinSlot {
        key: row.byte(),
        enabled: row.either("on", "off"),
        tries: row.small_number(),
        unblock_tries: row.small_number(),
        value: pin(row),
        unblock: pin(row),
    }
}

/// The eight bytes of a PIN.
pub fn pin(row: &mut Row<'_>) -> Pin8 {
    match <[u8; 8]>::try_from(row.bytes().as_slice()) {
        Ok(value) => Pin8(value),
        Err(_) => {
            row.reject();
            Pin8([0; 8])
        }
    }
}

fn write_row(writes: &mut Writes, row: &mut Row<'_>) -> Option<Result<(), Full>> {
    let part = part_of(ROW_COUNT, ROW_WIDTH, row)?;
    let applet = applet_row(row);
    Some(row_write(Shelf(part.at), &applet, part.from, part.to, writes))
}

fn write_kept(writes: &mut Writes, row: &mut Row<'_>) -> Option<Result<(), Full>> {
    let at = row.small_number();
    let applet = applet_row(row);
    if usize::from(at) >= ROW_COUNT || applet.kept.as_slice().len() <= KEPT_WIDTH {
        return None;
    }
    Some(kept_write(Shelf(at), &applet, writes))
}

/// `KIND PRIORITY SEQUENCE EVENTS TEXT KEPT`
fn applet_row(row: &mut Row<'_>) -> AppletRow {
    AppletRow {
        used: true,
        kind: row.small_number(),
        priority: row.small_number(),
        sequence: row.double_byte(),
        events: row.double_byte(),
        text: row.list(),
        kept: row.list(),
    }
}
