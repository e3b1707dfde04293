//! The section of a card, which stays from row to row.
ghost use Rattle.std.specs.Prelude.{IfSome};
ghost use Rattle.card_state.specs.AppletKinds.{IsAppletKind};

use crate::entries::pin;
use crate::rows::Row;
use card_state::{SectionFault, Shape};
use layout_section::Section;
use uicc_types::{FileId, Shelf};

/// `section LINE`: whether the line is added. `new`, `df PATH`, `ef PATH SHAPE SHORT RULE`, `fill PATH OFFSET BYTES`,
/// `record PATH NUMBER BYTES`, `pin KEY VALUE on|off UNBLOCK`, `row SHELF PRIORITY KIND DATA`.
pub fn show_line(section: &mut Section, row: &mut Row<'_>) {
    let added = match row.word() {
        "new" => return make_new(section, row),
        "df" => section.add_df(path(row).as_slice()),
        "ef" => add_ef(section, row),
        "fill" => {
            let (path, offset, content) = (path(row), row.number(), row.bytes());
            section.fill(path.as_slice(), offset, content.as_slice())
        }
        "record" => {
            let (path, number, content) = (path(row), row.small_number(), row.bytes());
            section.set_record(path.as_slice(), number, content.as_slice())
        }
        "pin" => section.pin(row.byte(), pin(row), row.either("on", "off"), pin(row)),
        "row" => add_row(section, row),
        _ => return row.reject(),
    };
    row.show(match added {
        Ok(()) => "added",
        Err(SectionFault::Bad) => "bad",
        Err(SectionFault::NoRoom) => "no room",
    });
}

/// Begins anew.
fn make_new(section: &mut Section, row: &mut Row<'_>) {
    match Section::new(row.alloc()) {
        Ok(new) => {
            *section = new;
            row.show("the MF");
        }
        Err(fault) => row.need::<(), _>(Err(fault)),
    }
}

/// Identifiers joined by `/`, or `-` for the MF.
fn path(row: &mut Row<'_>) -> Vec<FileId> {
    let mut path = Vec::new(row.alloc());
    let word = row.word();
    if word != "-" {
        for id in word.split('/') {
            let id = FileId(row.double_byte_in(id));
            row.need(path.push(id));
        }
    }
    path
}

fn add_ef(section: &mut Section, row: &mut Row<'_>) -> Result<(), SectionFault> {
    let path = path(row);
    let shape = shape(row);
    let short = row.optional_number();
    let rule = rule(row);
    section.add_ef(path.as_slice(), shape, short, rule)
}

/// `SIZE`, `LENGTHxCOUNT` or `ring:LENGTHxCOUNT`.
fn shape(row: &mut Row<'_>) -> Shape {
    let word = row.word();
    let (is_ring, records) = match word.strip_prefix("ring:") {
        Some(records) => (true, records),
        None => (false, word),
    };
    match records.split_once('x') {
        Some((length, count)) => {
            let (length, count) = (row.small_number_in(length), row.small_number_in(count));
            if is_ring {
                Shape::Cyclic { length, count }
            } else {
                Shape::Linear { length, count }
            }
        }
        None => Shape::Transparent {
            size: row.number_in(word),
        },
    }
}

/// `ARR:RECORD`, or `-` for none.
fn rule(row: &mut Row<'_>) -> Option<(FileId, u8)> {
    let (arr, record) = row.word().split_once(':')?;
    Some((FileId(row.double_byte_in(arr)), row.small_number_in(record)))
}

fn add_row(section: &mut Section, row: &mut Row<'_>) -> Result<(), SectionFault> {
    let shelf = Shelf(row.small_number());
    let priority = row.small_number();
    let kind = kind(row);
    section.row(shelf, priority, row.all_bytes().as_slice(), kind)
}

/// The kind of the applet's object, from 1 to 7, or `-` for none.
fn kind(row: &mut Row<'_>) -> Option<u8>
    ensures { IfSome result IsAppletKind }
{
    match row.optional_number() {
        Some(kind @ 1..=7) => Some(kind),
        Some(_) => {
            row.reject();
            None
        }
        None => None,
    }
}
