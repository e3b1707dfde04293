//! The registry of applets: a table that stays from row to row.
ghost use Rattle.std.specs.Prelude.{◌≡◌, count_by, IsSome, IsTrue};
ghost use Rattle.card_state.specs.Sections.{has_text};
ghost use Rattle.card_state.specs.States.{rows_of};
ghost use Rattle.card_state.specs.Checks.{shows_item};
ghost use Rattle.toolkit_model.specs.Registry.{row_on};

use crate::rows::Row;
use crate::spelled::show_items;
use applet_registry::{delete, deregister, install, menu, register};
use card_state::events::{with_event, without_event};
use card_state::sizes::MENU_LIMIT;
use card_state::{Loaded, Row as AppletRow, states_are_of_entries};
use toolkit_model::RowFault;
use uicc_types::{Kept, Shelf, ShortText};

/// The bit of call control among a row's events.
const CALL_CONTROL_BIT: u16 = 0x800;

fn applet_row(sequence: u16, events: u16, text: ShortText) -> AppletRow {
    AppletRow {
        used: true,
        kind: 1,
        priority: 1,
        sequence,
        events,
        text,
        kept: Kept::new(),
    }
}

/// `registry WIDTH [next NUMBER] [texts COUNT] [calls SHELF]`: makes the table of a narrow or a wide card with this next sequence
/// number, rows with the text "A" on its first shelves and one for call control on a shelf.
pub fn make_registry(table: &mut Loaded, row: &mut Row<'_>) {
    *table = Loaded::new();
    table.wide = row.either("wide", "narrow");
    for _ in 0..3 {
        match row.next() {
            Some("next") => table.next = row.number(),
            Some("texts") => add_texts(table, row.number()),
            Some("calls") => {
                let entry = applet_row(100, CALL_CONTROL_BIT, ShortText::new());
                put_row(table, row.small_number(), entry);
            }
            Some(_) => row.reject(),
            None => break,
        }
    }
    let count = table.rows.iter().filter(|row| row.used).count();
    row.show_number("", count as u64);
    row.show(" rows");
}

fn add_texts(table: &mut Loaded, count: u16) {
    for (sequence, entry) in (0..count).zip(table.rows.iter_mut()) {
        *entry = applet_row(sequence, 0, ShortText::from_slice(b"A"));
    }
}

/// Puts a row on a shelf, where there is one.
fn put_row(table: &mut Loaded, shelf: u8, row: AppletRow) {
    if let Some(entry) = table.rows.get_mut(usize::from(shelf)) {
        *entry = row;
    }
}

fn show_row(applet: &AppletRow, row: &mut Row<'_>) {
    row.show_number("kind ", applet.kind);
    row.show_number(" priority ", applet.priority);
    row.show_number(" sequence ", applet.sequence);
    row.show_double_byte(" events ", applet.events);
    row.show_text(" text ", applet.text.as_slice());
    row.show_bytes(" kept ", applet.kept.as_slice());
}

fn show_fault(fault: RowFault, row: &mut Row<'_>) {
    row.show(match fault {
        RowFault::BadData => "bad data",
        RowFault::NoBox => "no box",
        RowFault::Narrow => "narrow",
        RowFault::Taken => "taken",
        RowFault::MenuFull => "menu full",
        RowFault::Spent => "spent",
        RowFault::NoRow => "no row",
        RowFault::NotIdle => "not idle",
    });
}

/// `install KIND SHELF PRIORITY DATA`: the row that the applet of this kind, or of none, takes, and the table has it.
pub fn show_install(table: &mut Loaded, row: &mut Row<'_>) {
    let kind = row.optional_number();
    let shelf = row.small_number();
    let priority = row.small_number();
    let content = row.all_bytes();
    match install(table, kind, Shelf(shelf), priority, content.as_slice()) {
        Ok(applet) => {
            show_row(&applet, row);
            put_row(table, shelf, applet);
            table.next = table.next.saturating_add(1);
        }
        Err(fault) => show_fault(fault, row),
    }
}

/// `delete SHELF idle` or `busy`: whether the row may go, and the table has it no more.
pub fn show_delete(table: &mut Loaded, row: &mut Row<'_>) {
    let shelf = row.small_number();
    match delete(table, Shelf(shelf), row.either("idle", "busy")) {
        Ok(()) => {
            put_row(table, shelf, AppletRow::unused());
            row.show("gone");
        }
        Err(fault) => show_fault(fault, row),
    }
}

/// Whether a shelf has a row.
fn has_row(table: &Loaded, shelf: Shelf) -> bool
    ensures { IsTrue result → IsSome (row_on (rows_of table.now) shelf.0) }
{
    delete(table, shelf, true).is_ok()
}

/// A change of the events that a row is registered for.
#[derive(Clone, Copy)]
pub enum Change {
    Register,
    Deregister,
}

/// `register SHELF CODE`, `deregister SHELF CODE`: whether the events of the row change, and those that it has then.
pub fn show_change(table: &mut Loaded, change: Change, row: &mut Row<'_>) {
    let shelf = Shelf(row.small_number());
    let code = row.byte();
    if !has_row(table, shelf) {
        return row.reject();
    }
    let answer = match change {
        Change::Register => register(table, shelf, code),
        Change::Deregister => deregister(table, shelf, code),
    };
    match answer {
        Ok(changed) => {
            row.show(if changed { "changed" } else { "unchanged" });
            show_changed(table, shelf, change, code, row);
        }
        Err(fault) => show_fault(fault, row),
    }
}

/// Makes the change, and shows the events that the row has then.
fn show_changed(table: &mut Loaded, shelf: Shelf, change: Change, code: u8, row: &mut Row<'_>) {
    if let Some(entry) = table.rows.get_mut(usize::from(shelf.0)) {
        entry.events = match change {
            Change::Register => with_event(entry.events, code),
            Change::Deregister => without_event(entry.events, code),
        };
        row.show_double_byte(", events ", entry.events);
    }
}

/// `menu`: its items.
pub fn show_menu(table: &Loaded, row: &mut Row<'_>) {
    if text_count(table) > MENU_LIMIT {
        return row.reject();
    }
    show_items(&menu(table), row);
}

fn shows_item(row: &AppletRow) -> bool
    ensures { result ≡ shows_item row.now }
{
    row.used && row.text.as_slice().len() != 0
}

/// How many items the menu has.
fn text_count(table: &Loaded) -> usize
    ensures { result ≡ count_by has_text (rows_of table.now) }
{
    states_are_of_entries();
    table
        .all_rows()
        .iter()
        .filter(|row| shows_item(row))
        .count()
}
