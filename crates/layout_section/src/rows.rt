//! The rows of a section.
ghost use Rattle.std.specs.Prelude.{◌≡◌, ℕ, ◌==◌, ◌<◌, ◌≤◌, ◌+◌, ◌*◌, All, slice_index_or, not, true, [], ◌∷◌, length, count_by};
ghost use Rattle.std.specs.List.{list_any, enumerate_from};
ghost use Rattle.card_state.specs.Sections.{has_text, is_call_control, needs_wide, with_row};
ghost use Rattle.card_state.specs.Installations.{HasParts, registered};
ghost use Rattle.card_state.specs.Blank.{unused_row};
ghost use Rattle.card_state.specs.Decoding.{bytes_at};
ghost use Rattle.card_state.specs.Checks.{shows_item};
ghost use Rattle.card_state.specs.AppletKinds.{IsAppletKind};
ghost use Rattle.layout_entries.specs.Spelling.{row_spelled};
ghost use Rattle.layout_section.specs.Installing.{answers_calls, has_item, may_take};
ghost use Rattle.layout_section.specs.RowTables.{controls, wants_wide, IsKeptApart, SpellsRows};

use crate::bytes::put;
use card_state::events::has_call_control;
use card_state::sizes::{
    KEPT_LIMIT, KEPT_WIDTH, LOWER_ROW_COUNT, MENU_LIMIT, ROW_COUNT, ROW_STRIDE, ROW_WIDTH,
};
use card_state::{Installed, Row};
use layout_entries::spell_row;
use std::array;
use std::marker::Model;
use uicc_types::Shelf;

// How many bytes half of the rows have, and all bytes that stand apart from the rows.
const ROWS_LENGTH: usize = ROW_STRIDE * LOWER_ROW_COUNT;

const KEPT_LENGTH: usize = KEPT_WIDTH * ROW_COUNT;

/// The rows by their shelves, and the next sequence number. A contract sees the rows that are used.
#[derive(Drop)]
pub struct Rows {
    rows: [Row; ROW_COUNT],
    next: u16,
}

impl Model for Rows {
    ghost use Rattle.layout_section.specs.Adding.{RowList};

    ghost Value = { RowList };

    ghost use Rattle.layout_section.specs.RowTables.{rows_of, AreRows};

    ghost view = { rows_of };

    ghost invariant = { AreRows };
}

fn controls_calls(row: &Row) -> bool
    ensures { result ≡ controls row.now }
{
    row.used && has_call_control(row.events)
}

fn shows_text(row: &Row) -> bool
    ensures { result ≡ shows_item row.now }
{
    row.used && row.text.as_slice().len() != 0
}

fn some_controls_calls(rows: &[Row]) -> bool
    ensures { result ≡ list_any controls rows.now }
{
    rows.iter().any(|row| controls_calls(row))
}

// Only a wide card can hold this row on this shelf.
fn is_wide_row(shelf: usize, row: &Row) -> bool
    ensures { result ≡ wants_wide shelf row.now }
{
    row.used && (shelf >= LOWER_ROW_COUNT || row.kept.as_slice().len() > KEPT_WIDTH)
}

fn some_wide_row(rows: &[Row]) -> bool
    ensures { result ≡ list_any (λ entry. wants_wide entry.0 entry.1) (enumerate_from 0 rows.now) }
{
    rows.iter()
        .enumerate()
        .any(|(shelf, row)| is_wide_row(shelf, row))
}

fn shown_texts(rows: &[Row]) -> usize
    requires { length rows.now < 64 }
    ensures { result ≡ count_by shows_item rows.now }
{
    rows.iter().filter(|row| shows_text(row)).count()
}

fn installs_control(installed: &Installed) -> bool
    ensures { result ≡ answers_calls installed.now }
{
    has_call_control(installed.events)
}

fn installs_text(installed: &Installed) -> bool
    ensures { result ≡ has_item installed.now }
{
    installed.text.as_slice().len() != 0
}

// These rows, half of a wide card's, as they are spelled.
fn spell_rows(rows: &[Row]) -> [u8; ROWS_LENGTH]
    requires { length rows.now ≡ LOWER_ROW_COUNT }
    ensures { (k : ℕ) → k < LOWER_ROW_COUNT →
        bytes_at result (ROW_STRIDE * k) ROW_WIDTH ≡ row_spelled (slice_index_or rows.now k unused_row) }
{
    let mut bytes = [0; ROWS_LENGTH];
    for shelf in 0..LOWER_ROW_COUNT {
        put(
            &mut bytes,
            ROW_STRIDE * shelf,
            spell_row(&rows[shelf]).as_slice(),
        );
    }
    bytes
}

// What a row keeps beyond 32 bytes.
fn kept_apart(row: &Row) -> [u8; KEPT_WIDTH]
    requires { length row.now.kept ≤ KEPT_LIMIT }
    ensures long { length result ≡ KEPT_WIDTH }
    ensures more { IsKeptApart row.now result }
{
    let kept = row.kept.as_slice();
    let mut bytes = [0; KEPT_WIDTH];
    if kept.len() > KEPT_WIDTH {
        put(&mut bytes, 0, &kept[KEPT_WIDTH..]);
    }
    bytes
}

// What each row keeps beyond 32 bytes, one after the other.
fn spell_kept(rows: &[Row]) -> [u8; KEPT_LENGTH]
    requires long { length rows.now ≡ ROW_COUNT }
    requires kept { All (λ row. length row.kept ≤ KEPT_LIMIT) rows.now }
    ensures { (k : ℕ) → k < ROW_COUNT →
        IsKeptApart (slice_index_or rows.now k unused_row) (bytes_at result (KEPT_WIDTH * k) KEPT_WIDTH) }
{
    let mut bytes = [0; KEPT_LENGTH];
    for shelf in 0..ROW_COUNT {
        put(&mut bytes, KEPT_WIDTH * shelf, &kept_apart(&rows[shelf]));
    }
    bytes
}

/// The rows as they are spelled: those of the shelves up to 15, those above, and what each keeps beyond 32 bytes.
#[derive(Drop)]
pub struct SpelledRows {
    pub lower: [u8; ROWS_LENGTH],
    pub upper: [u8; ROWS_LENGTH],
    pub kept: [u8; KEPT_LENGTH],
}

impl Rows {
    /// No row.
    pub fn new() -> Rows
        ensures { result ≡ record { list = []; next = 0 } }
    {
        Rows {
            rows: array::from_fn(|_| Row::unused()),
            next: 0,
        }
    }

    // Whether no row is on this shelf.
    fn is_free(&self, shelf: Shelf) -> bool
        requires { shelf.0 < ROW_COUNT }
        ensures { result ≡ not (list_any (λ row. row.shelf == shelf.0) self.now.list) }
    {
        !self.rows[usize::from(shelf.0)].used
    }

    // Whether a row answers call control.
    fn has_call_control(&self) -> bool
        ensures { result ≡ list_any is_call_control self.now.list }
    {
        some_controls_calls(&self.rows)
    }

    // How many rows have a menu text.
    fn text_count(&self) -> usize
        ensures { result ≡ count_by has_text self.now.list }
    {
        shown_texts(&self.rows)
    }

    /// Whether a row can stand on a wide card alone.
    pub fn need_wide(&self) -> bool
        ensures { result ≡ list_any needs_wide self.now.list }
    {
        some_wide_row(&self.rows)
    }

    /// Whether a row may stand on this shelf with this priority: the shelf is one of a card and free, the priority is not
    /// 0, no second row answers call control, and at most 16 have a menu text.
    pub fn may_take(&self, shelf: Shelf, priority: u8, installed: &Installed) -> bool
        ensures { result ≡ may_take self.now.list shelf.0 priority installed.now }
    {
        usize::from(shelf.0) < ROW_COUNT
            && priority != 0
            && self.is_free(shelf)
            && !(installs_control(installed) && self.has_call_control())
            && !(installs_text(installed) && self.text_count() >= MENU_LIMIT)
    }

    /// Adds a row that may stand on this shelf. It takes the next sequence number.
    pub fn add(&mut self, shelf: Shelf, kind: u8, priority: u8, installed: Installed)
        requires may { may_take self.old.list shelf.0 priority installed ≡ true }
        requires kind { IsAppletKind kind }
        requires parts { HasParts installed }
        ensures list { self.new.list
            ≡ with_row self.old.list (registered shelf.0 kind priority self.old.next installed) }
        ensures next { self.new.next ≡ self.old.next + 1 }
    {
        let Installed { events, text, kept } = installed;
        self.rows[usize::from(shelf.0)] = Row {
            used: true,
            kind,
            priority,
            sequence: self.next,
            events,
            text,
            kept,
        };
        self.next += 1;
    }

    /// The rows as they are spelled.
    pub fn spelled(&self) -> SpelledRows
        ensures { SpellsRows self.now result.lower result.upper result.kept }
    {
        let rows = &self.rows[..];
        SpelledRows {
            lower: spell_rows(&rows[..LOWER_ROW_COUNT]),
            upper: spell_rows(&rows[LOWER_ROW_COUNT..]),
            kept: spell_kept(rows),
        }
    }

    /// The next sequence number.
    pub fn next(&self) -> u16
        ensures { result ≡ self.now.next }
    {
        self.next
    }
}
