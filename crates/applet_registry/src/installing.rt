//! The row of an applet that is to be registered, and whether one may go.
ghost use Rattle.std.specs.Prelude.{◌≡◌, ◌<◌, ℕ, List, true, IfOk, ◌&&◌, not};
ghost use Rattle.card_state.specs.declared.events.TheConstants.{EVENTS_END};
ghost use Rattle.card_state.specs.Installations.{registered};
ghost use Rattle.card_state.specs.Sections.{needs_wide};
ghost use Rattle.card_state.specs.States.{registration_of, rows_of, state_of};
ghost use Rattle.toolkit_model.specs.Registry.{is_taken, is_menu_full, installed_row, deleted_row};
ghost use Rattle.applet_registry.specs.Rows.{IsAdmitted, registration_for, allowed};

use crate::rows::{answers_calls, has_text, is_answered, row_on, text_count};
use card_state::sizes::{KEPT_WIDTH, LOWER_ROW_COUNT, MENU_LIMIT};
use card_state::{Installed, Loaded, Row, read_installation};
use toolkit_model::RowFault;
use uicc_types::Shelf;

// Whether only a wide card can hold this row, and this one isn't wide.
fn is_too_narrow(loaded: &Loaded, shelf: Shelf, row: &Row) -> bool
    ensures { result ≡ (needs_wide (registration_of shelf.0 row.now) && not loaded.now.wide) }
{
    (usize::from(shelf.0) >= LOWER_ROW_COUNT || row.kept.as_slice().len() > KEPT_WIDTH)
        && !loaded.wide
}

fn is_taken(loaded: &Loaded, shelf: Shelf, row: &Row) -> bool
    ensures { result ≡ is_taken (rows_of loaded.now) (registration_of shelf.0 row.now) }
{
    match row_on(loaded, shelf) {
        Some(_) => true,
        None => answers_calls(row) && is_answered(loaded, shelf),
    }
}

// Whether the row has a text, and the menu no room for it.
fn exceeds_menu(loaded: &Loaded, row: &Row) -> bool
    ensures { (shelf : ℕ) → result ≡ is_menu_full (rows_of loaded.now) (registration_of shelf row.now) }
{
    has_text(row) && text_count(loaded) >= MENU_LIMIT
}

// The row of these data, with the next sequence number.
fn new_row(loaded: &Loaded, kind: u8, priority: u8, installed: Installed) -> Row
    ensures row { (shelf : ℕ) → registration_of shelf result
        ≡ registered shelf kind priority loaded.now.next installed }
    ensures used { result.used ≡ true }
    ensures events { result.events ≡ installed.events }
{
    let Installed { events, text, kept } = installed;
    Row {
        used: true,
        kind,
        priority,
        sequence: loaded.next,
        events,
        text,
        kept,
    }
}

/// The row that an applet of this kind takes on this shelf, with this priority and these data of an INSTALL command. It has the
/// next sequence number, which then rises by one, in the same commit.
///
/// The refusals in their order: `BadData` where the data are none of an installation, `NoBox` where there is no applet,
/// `Narrow` where the card isn't wide and the shelf is above 15 or more than 32 bytes are kept, `Taken` where the shelf has
/// a row or another row answers call control too, `MenuFull` where there is a text and 16 rows have one, `Spent` where the
/// next sequence number is 65,535.
///
/// The shelf, the priority and the kind stand in the row as they are given. Who calls bounds them: P2 of the command is a shelf
/// below 32, its P1 a priority of at least 1, and the kind of the applet's box is a known one.
#[tactic(auto, using(crate::proofs::ReadsInstallationLemmas::parts_of))]
pub fn install(
    loaded: &Loaded,
    kind: Option<u8>,
    shelf: Shelf,
    priority: u8,
    content: &[u8],
) -> Result<Row, RowFault>
    ensures row { (held : List ℕ) → registration_for shelf.0 result ≡ installed_row
        (state_of loaded.now held) kind shelf.0 priority content.now }
    ensures used { IfOk result (λ row. row.used ≡ true) }
    ensures events { IfOk result (λ row. row.events < EVENTS_END) }
    ensures admitted { IfOk result (IsAdmitted loaded.now shelf.0) }
{
    let Some(installed) = read_installation(content) else {
        return Err(RowFault::BadData);
    };
    let Some(kind) = kind else {
        return Err(RowFault::NoBox);
    };
    let row = new_row(loaded, kind, priority, installed);
    if is_too_narrow(loaded, shelf, &row) {
        Err(RowFault::Narrow)
    } else if is_taken(loaded, shelf, &row) {
        Err(RowFault::Taken)
    } else if exceeds_menu(loaded, &row) {
        Err(RowFault::MenuFull)
    } else if loaded.next == u16::MAX {
        Err(RowFault::Spent)
    } else {
        Ok(row)
    }
}

/// Whether the row of this shelf may go. `NoRow` where there is none, then `NotIdle` where its applet isn't idle.
pub fn delete(loaded: &Loaded, shelf: Shelf, idle: bool) -> Result<(), RowFault>
    ensures { result ≡ allowed (deleted_row (rows_of loaded.now) shelf.0 idle) }
{
    if row_on(loaded, shelf).is_none() {
        Err(RowFault::NoRow)
    } else if idle {
        Ok(())
    } else {
        Err(RowFault::NotIdle)
    }
}
