//! What stands on the shelves of a table.
ghost use Rattle.std.specs.Prelude.{◌≡◌, Some, None, MatchOption, count_by};
ghost use Rattle.std.specs.List.{list_any, enumerate_from};
ghost use Rattle.card_state.specs.Checks.{has_row_text, shows_item};
ghost use Rattle.card_state.specs.Sections.{has_text};
ghost use Rattle.card_state.specs.States.{registration_of, rows_of};
ghost use Rattle.toolkit_model.specs.Registry.{row_on, is_answered};
ghost use Rattle.applet_registry.specs.Rows.{answers_calls, answers_beside};

use card_state::events::has_event;
use card_state::{Loaded, Row, states_are_of_entries};
use uicc_types::Shelf;
use uicc_types::events::CALL_CONTROL;

/// The row of this shelf, if an applet is registered there.
pub fn row_on(loaded: &Loaded, shelf: Shelf) -> Option<&Row>
    ensures { MatchOption result (row_on (rows_of loaded.now) shelf.0 ≡ None)
        (λ row. row_on (rows_of loaded.now) shelf.0 ≡ Some (registration_of shelf.0 row.now)) }
{
    // This call is a law, and does nothing.
    states_are_of_entries();
    let row = loaded.all_rows().get(usize::from(shelf.0))?;
    if row.used { Some(row) } else { None }
}

/// Whether a row is to answer call control.
#[tactic(auto, unfolding(crate::specs::Rows::answers_calls))]
pub fn answers_calls(row: &Row) -> bool
    ensures { result ≡ answers_calls row.now }
{
    has_event(row.events, CALL_CONTROL)
}

// Whether an entry that is used, of another shelf, is to answer it.
fn answers_beside(shelf: Shelf, other: usize, row: &Row) -> bool
    ensures { result ≡ answers_beside shelf.0 other row.now }
{
    row.used && (other != usize::from(shelf.0) && answers_calls(row))
}

fn some_answers_beside(shelf: Shelf, rows: &[Row]) -> bool
    ensures { result ≡ list_any (λ entry. answers_beside shelf.0 entry.0 entry.1) (enumerate_from 0 rows.now) }
{
    rows.iter()
        .enumerate()
        .any(|(other, row)| answers_beside(shelf, other, row))
}

/// Whether the row of another shelf answers call control.
pub fn is_answered(loaded: &Loaded, shelf: Shelf) -> bool
    ensures { result ≡ is_answered (rows_of loaded.now) shelf.0 }
{
    some_answers_beside(shelf, loaded.all_rows())
}

/// Whether a row has an item in the menu where it stands.
pub fn has_text(row: &Row) -> bool
    ensures { result ≡ has_row_text row.now }
{
    row.text.as_slice().len() != 0
}

/// Whether an entry is used and has an item in the menu.
pub fn shows_item(row: &Row) -> bool
    ensures { result ≡ shows_item row.now }
{
    row.used && has_text(row)
}

/// How many items the menu has.
pub fn text_count(loaded: &Loaded) -> usize
    ensures { result ≡ count_by has_text (rows_of loaded.now) }
{
    // This call is a law, and does nothing.
    states_are_of_entries();
    loaded
        .all_rows()
        .iter()
        .filter(|row| shows_item(row))
        .count()
}
