//! The menu of the registered applets.
ghost use Rattle.std.specs.Prelude.{◌≡◌, ◌≢◌, ◌≤◌, ◌<◌, ◌↔◌, ◌∷◌, List, IsTrue, MatchOption, count_by};
ghost use Rattle.card_state.specs.Sections.{has_text};
ghost use Rattle.card_state.specs.States.{registration_of, rows_of};
ghost use Rattle.toolkit_commands.specs.declared.items.Item.{Item as AnItem};
ghost use Rattle.toolkit_model.specs.Registry.{item_of, menu_of};

use crate::rows::shows_item;
use card_state::sizes::{MENU_LIMIT, ROW_COUNT};
use card_state::{Loaded, Row};
use toolkit_commands::{Item, Items};
use uicc_types::Full;

/// The menu: an item for each row with a text, by ascending shelves. Its identifier is the shelf plus 1.
pub fn menu(loaded: &Loaded) -> Items
    requires { count_by has_text (rows_of loaded.now) ≤ MENU_LIMIT }
    ensures { result ≡ menu_of (rows_of loaded.now) }
{
    let mut items = Items::new();
    let rows = loaded.all_rows();
    for shelf in 0..ROW_COUNT as u8 {
        let row = &rows[usize::from(shelf)];
        if shows_item(row) {
            let item = Item {
                id: shelf + 1,
                text: row.text.copy(),
            };
            match items.push(item) {
                Ok(()) => {}
                Err(Full) => unreachable!(),
            }
        }
    }
    items
}

// Whether an item is the one of a row.
fn is_item_of(item: &Item, shelf: u8, row: &Row) -> bool
    requires { shelf < 255 }
    ensures { IsTrue result ↔ (item.now ≡ item_of (registration_of shelf row.now)) }
{
    item.id == shelf + 1 && item.text.as_slice() == row.text.as_slice()
}

// The items after that of a row, where the first is this one.
fn after_item<'a>(items: &'a [Item], shelf: u8, row: &Row) -> Option<&'a [Item]>
    requires { shelf < 255 }
    ensures { MatchOption result
        ((others : List AnItem) → items.now ≢ item_of (registration_of shelf row.now) ∷ others)
        (λ others. items.now ≡ item_of (registration_of shelf row.now) ∷ others.now) }
{
    match items.split_first() {
        Some((item, others)) => {
            if is_item_of(item, shelf, row) {
                Some(others)
            } else {
                None
            }
        }
        None => None,
    }
}

/// Whether these items are the menu. None is made to compare it.
pub fn is_menu(loaded: &Loaded, items: &Items) -> bool
    ensures { IsTrue result ↔ (items.now ≡ menu_of (rows_of loaded.now)) }
{
    let rows = loaded.all_rows();
    let mut rest = items.as_slice();
    for shelf in 0..ROW_COUNT as u8 {
        let row = &rows[usize::from(shelf)];
        if shows_item(row) {
            match after_item(rest, shelf, row) {
                Some(others) => rest = others,
                None => return false,
            }
        }
    }
    rest.is_empty()
}
