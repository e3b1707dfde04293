//! Rows of applets, their timers, commands that wait, and which applets an event goes to.
ghost use Rattle.std.specs.Prelude.{◌≡◌, ◌≤◌, IsSome, IfOk, count_by};
ghost use Rattle.card_state.specs.declared.sizes.TheConstants.{MENU_LIMIT};
ghost use Rattle.card_state.specs.Sections.{has_text};
ghost use Rattle.card_state.specs.States.{rows_of};
ghost use Rattle.toolkit_model.specs.Registry.{menu_of, row_on};

use applet_registry::{RowFault, delete, deregister, install, menu, register};
use card_layout::{Loaded, Row};
use event_dispatch::{Index, Shelves, targets};
use frame_store::FrameStore;
use std::test::Fail;
use timer_table::Timers;
use toolkit_commands::Items;
use uicc_types::{Full, Shelf};

/// The row that an installation makes, once the shelf has none.
fn installed(loaded: &Loaded, shelf: Shelf, content: &[u8]) -> Result<Row, RowFault> {
    delete(loaded, shelf, true)?;
    install(loaded, Some(1), shelf, 1, content)
}

/// Calls what needs a row on the shelf, and no more menu texts than the menu holds.
fn registered(loaded: &Loaded, shelf: Shelf) -> Result<(bool, bool, Items), RowFault>
    requires row { IsSome (row_on (rows_of loaded.now) shelf.0) }
    requires texts { count_by has_text (rows_of loaded.now) ≤ MENU_LIMIT }
    ensures items { IfOk result (λ answers. answers.2 ≡ menu_of (rows_of loaded.now)) }
{
    let registers: bool = register(loaded, shelf, 0x40)?;
    let deregisters: bool = deregister(loaded, shelf, 0x40)?;
    Ok((registers, deregisters, menu(loaded)))
}

/// Takes a timer and frees it, and answers whose it was meanwhile.
fn taken(timers: &mut Timers, shelf: Shelf) -> Option<Shelf> {
    let timer: u8 = timers.take(shelf)?;
    let owner: Option<Shelf> = timers.owner(timer);
    timers.free(timer);
    timers.free_all(shelf);
    owner
}

#[test]
fn frames(rt: HostRuntime) -> Result<(), Fail> {
    let mut frames = FrameStore::new(rt.alloc(), 2, 5)?;
    frames.push(b"\xAA")?;
    frames.push(b"\xBB\xBB\xBB")?;
    let refused: Result<(), Full> = frames.push(b"\xCC");
    assert!(rt; refused.is_err() && frames.len() == 2);
    frames.remove(0);
    assert!(rt; frames.get(0) == b"\xBB\xBB\xBB".as_slice());
    frames.clear();
    assert_eq!(rt; frames.len(), 0);
    Ok(())
}

#[test]
fn an_index(rt: HostRuntime) -> Result<(), Fail> {
    let loaded = Loaded::new();
    let mut index = Index::build(&loaded);
    index.added(&loaded, Shelf(0), 0x40);
    index.removed(Shelf(0), 0x40);
    index.gone(Shelf(0));
    let indexed: &Shelves = index.targets(0x40);
    let found: Shelves = targets(&loaded, 0x40);
    assert!(rt; indexed.as_slice().is_empty() && found.as_slice().is_empty());
    let one: Shelves = Shelves::one(Shelf(3));
    let shelves: &[Shelf] = one.as_slice();
    assert!(rt; shelves == [Shelf(3)].as_slice());
    Ok(())
}
