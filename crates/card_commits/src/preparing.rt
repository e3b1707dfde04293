//! Free bytes of a card's store, prepared: what it stands for stays as it is, however that ends.
ghost use Rattle.std.specs.Prelude.{◌<◌, OnErr};
ghost use Rattle.list_laws.specs.Patches.{Torn, IsApart};
ghost use Rattle.uicc_types.specs.Told.{Becomes};
ghost use Rattle.card_state.specs.Memory.{IsMounted, memory};
ghost use Rattle.layout_laws.specs.Known.{IsBesideNodes};
ghost use Rattle.card_commits.specs.Prepared.{IsTransparentFile, filled, copied, moved, Prepares};
ghost use Rattle.card_commits.specs.Ranges.{IsAmongFiles};

use crate::prepared_pieces::{copy, fill};
use card_state::{Loaded, Node};
use layout_laws::{cards_are_known, stores_stand};
use store_form::{Store, StoreFault};

/// Prepares free bytes: they are FF then.
pub fn prepare_blank<S: Store>(
    store: &mut S,
    loaded: &Loaded,
    place: u16,
    count: u16,
) -> Result<(), StoreFault>
    requires mounted { IsMounted (memory S.Store store.old loaded.now) }
    requires free { IsBesideNodes loaded.now place count }
    ensures prepares { Prepares (memory S.Store store.old loaded.now) (memory S.Store store.new loaded.now) result
        (filled place count) }
    ensures torn { OnErr result (Becomes (Torn place count) (S.stable store.old) (S.stable store.new)) }
{
    // These two calls are laws, and do nothing.
    cards_are_known();
    stores_stand();
    fill(store, usize::from(place), usize::from(count))
}

// Prepares free bytes: they are those that stand elsewhere among the files then.
fn prepare_copy<S: Store>(
    store: &mut S,
    loaded: &Loaded,
    from: u16,
    place: u16,
    count: u16,
) -> Result<(), StoreFault>
    requires mounted { IsMounted (memory S.Store store.old loaded.now) }
    requires free { IsBesideNodes loaded.now place count }
    requires source { IsAmongFiles from count }
    requires apart { IsApart from count place count }
    ensures prepares { Prepares (memory S.Store store.old loaded.now) (memory S.Store store.new loaded.now) result
        (copied from place count) }
    ensures torn { OnErr result (Becomes (Torn place count) (S.stable store.old) (S.stable store.new)) }
{
    // These two calls are laws, and do nothing.
    cards_are_known();
    stores_stand();
    copy(
        store,
        usize::from(from),
        usize::from(place),
        usize::from(count),
    )
}

/// Prepares free bytes for a file that gets more of them: its own, and FF after them.
pub fn prepare_moved<S: Store>(
    store: &mut S,
    loaded: &Loaded,
    number: u8,
    node: &Node,
    place: u16,
    size: u16,
) -> Result<(), StoreFault>
    requires mounted { IsMounted (memory S.Store store.old loaded.now) }
    requires file { IsTransparentFile loaded.now number node.now }
    requires more { node.now.size < size }
    requires free { IsBesideNodes loaded.now place size }
    ensures prepares { Prepares (memory S.Store store.old loaded.now) (memory S.Store store.new loaded.now) result
        (moved node.now place size) }
    ensures torn { OnErr result (Becomes (Torn place size) (S.stable store.old) (S.stable store.new)) }
{
    // This call is a law, and does nothing.
    cards_are_known();
    match prepare_copy(store, loaded, node.place, place, node.size) {
        Ok(()) => prepare_blank(store, loaded, place + node.size, size - node.size),
        Err(fault) => Err(fault),
    }
}
