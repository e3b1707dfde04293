//! One commit of some pieces, and what the store stands for afterwards.
ghost use Rattle.std.specs.Prelude.{◌<◌, length, All};
ghost use Rattle.store_form.specs.Pieces.{IsUsablePiece};
ghost use Rattle.card_state.specs.Places.{memory_size};
ghost use Rattle.card_state.specs.declared.entries.Loaded.{Loaded};
ghost use Rattle.card_state.specs.Persistent.{Persistent};
ghost use Rattle.card_state.specs.Memory.{Committed, IsMounted, memory};
ghost use Rattle.card_commits.specs.Commits.{Commits};
ghost use Rattle.card_commits.specs.Writing.{WritesPieces};

use card_state::Loaded;
use layout_laws::stores_stand;
use store_form::{Store, StoreFault, Writes};

/// Commits these pieces. What is known of each card of this table once they are written into its bytes is then known of the
/// store: its table and its state.
pub fn commit<S: Store>(store: &mut S, loaded: &Loaded, writes: &Writes) -> Result<(), StoreFault>
    requires mounted { IsMounted (memory S.Store store.old loaded.now) }
    requires some { 0 < length writes.now }
    requires usable { All (IsUsablePiece memory_size) writes.now }
    ensures committed { (table : Loaded) (change : Persistent → Persistent)
        → Commits (S.store_mark store.old) (S.stable store.old) loaded.now writes.now table change
        → Committed (memory S.Store store.old loaded.now) (memory S.Store store.new table) result change }
    ensures pieces { WritesPieces (memory S.Store store.old loaded.now) (memory S.Store store.new loaded.now) result writes.now }
{
    // This call is a law, and does nothing.
    stores_stand();
    store.commit(writes)
}
