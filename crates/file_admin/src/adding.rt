//! A file that comes: its bytes, FF, are prepared where none is a file's, and then its entry is committed.
ghost use Rattle.std.specs.Prelude.{◌≡◌, ◌≤◌, ◌<◌, OnOk, OnErr};
ghost use Rattle.list_laws.specs.Patches.{Torn};
ghost use Rattle.uicc_types.specs.Told.{Becomes};
ghost use Rattle.card_state.specs.Memory.{IsMounted, Committed, memory};
ghost use Rattle.card_state.specs.Persistent.{Persistent};
ghost use Rattle.layout_entries.specs.Spelling.{node_part};
ghost use Rattle.layout_laws.specs.Changes.{with_node};
ghost use Rattle.layout_laws.specs.Known.{IsBesideNodes};
ghost use Rattle.card_commits.specs.Prepared.{filled, Prepares};
ghost use Rattle.file_admin.specs.Writes.{WritesOver};
ghost use Rattle.file_admin.specs.Written.{IsWrittenOver};

use card_commits::{commit_node, prepare_blank};
use card_state::sizes::NODE_COUNT;
use card_state::{Loaded, Node};
use store_form::{Store, StoreFault};

// Prepares the bytes of an entry. A DF has none.
fn prepare_bytes<S: Store>(store: &mut S, loaded: &Loaded, node: &Node) -> Result<(), StoreFault>
    requires mounted { IsMounted (memory S.Store store.old loaded.now) }
    requires free { 1 ≤ node.now.size → IsBesideNodes loaded.now node.now.place node.now.size }
    ensures prepares { Prepares (memory S.Store store.old loaded.now) (memory S.Store store.new loaded.now) result
        (filled node.now.place node.now.size) }
    ensures torn { OnErr result (Becomes (Torn node.now.place node.now.size) (S.stable store.old) (S.stable store.new)) }
{
    if node.size == 0 {
        return Ok(());
    }
    prepare_blank(store, loaded, node.place, node.size)
}

/// Prepares the bytes of a new file, and commits its entry under this number, for CREATE FILE. After a fault the table is as it was.
pub fn add_file<S: Store>(
    store: &mut S,
    loaded: &mut Loaded,
    number: u8,
    node: &Node,
) -> Result<(), StoreFault>
    requires mounted { IsMounted (memory S.Store store.old loaded.old) }
    requires entry { number < NODE_COUNT }
    requires free { 1 ≤ node.now.size → IsBesideNodes loaded.old node.now.place node.now.size }
    ensures committed { (change : Persistent → Persistent)
        → IsWrittenOver loaded.old (filled node.now.place node.now.size) number node.now 0 16 change
        → Committed (memory S.Store store.old loaded.old) (memory S.Store store.new loaded.new) result change }
    ensures writes { WritesOver (memory S.Store store.old loaded.old) (memory S.Store store.new loaded.new) result
        (filled node.now.place node.now.size) node.now.place node.now.size (node_part number node.now 0 16) }
    ensures table { OnOk result (loaded.new ≡ with_node loaded.old number node.now) }
    ensures kept { OnErr result (loaded.new ≡ loaded.old) }
{
    match prepare_bytes(store, loaded, node) {
        Ok(()) => commit_node(store, loaded, number, *node, 0, 16),
        Err(fault) => Err(fault),
    }
}
