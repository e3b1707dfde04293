//! A file that grows: its bytes are prepared where none is a file's, and then place and size of its entry are committed.
ghost use Rattle.std.specs.Prelude.{◌≡◌, ◌<◌, OnOk, OnErr};
ghost use Rattle.card_state.specs.Memory.{IsMounted, Committed, memory};
ghost use Rattle.card_state.specs.Persistent.{Persistent};
ghost use Rattle.layout_entries.specs.Spelling.{node_part};
ghost use Rattle.layout_laws.specs.Changes.{with_node};
ghost use Rattle.layout_laws.specs.Known.{IsBesideNodes};
ghost use Rattle.card_commits.specs.Prepared.{IsTransparentFile, moved};
ghost use Rattle.file_admin.specs.Writes.{WritesOver};
ghost use Rattle.file_admin.specs.Written.{IsWrittenOver};

use card_commits::{commit_node, prepare_moved};
use card_state::{Loaded, Node};
use layout_laws::cards_are_known;
use store_form::{Store, StoreFault};

/// Moves a transparent file to this place, where it has more bytes: those that it holds, and FF after them. After a fault the
/// table is as it was.
pub fn grow<S: Store>(
    store: &mut S,
    loaded: &mut Loaded,
    number: u8,
    node: &Node,
    place: u16,
    size: u16,
) -> Result<(), StoreFault>
    requires mounted { IsMounted (memory S.Store store.old loaded.old) }
    requires file { IsTransparentFile loaded.old number node.now }
    requires more { node.now.size < size }
    requires free { IsBesideNodes loaded.old place size }
    ensures committed { (change : Persistent → Persistent)
        → IsWrittenOver loaded.old (moved node.now place size) number
        (record node.now { place = place; size = size }) 10 14 change
        → Committed (memory S.Store store.old loaded.old) (memory S.Store store.new loaded.new) result change }
    ensures writes { WritesOver (memory S.Store store.old loaded.old) (memory S.Store store.new loaded.new) result
        (moved node.now place size) place size
        (node_part number (record node.now { place = place; size = size }) 10 14) }
    ensures table { OnOk result
        (loaded.new ≡ with_node loaded.old number (record node.now { place = place; size = size })) }
    ensures kept { OnErr result (loaded.new ≡ loaded.old) }
{
    // This call is a law, and does nothing.
    cards_are_known();
    let new = Node {
        place,
        size,
        ..*node
    };
    match prepare_moved(store, loaded, number, node, place, size) {
        Ok(()) => commit_node(store, loaded, number, new, 10, 14),
        Err(fault) => Err(fault),
    }
}
