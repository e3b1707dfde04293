//! One entry of a file, committed over prepared bytes.
ghost use Rattle.std.specs.Prelude.{◌≡◌, ◌≤◌, ◌<◌, [], ◌∷◌, OnOk, OnErr};
ghost use Rattle.card_state.specs.Memory.{IsMounted, Committed, memory};
ghost use Rattle.card_state.specs.Persistent.{Persistent};
ghost use Rattle.layout_entries.specs.Fields.{shown_node};
ghost use Rattle.layout_entries.specs.Laws.{after};
ghost use Rattle.layout_entries.specs.Spelling.{node_part};
ghost use Rattle.layout_laws.specs.Changes.{with_node};
ghost use Rattle.card_commits.specs.PreparedCommits.{CommitsOver};
ghost use Rattle.card_commits.specs.Ranges.{IsStoreReady, CommitsChange};
ghost use Rattle.card_commits.specs.Writing.{WritesPieces};

use card_state::sizes::{NODE_COUNT, NODE_WIDTH};
use card_state::{Loaded, Node};
use layout_entries::node_write;
use layout_laws::stores_stand;
use store_form::{Store, StoreFault, Writes};
use uicc_types::Full;

// Commits the bytes of an entry from `from` up to but without `to`.
fn commit_part<S: Store>(
    store: &mut S,
    number: u8,
    node: &Node,
    from: u8,
    to: u8,
) -> Result<(), StoreFault>
    requires ready { IsStoreReady S.Store store.old }
    requires entry { number < NODE_COUNT }
    requires some { from < to }
    requires inside { to ≤ NODE_WIDTH }
    ensures { CommitsChange S.Store store.old store.new result (after (node_part number node.now from to)) }
{
    let mut writes = Writes::new();
    match node_write(number, node, from, to, &mut writes) {
        Ok(()) => store.commit(&writes),
        Err(Full) => unreachable!(),
    }
}

// An entry as a table has it.
fn shown(node: Node) -> Node
    ensures { result ≡ shown_node node }
{
    if node.used { node } else { Node::UNUSED }
}

/// Commits the bytes of a file's entry from `from` up to but without `to`, of its 16, and then has the entry in the table. After
/// a fault the table is as it was. Over prepared bytes with which that stands for a changed state it is one commit of the change.
pub fn commit_node<S: Store>(
    store: &mut S,
    loaded: &mut Loaded,
    number: u8,
    node: Node,
    from: u8,
    to: u8,
) -> Result<(), StoreFault>
    requires mounted { IsMounted (memory S.Store store.old loaded.old) }
    requires entry { number < NODE_COUNT }
    requires some { from < to }
    requires inside { to ≤ NODE_WIDTH }
    ensures committed { (change : Persistent → Persistent)
        → CommitsOver (memory S.Store store.old loaded.old) number node from to change
        → Committed (memory S.Store store.old loaded.old) (memory S.Store store.new loaded.new) result change }
    ensures pieces { WritesPieces (memory S.Store store.old loaded.old) (memory S.Store store.new loaded.new) result
        (node_part number node from to ∷ []) }
    ensures table { OnOk result (loaded.new ≡ with_node loaded.old number node) }
    ensures kept { OnErr result (loaded.new ≡ loaded.old) }
{
    // This call is a law, and does nothing.
    stores_stand();
    match commit_part(store, number, &node, from, to) {
        Ok(()) => {
            loaded.nodes[usize::from(number)] = shown(node);
            Ok(())
        }
        Err(fault) => Err(fault),
    }
}
