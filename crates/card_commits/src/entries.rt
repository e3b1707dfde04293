//! The entry of a file, and where a record lies. Where record 1 of a ring stands is told by its head, a field of this card's layout.
ghost use Rattle.std.specs.Prelude.{◌≡◌, ◌+◌, ◌*◌, ◌%◌, ◌≤◌, ◌<◌, ◌^◌};
ghost use Rattle.card_state.specs.States.{record_count};
ghost use Rattle.card_state.specs.Used.{HasNode};
ghost use Rattle.file_model.specs.Files.{node_at};
ghost use Rattle.layout_laws.specs.ChangeLaws.{place_in_ring};
ghost use Rattle.card_commits.specs.Entries.{IsThere, with_head_moved};

use card_state::{Loaded, Node};
use file_model::files_are_found;

/// The entry of a file that is there.
pub fn node_of(loaded: &Loaded, number: u8) -> Node
    requires { IsThere loaded.now number }
    ensures value { result ≡ node_at loaded.now number }
    ensures there { HasNode loaded.now number result }
{
    // This call is a law, and does nothing.
    files_are_found();
    loaded.all_nodes()[usize::from(number)]
}

/// How many records a file has.
fn count_of(node: &Node) -> u16
    requires { 1 ≤ node.now.length }
    ensures { result ≡ record_count node.now }
{
    node.size / u16::from(node.length)
}

/// Where record `index + 1` of a file lies: after the one at the head, and round.
pub fn place_of_record(node: &Node, index: u8) -> usize
    requires width { 1 ≤ node.now.length }
    requires some { 1 ≤ record_count node.now }
    ensures { result ≡ node.now.place + place_in_ring node.now.head (record_count node.now) index * node.now.length }
{
    let count = usize::from(count_of(node));
    let index = (usize::from(node.head) + usize::from(index)) % count;
    usize::from(node.place) + index * usize::from(node.length)
}

/// The entry of a cyclic file whose oldest record became the newest.
pub fn with_head_moved(node: Node) -> Node
    requires width { 1 ≤ node.length }
    requires some { 1 ≤ record_count node }
    requires few { record_count node ≤ 254 }
    ensures { result ≡ with_head_moved node }
{
    let count = count_of(&node);
    let head = (u16::from(node.head) + count - 1) % count;
    Node {
        head: head as u8,
        ..node
    }
}
