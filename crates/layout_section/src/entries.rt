//! What is looked for among the entries of files, and how they are spelled.
ghost use Rattle.std.specs.Prelude.{◌≡◌, ◌≢◌, ℕ, ◌*◌, slice_index_or, ◌==◌, ◌<◌, ◌≤◌, ◌+◌, ◌^◌, length, MatchOption};
ghost use Rattle.std.specs.List.{list_any};
ghost use Rattle.card_state.specs.Kinds.{df_kind, is_ef_kind};
ghost use Rattle.card_state.specs.Blank.{unused_node};
ghost use Rattle.card_state.specs.Decoding.{bytes_at};
ghost use Rattle.card_state.specs.Places.{data_place};
ghost use Rattle.layout_entries.specs.Spelling.{node_spelled};
ghost use Rattle.layout_section.specs.Entries.{is_child, has_short, HasNoChild, IsFirstChild, HasNoBytes, AreBytesAt, HasNoRecord, IsRecordAt};

use crate::bytes::put;
use card_state::Node;
use card_state::kinds::{DF, TRANSPARENT, is_ef};
use card_state::places::DATA;
use card_state::sizes::{NODE_COUNT, NODE_WIDTH};
use layout_entries::{EntryBytes, spell_node};
use uicc_types::FileId;

fn is_child_of(node: &Node, df: u8, id: FileId) -> bool
    ensures { result ≡ is_child df id node.now }
{
    node.parent == df && node.id.0 == id.0
}

/// The number of the first file, but the MF, that lies in this DF and has this identifier.
pub fn first_child(nodes: &[Node], df: u8, id: FileId) -> Option<usize>
    ensures { MatchOption result (HasNoChild df id nodes.now (length nodes.now)) (IsFirstChild df id nodes.now) }
{
    for number in 1..nodes.len() {
        if is_child_of(&nodes[number], df, id) {
            return Some(number);
        }
    }
    None
}

fn has_short_in(node: &Node, df: u8, short: u8) -> bool
    ensures { result ≡ has_short df short node.now }
{
    is_ef(node.kind) && node.parent == df && node.short == short
}

/// Whether an EF of this DF has this short identifier.
pub fn some_has_short(nodes: &[Node], df: u8, short: u8) -> bool
    ensures { result ≡ list_any (has_short df short) nodes.now }
{
    nodes.iter().any(|node| has_short_in(node, df, short))
}

/// Where so many bytes from an offset on stand among the bytes of all files, if the file is transparent and has them.
pub fn place_of_bytes(node: &Node, offset: u16, count: usize) -> Option<usize>
    requires { node.now.kind ≢ df_kind → data_place ≤ node.now.place }
    ensures { MatchOption result (HasNoBytes node.now offset count) (AreBytesAt node.now offset count) }
{
    let start = usize::from(offset);
    let size = usize::from(node.size);
    if node.kind != TRANSPARENT || count > size || start > size - count {
        return None;
    }
    Some(usize::from(node.place) + start - DATA)
}

/// Where a record stands among the bytes of all files, if the file has it and it has room for so many bytes.
pub fn place_of_record(node: &Node, index: u8, count: usize) -> Option<usize>
    requires { node.now.kind ≢ df_kind → data_place ≤ node.now.place }
    ensures { MatchOption result (HasNoRecord node.now index count) (IsRecordAt node.now index count) }
{
    let length = usize::from(node.length);
    let end = usize::from(index) * length;
    if node.kind == DF || node.kind == TRANSPARENT {
        return None;
    }
    if index == 0 || end > usize::from(node.size) || count > length {
        return None;
    }
    Some(usize::from(node.place) - DATA + end - length)
}

// An entry as it is spelled; after the files that of no file.
fn spelled_at(nodes: &[Node], number: usize) -> EntryBytes
    ensures value { result ≡ node_spelled (slice_index_or nodes.now number unused_node) }
    ensures long { length result ≡ NODE_WIDTH }
{
    match nodes.get(number) {
        Some(node) => spell_node(node),
        None => spell_node(&Node::UNUSED),
    }
}

/// How many bytes the entries of all files have.
pub const NODES_LENGTH: usize = NODE_WIDTH * NODE_COUNT;

/// The entries of all files as they are spelled; those after these files are of no file.
pub fn spell_nodes(nodes: &[Node]) -> [u8; NODES_LENGTH]
    ensures { (k : ℕ) → k < NODE_COUNT →
        bytes_at result (NODE_WIDTH * k) NODE_WIDTH ≡ node_spelled (slice_index_or nodes.now k unused_node) }
{
    let mut bytes = [0; NODES_LENGTH];
    for number in 0..NODE_COUNT {
        put(
            &mut bytes,
            NODE_WIDTH * number,
            spelled_at(nodes, number).as_slice(),
        );
    }
    bytes
}
