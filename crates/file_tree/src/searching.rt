//! The one search for a file.
ghost use Rattle.std.specs.Prelude.{◌≡◌, ◌+◌, ◌<◌, ◌≤◌, length, false, IfSome};
ghost use Rattle.file_model.specs.Files.{descriptor_of, descriptors_of, is_wanted, lies_in, file_found, node_at};
ghost use Rattle.file_tree.specs.Tables.{AsksForId, AsksForNumber, AsksForShort, HasFullFiles, HasNoneBetween, IsNumbered, is_there_and_wanted};

use crate::describing::descriptor_of;
use card_state::kinds::{self, DF};
use card_state::sizes::NODE_COUNT;
use card_state::{Loaded, Node};
use file_model::{Descriptor, Wanted};
use uicc_types::FileId;

#[tactic(auto, unfolding(file_model::specs::Files::descriptor_of))]
fn lies_in(df: u8, number: u8, node: &Node) -> bool
    ensures { result ≡ lies_in df (descriptor_of number node.now) }
{
    node.parent == df && number != 0
}

// Whether the file of an entry is wanted.
#[tactic(auto, unfolding(file_model::specs::Files::descriptor_of))]
fn is_wanted(wanted: Wanted, number: u8, node: &Node) -> bool
    ensures { result ≡ is_wanted wanted (descriptor_of number node.now) }
{
    match wanted {
        Wanted::Number(wanted) => number == wanted,
        Wanted::Named { number: wanted, id } => number == wanted && node.id == id,
        Wanted::Child { df, id } => lies_in(df, number, node) && node.id == id,
        Wanted::ChildDf { df, id } => {
            lies_in(df, number, node) && node.kind == DF && node.id == id
        }
        Wanted::ChildEf { df, id } => {
            lies_in(df, number, node) && kinds::is_ef(node.kind) && node.id == id
        }
        Wanted::Short { df, short } => {
            lies_in(df, number, node) && kinds::is_ef(node.kind) && node.short == short
        }
    }
}

/// Does nothing. A table has 128 entries.
pub fn has_all_nodes(loaded: &Loaded)
    ensures { length loaded.now.nodes ≡ NODE_COUNT }
{
    let _nodes = loaded.all_nodes();
}

fn node_at(loaded: &Loaded, number: u8) -> &Node
    requires { number < NODE_COUNT }
    ensures value { result.now ≡ node_at loaded.now number }
    ensures there { number < length loaded.now.nodes }
{
    &loaded.all_nodes()[usize::from(number)]
}

/// The file of an entry whose number every wanted file has, if there is one. Where it is called, what is wanted is known.
#[inline(always)]
pub fn only_file(loaded: &Loaded, wanted: Wanted, number: u8) -> Option<Descriptor>
    requires files { HasFullFiles loaded.now }
    requires only { AsksForNumber wanted number }
    ensures value { result ≡ file_found (descriptors_of loaded.now) wanted }
    ensures numbered { IfSome result (IsNumbered (descriptors_of loaded.now)) }
{
    has_all_nodes(loaded);
    if usize::from(number) >= NODE_COUNT {
        return None;
    }
    let node = node_at(loaded, number);
    if node.used && is_wanted(wanted, number, node) {
        return Some(descriptor_of(number, node));
    }
    None
}

// Whether there is a file that is wanted, where only one with this identifier can be: most entries have another.
#[tactic(auto, unfolding(file_model::specs::Files::descriptor_of))]
fn is_wanted_by_id(wanted: Wanted, id: FileId, number: u8, node: &Node) -> bool
    requires only { AsksForId wanted id.0 }
    ensures { result ≡ is_there_and_wanted wanted number node.now }
{
    if node.id != id {
        return false;
    }
    node.used && is_wanted(wanted, number, node)
}

// The same with a short file identifier.
fn is_wanted_by_short(wanted: Wanted, short: u8, number: u8, node: &Node) -> bool
    requires only { AsksForShort wanted short }
    ensures { result ≡ is_there_and_wanted wanted number node.now }
{
    if node.short != short {
        return false;
    }
    node.used && is_wanted(wanted, number, node)
}

// So many entries are looked at together.
const RUN: usize = 8;

// Whether one of the entries of a run has the identifier, of which this is the first.
fn is_in_run(nodes: &[Node], first: usize, id: FileId) -> bool
    requires { first + RUN ≤ length nodes.now }
    ensures { result ≡ false → HasNoneBetween nodes.now id.0 first (first + RUN) }
{
    nodes[first].id == id
        || nodes[first + 1].id == id
        || nodes[first + 2].id == id
        || nodes[first + 3].id == id
        || nodes[first + 4].id == id
        || nodes[first + 5].id == id
        || nodes[first + 6].id == id
        || nodes[first + 7].id == id
}

/// A number below which no entry has the identifier. Most entries are passed over here, a run at a time.
pub fn first_with(loaded: &Loaded, id: FileId) -> u8
    ensures before { HasNoneBetween loaded.now.nodes id.0 0 result }
    ensures within { result ≤ NODE_COUNT }
{
    let nodes = loaded.all_nodes();
    for run in 0..NODE_COUNT / RUN {
        if is_in_run(nodes, RUN * run, id) {
            return (RUN * run) as u8;
        }
    }
    NODE_COUNT as u8
}

/// The first file that is wanted among all, where only one with this identifier can be, and no entry before this one has it. Where it is
/// called, what is wanted is known.
#[inline(always)]
pub fn first_by_id(loaded: &Loaded, wanted: Wanted, id: FileId, from: u8) -> Option<Descriptor>
    requires files { HasFullFiles loaded.now }
    requires only { AsksForId wanted id.0 }
    requires passed { HasNoneBetween loaded.now.nodes id.0 0 from }
    ensures value { result ≡ file_found (descriptors_of loaded.now) wanted }
    ensures numbered { IfSome result (IsNumbered (descriptors_of loaded.now)) }
{
    has_all_nodes(loaded);
    for number in from..NODE_COUNT as u8 {
        let node = node_at(loaded, number);
        if is_wanted_by_id(wanted, id, number, node) {
            return Some(descriptor_of(number, node));
        }
    }
    None
}

// The same with a short file identifier.
#[inline(always)]
fn first_by_short(loaded: &Loaded, wanted: Wanted, short: u8) -> Option<Descriptor>
    requires files { HasFullFiles loaded.now }
    requires only { AsksForShort wanted short }
    ensures value { result ≡ file_found (descriptors_of loaded.now) wanted }
    ensures numbered { IfSome result (IsNumbered (descriptors_of loaded.now)) }
{
    has_all_nodes(loaded);
    for number in 0..NODE_COUNT as u8 {
        let node = node_at(loaded, number);
        if is_wanted_by_short(wanted, short, number, node) {
            return Some(descriptor_of(number, node));
        }
    }
    None
}

/// The first file that is wanted, by ascending numbers; none where there is no such file. Where it is called, what is wanted is known.
#[inline(always)]
#[tactic(auto, using(crate::proofs::FirstFileLemmas::short_asks))]
pub fn first_file(loaded: &Loaded, wanted: Wanted) -> Option<Descriptor>
    requires { HasFullFiles loaded.now }
    ensures value { result ≡ file_found (descriptors_of loaded.now) wanted }
    ensures numbered { IfSome result (IsNumbered (descriptors_of loaded.now)) }
{
    match wanted {
        Wanted::Number(number) => only_file(loaded, wanted, number),
        Wanted::Named { number, .. } => only_file(loaded, wanted, number),
        Wanted::Child { id, .. } => first_by_id(loaded, wanted, id, first_with(loaded, id)),
        Wanted::ChildDf { id, .. } => first_by_id(loaded, wanted, id, first_with(loaded, id)),
        Wanted::ChildEf { id, .. } => first_by_id(loaded, wanted, id, first_with(loaded, id)),
        Wanted::Short { short, .. } => first_by_short(loaded, wanted, short),
    }
}
