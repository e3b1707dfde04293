//! Where there is room on a card: for the bytes of an EF, and for one file more.
ghost use Rattle.std.specs.Prelude.{◌≡◌, ◌≤◌, ◌<◌, ◌^◌, List, ℕ, None, IfSome, find};
ghost use Rattle.card_state.specs.States.{state_of};
ghost use Rattle.card_state.specs.Places.{data_end};
ghost use Rattle.file_model.specs.Rooms.{IsSmallestRoom, room_at, free_number};
ghost use Rattle.file_model.specs.RoomTables.{is_node_in_the_way};

use card_state::places::{DATA, MEMORY_SIZE, UPPER_ROWS};
use card_state::sizes::NODE_COUNT;
use card_state::{Loaded, Node, kinds, states_are_of_entries};

// Whether this is the entry of an EF with one of the `size` bytes from `place` on.
fn is_in_the_way(node: &Node, place: u32, size: u32) -> bool
    requires place { place < 2 ^ 17 }
    requires size { size < 2 ^ 16 }
    ensures { result ≡ is_node_in_the_way place size node.now }
{
    let begins = u32::from(node.place);
    let ends = begins + u32::from(node.size);
    node.used && kinds::is_ef(node.kind) && place.max(begins) < (place + size).min(ends)
}

// The place to go on from, after each EF that is in the way: the entries are met in their order, and each is asked whether it is in the way
// from where the one before left.
fn behind_files(nodes: &[Node], place: u32, size: u32) -> u32
    requires place { place < 2 ^ 17 }
    requires size { size < 2 ^ 16 }
    ensures later { place ≤ result }
    ensures low { result < 2 ^ 17 }
    ensures clear { result ≡ place → find (is_node_in_the_way place size) nodes.now ≡ None }
    ensures empty { size ≡ 0 → result ≡ place }
    ensures skipped { (other : ℕ) → find (is_node_in_the_way other size) nodes.now ≡ None → place ≤ other
        → result ≤ other }
{
    let mut behind = place;
    for node in nodes {
        if is_in_the_way(node, behind, size) {
            behind = u32::from(node.place) + u32::from(node.size);
        }
    }
    behind
}

// Where the bytes of the files end.
fn end_of_files(wide: bool) -> u32
    ensures value { result ≡ data_end wide }
    ensures low { result ≤ MEMORY_SIZE }
{
    if wide {
        u32::from(UPPER_ROWS)
    } else {
        MEMORY_SIZE as u32
    }
}

/// The smallest place at which so many bytes may stand: among those of the files, and beside those of each EF. None exactly
/// where there is no such place. From each EF that is in the way the search goes on where it ends, through the table again and again
/// until none is; at most twice, where the entries stand in the order of the files.
pub fn room(loaded: &Loaded, size: u16) -> Option<u16>
    ensures smallest { (content : List ℕ) → IsSmallestRoom (state_of loaded.now content) size result }
    ensures value { (content : List ℕ) → result ≡ room_at (state_of loaded.now content) size }
{
    // This call is a law, and does nothing.
    states_are_of_entries();
    let end = end_of_files(loaded.wide);
    let size = u32::from(size);
    let mut place = DATA as u32;
    while place + size <= end {
        let behind = behind_files(loaded.all_nodes(), place, size);
        if behind == place {
            return Some(place as u16);
        }
        place = behind;
    }
    None
}

/// The smallest number above that of this DF under which the card has no file, if there is one.
pub fn free_number(loaded: &Loaded, df: u8) -> Option<u8>
    ensures value { (content : List ℕ) → result ≡ free_number (state_of loaded.now content) df }
    ensures low { IfSome result (λ number. number < NODE_COUNT) }
{
    // This call is a law, and does nothing.
    states_are_of_entries();
    let nodes = loaded.all_nodes();
    for number in usize::from(df) + 1..NODE_COUNT {
        if !nodes[number].used {
            return Some(number as u8);
        }
    }
    None
}
