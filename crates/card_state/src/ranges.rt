//! What the types of an entry's fields say of their ranges, for a caller that commits it. The functions read, and do nothing.
ghost use Rattle.card_state.specs.Ranges.{HasNodeRanges, HasPinRanges, HasRowRanges};

use crate::entries::{Node, PinSlot, Row};

/// The numbers of a file's entry fit into their bytes.
pub fn node_ranges(node: &Node)
    ensures { HasNodeRanges node.now }
{
    let _id = node.id.0;
    let _arr = node.arr.0;
    let _place = node.place;
    let _size = node.size;
}

/// Each value of a PIN slot has eight bytes.
pub fn pin_ranges(pin: &PinSlot)
    ensures { HasPinRanges pin.now }
{
    let _value: &[u8] = &pin.value.0;
    let _unblock: &[u8] = &pin.unblock.0;
}

/// The numbers of a row fit into their bytes, and its text and what it keeps into their room.
pub fn row_ranges(row: &Row)
    ensures { HasRowRanges row.now }
{
    let _sequence = row.sequence;
    let _events = row.events;
    let _text = row.text.as_slice();
    let _kept = row.kept.as_slice();
}
