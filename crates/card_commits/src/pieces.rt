//! The first piece of a commit's writes. They are large, so their place is the caller's. There is always room for a first piece, so these
//! functions answer nothing; who commits adds the pieces that come with it.
ghost use Rattle.std.specs.Prelude.{◌≡◌, ◌≤◌, ◌<◌, [], ◌∷◌, length};
ghost use Rattle.layout_entries.specs.Spelling.{node_part, pin_part, row_part};

use card_state::sizes::{NODE_COUNT, NODE_WIDTH, PIN_COUNT, PIN_WIDTH, ROW_COUNT, ROW_WIDTH};
use card_state::{Node, PinSlot, Row};
use layout_entries::{node_write, pin_write, row_write};
use store_form::{MOST_BYTES, Writes};
use uicc_types::{Full, Shelf};

/// Makes these bytes at this place the first piece.
pub fn bytes_piece(at: u16, bytes: &[u8], writes: &mut Writes)
    requires empty { writes.old ≡ [] }
    requires few { length bytes.now ≤ MOST_BYTES }
    ensures { writes.new ≡ record { place = at; bytes = bytes.now } ∷ [] }
{
    match writes.add(at, bytes) {
        Ok(()) => (),
        Err(Full) => unreachable!(),
    }
}

/// Makes the bytes of a file's entry from `from` up to but without `to` the first piece.
pub fn node_piece(number: u8, node: &Node, from: u8, to: u8, writes: &mut Writes)
    requires empty { writes.old ≡ [] }
    requires entry { number < NODE_COUNT }
    requires some { from < to }
    requires inside { to ≤ NODE_WIDTH }
    ensures { writes.new ≡ node_part number node.now from to ∷ [] }
{
    match node_write(number, node, from, to, writes) {
        Ok(()) => (),
        Err(Full) => unreachable!(),
    }
}

/// Makes the bytes of a PIN slot from `from` up to but without `to` the first piece.
pub fn pin_piece(slot: u8, pin: &PinSlot, from: u8, to: u8, writes: &mut Writes)
    requires empty { writes.old ≡ [] }
    requires entry { slot < PIN_COUNT }
    requires some { from < to }
    requires inside { to ≤ PIN_WIDTH }
    ensures { writes.new ≡ pin_part slot pin.now from to ∷ [] }
{
    match pin_write(slot, pin, from, to, writes) {
        Ok(()) => (),
        Err(Full) => unreachable!(),
    }
}

/// Makes the bytes of a row from `from` up to but without `to` the first piece.
pub fn row_piece(shelf: Shelf, row: &Row, from: u8, to: u8, writes: &mut Writes)
    requires empty { writes.old ≡ [] }
    requires entry { shelf.0 < ROW_COUNT }
    requires some { from < to }
    requires inside { to ≤ ROW_WIDTH }
    ensures { writes.new ≡ row_part shelf.0 row.now from to ∷ [] }
{
    match row_write(shelf, row, from, to, writes) {
        Ok(()) => (),
        Err(Full) => unreachable!(),
    }
}
