//! The writes that change one entry of the layout. Each adds one piece, and answers `Full` exactly where `Writes::add`
//! does, without a change.
ghost use Rattle.std.specs.Prelude.{◌≡◌, ◌+◌, ◌-◌, ◌≤◌, ◌<◌, ◌↔◌, [], ◌∷◌, ◌++◌, length, IsOk, OnOk, OnErr};
ghost use Rattle.layout_entries.specs.Spelling.{node_part, pin_part, row_part, kept_part, version_part, sequence_part, part_of};
ghost use Rattle.layout_entries.specs.Adding.{HasRoom};

use crate::spelling::{spell_node, spell_pin, spell_row};
use card_state::places::{
    MEMORY_SIZE, NARROW_VERSION, SEQUENCE, VERSION, WIDE_VERSION, place_of_kept, place_of_node,
    place_of_pin, place_of_row,
};
use card_state::sizes::{
    KEPT_WIDTH, NODE_COUNT, NODE_WIDTH, PIN_COUNT, PIN_WIDTH, ROW_COUNT, ROW_WIDTH,
};
use card_state::{Node, PinSlot, Row};
use store_form::Writes;
use uicc_types::{Full, Shelf};

// The bytes of an entry from one of them up to but without another.
fn part_write(place: u16, spelled: &[u8], from: u8, to: u8, writes: &mut Writes) -> Result<(), Full>
    requires inside { place + length spelled.now ≤ MEMORY_SIZE }
    requires some { from < to }
    requires fits { to ≤ length spelled.now }
    ensures room { IsOk result ↔ HasRoom writes.old (to - from) }
    ensures ok { OnOk result (writes.new ≡ writes.old ++ part_of place spelled.now from to ∷ []) }
    ensures err { OnErr result (writes.new ≡ writes.old) }
{
    let part = &spelled[usize::from(from)..usize::from(to)];
    writes.add(place + u16::from(from), part)
}

/// Adds the bytes of a file's entry from `from` up to but without `to`, of its 16.
pub fn node_write(
    number: u8,
    node: &Node,
    from: u8,
    to: u8,
    writes: &mut Writes,
) -> Result<(), Full>
    requires entry { number < NODE_COUNT }
    requires some { from < to }
    requires inside { to ≤ NODE_WIDTH }
    ensures room { IsOk result ↔ HasRoom writes.old (to - from) }
    ensures ok { OnOk result (writes.new ≡ writes.old ++ node_part number node.now from to ∷ []) }
    ensures err { OnErr result (writes.new ≡ writes.old) }
{
    let spelled = spell_node(node);
    part_write(place_of_node(number), spelled.as_slice(), from, to, writes)
}

/// Adds the bytes of a row from `from` up to but without `to`, of its 51. The kept bytes from the 33rd on are not among
/// them: `kept_write` adds those.
pub fn row_write(shelf: Shelf, row: &Row, from: u8, to: u8, writes: &mut Writes) -> Result<(), Full>
    requires entry { shelf.0 < ROW_COUNT }
    requires some { from < to }
    requires inside { to ≤ ROW_WIDTH }
    ensures room { IsOk result ↔ HasRoom writes.old (to - from) }
    ensures ok { OnOk result (writes.new ≡ writes.old ++ row_part shelf.0 row.now from to ∷ []) }
    ensures err { OnErr result (writes.new ≡ writes.old) }
{
    let spelled = spell_row(row);
    part_write(place_of_row(shelf), spelled.as_slice(), from, to, writes)
}

/// Adds the bytes of a PIN slot from `from` up to but without `to`, of its 20.
pub fn pin_write(slot: u8, pin: &PinSlot, from: u8, to: u8, writes: &mut Writes) -> Result<(), Full>
    requires entry { slot < PIN_COUNT }
    requires some { from < to }
    requires inside { to ≤ PIN_WIDTH }
    ensures room { IsOk result ↔ HasRoom writes.old (to - from) }
    ensures ok { OnOk result (writes.new ≡ writes.old ++ pin_part slot pin.now from to ∷ []) }
    ensures err { OnErr result (writes.new ≡ writes.old) }
{
    let spelled = spell_pin(pin);
    part_write(place_of_pin(slot), spelled.as_slice(), from, to, writes)
}

/// Adds the version of the layout, of a wide card or of a narrow one.
pub fn version_write(wide: bool, writes: &mut Writes) -> Result<(), Full>
    ensures room { IsOk result ↔ HasRoom writes.old 1 }
    ensures ok { OnOk result (writes.new ≡ writes.old ++ version_part wide ∷ []) }
    ensures err { OnErr result (writes.new ≡ writes.old) }
{
    let version = if wide { WIDE_VERSION } else { NARROW_VERSION };
    writes.add(VERSION, &[version])
}

/// Adds the next sequence number.
pub fn sequence_write(next: u16, writes: &mut Writes) -> Result<(), Full>
    ensures room { IsOk result ↔ HasRoom writes.old 2 }
    ensures ok { OnOk result (writes.new ≡ writes.old ++ sequence_part next ∷ []) }
    ensures err { OnErr result (writes.new ≡ writes.old) }
{
    writes.add(SEQUENCE, &next.to_be_bytes())
}

/// Adds a row's kept bytes from the 33rd on, which only a wide card has.
pub fn kept_write(shelf: Shelf, row: &Row, writes: &mut Writes) -> Result<(), Full>
    requires entry { shelf.0 < ROW_COUNT }
    requires some { KEPT_WIDTH < length row.now.kept }
    ensures room { IsOk result ↔ HasRoom writes.old (length row.now.kept - KEPT_WIDTH) }
    ensures ok { OnOk result (writes.new ≡ writes.old ++ kept_part shelf.0 row.now ∷ []) }
    ensures err { OnErr result (writes.new ≡ writes.old) }
{
    writes.add(place_of_kept(shelf), &row.kept.as_slice()[KEPT_WIDTH..])
}
