//! The table of all entries of an image, if it passes the checks.
ghost use Rattle.std.specs.Prelude.{◌≡◌, ◌<◌, ◌+◌, ℕ, true, false, ◌≤◌, ◌++◌, MatchResult, OnOk, IfOk, ◌==◌, if◌then◌else◌, length, map, replicate};
ghost use Rattle.std.specs.List.{range_with_len};
ghost use Rattle.card_state.specs.Blank.{absent_pin, unused_node, unused_row, empty_table};
ghost use Rattle.card_state.specs.Places.{node_place, pin_place, row_place, row_count, sequence_place};
ghost use Rattle.card_state.specs.Decoding.{is_wide, number_at, node_at, pin_at, row_at, table_of};
ghost use Rattle.card_state.specs.Checks.{checks, header_checks, pin_checks, row_checks, node_checks, pin_check, row_check, node_check, rows_below, nodes_below, key_of_slot, has_card_mark, row_there};
ghost use Rattle.layout_mount.specs.Loads.{FindsFirst, PassesCheck};

use crate::checks::{node_passes, pin_passes, row_passes};
use crate::image::Image;
use crate::reading::{read_node, read_pin, read_row};
use card_state::places::{
    NARROW_VERSION, STORE_MARK, VERSION, WIDE_VERSION, place_of_node, place_of_pin, place_of_row,
};
use card_state::sizes::{LOWER_ROW_COUNT, NODE_COUNT, PIN_COUNT, ROW_COUNT};
use card_state::{Loaded, Node, PinSlot, Row};
use uicc_types::Shelf;
use uicc_types::keys::{ADM_1, PIN_1, PIN_2};

fn has_mark(image: &Image) -> bool
    ensures { result ≡ has_card_mark image.now }
{
    image.byte(0) == b'U' && image.byte(1) == b'I' && image.byte(2) == b'C' && image.byte(3) == b'C'
}

// The place of the first check of the header that fails.
fn check_header(image: &Image, mark: u8) -> Result<(), usize>
    ensures { FindsFirst (header_checks mark image.now) result }
{
    if !has_mark(image) {
        return Err(0);
    }
    let version = image.byte(VERSION as usize);
    if version != NARROW_VERSION && version != WIDE_VERSION {
        return Err(VERSION as usize);
    }
    if image.byte(STORE_MARK as usize) != mark {
        return Err(STORE_MARK as usize);
    }
    Ok(())
}

fn slot_key(slot: u8) -> u8
    ensures { result ≡ key_of_slot slot }
{
    match slot {
        0 => PIN_1,
        1 => PIN_2,
        _ => ADM_1,
    }
}

fn shown_pin(pin: PinSlot) -> PinSlot
    ensures { result ≡ (if pin.key == 0 then absent_pin else pin) }
{
    if pin.key == 0 { PinSlot::ABSENT } else { pin }
}

// The PIN slot of this number.
fn load_pin(image: &Image, slot: u8) -> Result<PinSlot, usize>
    requires { slot < PIN_COUNT }
    ensures { PassesCheck (pin_check image.now slot) (pin_at image.now slot) result }
{
    let bytes = image.pin(slot);
    let pin = read_pin(bytes);
    if pin_passes(slot_key(slot), bytes, &pin) {
        Ok(shown_pin(pin))
    } else {
        Err(usize::from(place_of_pin(slot)))
    }
}

fn shown_row(row: Row) -> Row
    ensures { result ≡ (if row.used then row else unused_row) }
{
    if row.used { row } else { Row::unused() }
}

fn read_row_of(image: &Image, wide: bool, shelf: u8) -> Row
    requires shelf { shelf < ROW_COUNT }
    requires wide { wide ≡ is_wide image.now }
    ensures { result ≡ row_there image.now shelf }
{
    let bytes = image.row(Shelf(shelf));
    if wide {
        read_row(bytes, image.kept(Shelf(shelf)))
    } else {
        read_row(bytes, &[])
    }
}

// The row of this shelf, above these.
fn load_row(image: &Image, wide: bool, next: u16, earlier: &[Row], shelf: u8) -> Result<Row, usize>
    requires wide { wide ≡ is_wide image.now }
    requires next { next ≡ number_at image.now sequence_place }
    requires shelf { shelf < row_count wide }
    requires earlier { earlier.now ≡ rows_below image.now shelf }
    ensures { PassesCheck (row_check image.now shelf) (row_at image.now shelf) result }
{
    let row = read_row_of(image, wide, shelf);
    if row_passes(wide, next, earlier, image.row(Shelf(shelf)), &row) {
        Ok(shown_row(row))
    } else {
        Err(usize::from(place_of_row(Shelf(shelf))))
    }
}

fn count_of_rows(wide: bool) -> u8
    ensures value { result ≡ row_count wide }
    ensures bound { result ≤ ROW_COUNT }
{
    if wide {
        ROW_COUNT as u8
    } else {
        LOWER_ROW_COUNT as u8
    }
}

fn load_rows(image: &Image, wide: bool, next: u16, rows: &mut [Row]) -> Result<(), usize>
    requires wide { wide ≡ is_wide image.now }
    requires next { next ≡ number_at image.now sequence_place }
    requires unused { rows.old ≡ replicate ROW_COUNT unused_row }
    ensures found { OnOk result (rows.new ≡ map (row_at image.now) (range_with_len 0 ROW_COUNT)) }
    ensures checked { FindsFirst (row_checks image.now) result }
{
    let count = count_of_rows(wide);
    for shelf in 0..count {
        match load_row(image, wide, next, &rows[..usize::from(shelf)], shelf) {
            Ok(row) => rows[usize::from(shelf)] = row,
            Err(at) => return Err(at),
        }
    }
    Ok(())
}

fn shown_node(node: Node) -> Node
    ensures { result ≡ (if node.used then node else unused_node) }
{
    if node.used { node } else { Node::UNUSED }
}

// The file of this number, after these.
fn load_node(image: &Image, wide: bool, earlier: &[Node], number: u8) -> Result<Node, usize>
    requires wide { wide ≡ is_wide image.now }
    requires number { number < NODE_COUNT }
    requires earlier { earlier.now ≡ nodes_below image.now number }
    ensures { PassesCheck (node_check image.now number) (node_at image.now number) result }
{
    let bytes = image.node(number);
    let node = read_node(bytes);
    if node_passes(wide, number, earlier, bytes, &node) {
        Ok(shown_node(node))
    } else {
        Err(usize::from(place_of_node(number)))
    }
}

fn load_nodes(image: &Image, wide: bool, nodes: &mut [Node]) -> Result<(), usize>
    requires wide { wide ≡ is_wide image.now }
    requires unused { nodes.old ≡ replicate NODE_COUNT unused_node }
    ensures found { OnOk result (nodes.new ≡ map (node_at image.now) (range_with_len 0 NODE_COUNT)) }
    ensures checked { FindsFirst (node_checks image.now) result }
{
    for number in 0..NODE_COUNT as u8 {
        match load_node(image, wide, &nodes[..usize::from(number)], number) {
            Ok(node) => nodes[usize::from(number)] = node,
            Err(at) => return Err(at),
        }
    }
    Ok(())
}

fn load_rows_and_nodes(image: &Image, into: &mut Loaded) -> Result<(), usize>
    requires rows { into.old.rows ≡ replicate ROW_COUNT unused_row }
    requires nodes { into.old.nodes ≡ replicate NODE_COUNT unused_node }
    requires next { into.old.next ≡ number_at image.now sequence_place }
    requires wide { into.old.wide ≡ is_wide image.now }
    ensures found { OnOk result (into.new ≡ record into.old {
      rows = map (row_at image.now) (range_with_len 0 ROW_COUNT);
      nodes = map (node_at image.now) (range_with_len 0 NODE_COUNT);
    }) }
    ensures checked { FindsFirst (row_checks image.now ++ node_checks image.now) result }
{
    match load_rows(image, into.wide, into.next, &mut into.rows) {
        Ok(()) => load_nodes(image, into.wide, &mut into.nodes),
        Err(at) => Err(at),
    }
}

fn load_pins(image: &Image) -> Result<[PinSlot; 3], usize>
    ensures found { IfOk result (λ pins. pins ≡ map (pin_at image.now) (range_with_len 0 PIN_COUNT)) }
    ensures checked { FindsFirst (pin_checks image.now) result }
{
    match load_pin(image, 0) {
        Err(at) => Err(at),
        Ok(first) => match load_pin(image, 1) {
            Err(at) => Err(at),
            Ok(second) => match load_pin(image, 2) {
                Err(at) => Err(at),
                Ok(third) => Ok([first, second, third]),
            },
        },
    }
}

fn load_entries(image: &Image, into: &mut Loaded) -> Result<(), usize>
    requires { into.old ≡ empty_table }
    ensures found { OnOk result (into.new ≡ table_of image.now) }
    ensures checked { FindsFirst (pin_checks image.now ++ (row_checks image.now ++ node_checks image.now)) result }
{
    match load_pins(image) {
        Ok(pins) => {
            into.pins = pins;
            into.next = image.next();
            into.wide = image.byte(VERSION as usize) == WIDE_VERSION;
            load_rows_and_nodes(image, into)
        }
        Err(at) => Err(at),
    }
}

/// Loads the table of all entries into the empty one, or answers the place of the first check that fails.
pub fn load(image: &Image, mark: u8, into: &mut Loaded) -> Result<(), usize>
    requires { into.old ≡ empty_table }
    ensures found { OnOk result (into.new ≡ table_of image.now) }
    ensures checked { FindsFirst (checks mark image.now) result }
{
    match check_header(image, mark) {
        Ok(()) => load_entries(image, into),
        Err(at) => Err(at),
    }
}
