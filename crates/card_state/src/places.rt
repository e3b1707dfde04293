//! Where everything stands in the memory of a card: the first bytes, and each entry by its number.
ghost use Rattle.std.specs.Prelude.{◌≡◌, ◌<◌};
ghost use Rattle.card_state.specs.Places.{pin_place, row_place, kept_place, node_place};

use crate::sizes::{
    KEPT_WIDTH, LOWER_ROW_COUNT, NODE_COUNT, NODE_WIDTH, PIN_COUNT, PIN_WIDTH, ROW_COUNT,
    ROW_STRIDE,
};
use uicc_types::Shelf;

/// How many bytes the memory has.
pub const MEMORY_SIZE: usize = 65_536;

/// Where the version of the layout stands, after the four bytes by which a card is known.
pub const VERSION: u16 = 4;

/// The version of a narrow card.
pub const NARROW_VERSION: u8 = 1;

/// The version of a wide card: it has rows on the shelves above 15, and bytes apart from the rows for what they keep.
pub const WIDE_VERSION: u8 = 2;

/// Where the byte of the kind of store stands.
pub const STORE_MARK: u16 = 5;

/// Where the next sequence number stands.
pub const SEQUENCE: u16 = 6;

/// Where the PIN slots begin.
pub const PINS: u16 = 832;

/// Where the rows of the shelves up to 15 begin.
pub const ROWS: u16 = 896;

/// Where the entries of the files begin.
pub const NODES: u16 = 1_920;

/// Where the bytes of the files begin.
pub const DATA: usize = 3_968;

/// Where the rows of the shelves above 15 begin, and where the bytes of a wide card's files end.
pub const UPPER_ROWS: u16 = 63_488;

/// Where the bytes begin that stand apart from the rows of a wide card.
pub const KEPT_APART: u16 = 64_512;

/// Where a PIN slot stands.
pub fn place_of_pin(slot: u8) -> u16
    requires { slot < PIN_COUNT }
    ensures { result ≡ pin_place slot }
{
    PINS + PIN_WIDTH as u16 * u16::from(slot)
}

/// Where a row stands: those of the shelves above 15 after the files of a wide card.
pub fn place_of_row(shelf: Shelf) -> u16
    requires { shelf.0 < ROW_COUNT }
    ensures { result ≡ row_place shelf.0 }
{
    let shelf = u16::from(shelf.0);
    let lower = LOWER_ROW_COUNT as u16;
    let stride = ROW_STRIDE as u16;
    if shelf < lower {
        ROWS + stride * shelf
    } else {
        UPPER_ROWS + stride * (shelf - lower)
    }
}

/// Where the kept bytes of a row stand from the 33rd on.
pub fn place_of_kept(shelf: Shelf) -> u16
    requires { shelf.0 < ROW_COUNT }
    ensures { result ≡ kept_place shelf.0 }
{
    KEPT_APART + KEPT_WIDTH as u16 * u16::from(shelf.0)
}

/// Where a file's entry stands.
pub fn place_of_node(number: u8) -> u16
    requires { number < NODE_COUNT }
    ensures { result ≡ node_place number }
{
    NODES + NODE_WIDTH as u16 * u16::from(number)
}
