//! The bytes of a memory in which a card's entries stand.
ghost use Rattle.std.specs.Prelude.{◌≡◌, ◌<◌, ◌≤◌, ◌+◌, length, slice_index, true, false, Err, OnOk, IfOk, IsErrOf};
ghost use Rattle.uicc_types.specs.Told.{AreBytes};
ghost use Rattle.card_state.specs.Places.{memory_size, sequence_place};
ghost use Rattle.card_state.specs.Decoding.{number_at, node_bytes, pin_bytes, row_bytes, kept_bytes};
ghost use Rattle.layout_mount.specs.Images.{IsImage};
ghost use Rattle.layout_mount.specs.Mounted.{OnlyReads, unread};

use crate::reading::read_number;
use card_state::places::{DATA, KEPT_APART, MEMORY_SIZE, NODES, PINS, ROWS, SEQUENCE, UPPER_ROWS};
use card_state::sizes::{
    KEPT_WIDTH, LOWER_ROW_COUNT, NODE_COUNT, NODE_WIDTH, PIN_COUNT, PIN_WIDTH, ROW_COUNT,
    ROW_STRIDE, ROW_WIDTH,
};
use std::marker::Model;
use store_form::{Store, StoreFault};
use uicc_types::{Shelf, are_bytes};

// How many bytes there are from the PIN slots to the files, and from the upper rows on.
const TABLE_LENGTH: usize = DATA - PINS as usize;

const UPPER_LENGTH: usize = MEMORY_SIZE - UPPER_ROWS as usize;

// Where the rows, the files' entries and the bytes apart from the rows begin in these.
const ROWS_AT: usize = ROWS as usize - PINS as usize;

const NODES_AT: usize = NODES as usize - PINS as usize;

const KEPT_AT: usize = KEPT_APART as usize - UPPER_ROWS as usize;

/// The first bytes, the table after the store's own bytes, and what a wide card has after the files. A contract sees
/// them as one content of the memory, with FF in all other bytes.
#[derive(Drop)]
pub struct Image {
    first: [u8; 8],
    table: [u8; TABLE_LENGTH],
    upper: [u8; UPPER_LENGTH],
}

impl Model for Image {
    ghost use Rattle.std.specs.Prelude.{List, ℕ};

    ghost Value = { List ℕ };

    ghost use Rattle.layout_mount.specs.Images.{image_of};

    ghost view = { image_of };
}

impl Image {
    /// Reads the image of what this store holds.
    pub fn read<S: Store>(store: &mut S) -> Result<Image, StoreFault>
        requires recovered { S.recovered store.old ≡ true }
        requires size { S.byte_count store.old ≡ memory_size }
        ensures image { IfOk result (IsImage (S.stable store.old)) }
        ensures ready { OnOk result (S.recovered store.new ≡ true) }
        ensures reads { OnlyReads (unread S.Store store.old) (unread S.Store store.new)
            (IsErrOf result StoreFault.Failed) (IsErrOf result StoreFault.PowerLost) }
        ensures off { (S.meter store.old).powered ≡ false →
            (result ≡ Err StoreFault.PowerLost) × (S.meter store.new ≡ S.meter store.old)
            × (S.recovered store.new ≡ S.recovered store.old) }
    {
        let mut first = [0; 8];
        store.read(0, &mut first)?;
        let mut table = [0; TABLE_LENGTH];
        store.read(PINS as usize, &mut table)?;
        let mut upper = [0; UPPER_LENGTH];
        store.read(UPPER_ROWS as usize, &mut upper)?;
        Ok(Image {
            first,
            table,
            upper,
        })
    }

    /// Does nothing. What it holds are bytes.
    pub fn holds_bytes(&self)
        ensures { AreBytes self.now }
    {
        are_bytes(&self.first);
        are_bytes(&self.table);
        are_bytes(&self.upper);
    }

    /// One of the first eight bytes.
    pub fn byte(&self, at: usize) -> u8
        requires { at < 8 }
        ensures { result ≡ slice_index self.now at }
    {
        self.first[at]
    }

    /// The next sequence number.
    pub fn next(&self) -> u16
        ensures { result ≡ number_at self.now sequence_place }
    {
        read_number(&self.first, SEQUENCE as usize)
    }

    /// The bytes of a file's entry.
    pub fn node(&self, number: u8) -> &[u8]
        requires { number < NODE_COUNT }
        ensures value { result.now ≡ node_bytes self.now number }
        ensures long { length result.now ≡ NODE_WIDTH }
    {
        let at = NODES_AT + NODE_WIDTH * usize::from(number);
        &self.table[at..at + NODE_WIDTH]
    }

    /// The bytes of a PIN slot.
    pub fn pin(&self, slot: u8) -> &[u8]
        requires { slot < PIN_COUNT }
        ensures value { result.now ≡ pin_bytes self.now slot }
        ensures long { length result.now ≡ PIN_WIDTH }
    {
        let at = PIN_WIDTH * usize::from(slot);
        &self.table[at..at + PIN_WIDTH]
    }

    /// The bytes of a row.
    pub fn row(&self, shelf: Shelf) -> &[u8]
        requires { shelf.0 < ROW_COUNT }
        ensures value { result.now ≡ row_bytes self.now shelf.0 }
        ensures long { length result.now ≡ ROW_WIDTH }
    {
        let shelf = usize::from(shelf.0);
        if shelf < LOWER_ROW_COUNT {
            let at = ROWS_AT + ROW_STRIDE * shelf;
            &self.table[at..at + ROW_WIDTH]
        } else {
            let at = ROW_STRIDE * (shelf - LOWER_ROW_COUNT);
            &self.upper[at..at + ROW_WIDTH]
        }
    }

    /// Where a wide card holds what a row keeps beyond 32 bytes.
    pub fn kept(&self, shelf: Shelf) -> &[u8]
        requires { shelf.0 < ROW_COUNT }
        ensures value { result.now ≡ kept_bytes self.now shelf.0 }
        ensures long { length result.now ≡ KEPT_WIDTH }
    {
        let at = KEPT_AT + KEPT_WIDTH * usize::from(shelf.0);
        &self.upper[at..at + KEPT_WIDTH]
    }
}
