//! The entries of the layout, and the table of all of them that a card keeps while it runs.
ghost use Rattle.std.specs.Prelude.{◌≡◌, [], length, replicate, false};

use crate::sizes::{NODE_COUNT, PIN_COUNT, ROW_COUNT};
use std::array;
use uicc_types::{FileId, Kept, Pin8, ShortText};

/// A file: the MF, another DF, or an EF (ETSI TS 102 221, 8.2). The fields from `short` on are those of an EF.
#[derive(Clone, Copy, Debug)]
pub struct Node {
    /// Whether there is such a file.
    pub used: bool,
    /// The file descriptor byte (11.1.1.4.3): `78` for a DF, `41` transparent, `42` linear fixed, `46` cyclic.
    pub kind: u8,
    pub id: FileId,
    /// The number of the DF that it lies in; the MF's is its own, 0.
    pub parent: u8,
    /// The short file identifier, 1 to 30, or 0 where it has none (11.1.1.4.8).
    pub short: u8,
    /// The life cycle status (11.1.1.4.9): `05` activated, `04` deactivated.
    pub life: u8,
    /// The record of the EF_ARR that rules it, or 0 where there is no rule (9.2.7).
    pub rule: u8,
    /// The EF_ARR of that record.
    pub arr: FileId,
    /// Where its bytes begin.
    pub place: u16,
    /// How many bytes it has.
    pub size: u16,
    /// The length of a record, or 0 in a transparent file.
    pub length: u8,
    /// Which of the records as they lie is record 1 of a cyclic file, or 0 in another.
    pub head: u8,
}

impl Node {
    /// No file.
    pub const UNUSED: Node = Node {
        used: false,
        kind: 0,
        id: FileId(0),
        parent: 0,
        short: 0,
        life: 0,
        rule: 0,
        arr: FileId(0),
        place: 0,
        size: 0,
        length: 0,
        head: 0,
    };
}

/// A PIN with its UNBLOCK PIN (ETSI TS 102 221, 9.5).
#[derive(Clone, Copy, Debug)]
pub struct PinSlot {
    /// The key reference: `01`, `81` or `0A`; `00` where there is no such PIN.
    pub key: u8,
    pub enabled: bool,
    /// How many wrong values may still be presented, at most 3.
    pub tries: u8,
    /// How many wrong UNBLOCK PINs may still be presented, at most 10.
    pub unblock_tries: u8,
    pub value: Pin8,
    pub unblock: Pin8,
}

impl PinSlot {
    /// No PIN.
    pub const ABSENT: PinSlot = PinSlot {
        key: 0,
        enabled: false,
        tries: 0,
        unblock_tries: 0,
        value: Pin8([0; 8]),
        unblock: Pin8([0; 8]),
    };
}

/// A registered applet.
#[derive(Debug, Drop)]
pub struct Row {
    /// Whether there is one on this shelf.
    pub used: bool,
    /// The kind of the applet, from 1 to `LAST_KIND`.
    pub kind: u8,
    /// Its priority, 1 to 255; 1 comes first.
    pub priority: u8,
    /// The number of its installation; each row has another.
    pub sequence: u16,
    /// The events that it is registered for, one bit each.
    pub events: u16,
    /// Its text in the menu; empty where it has no item there.
    pub text: ShortText,
    /// What it keeps from one session to the next.
    pub kept: Kept,
}

impl Row {
    /// No applet.
    pub fn unused() -> Row
        ensures { result
            ≡ record { used = false; kind = 0; priority = 0; sequence = 0; events = 0; text = []; kept = [] } }
    {
        Row {
            used: false,
            kind: 0,
            priority: 0,
            sequence: 0,
            events: 0,
            text: ShortText::new(),
            kept: Kept::new(),
        }
    }
}

/// All entries of a card by their numbers, the next sequence number, and whether the card is wide.
#[derive(Debug, Drop)]
pub struct Loaded {
    /// The files by their numbers. The MF is number 0.
    pub nodes: [Node; NODE_COUNT],
    /// The PINs with the keys `01`, `81` and `0A`, in this order.
    pub pins: [PinSlot; PIN_COUNT],
    /// The registered applets by their shelves.
    pub rows: [Row; ROW_COUNT],
    /// The sequence number that the next row takes.
    pub next: u16,
    /// Whether the layout has version 2, with shelves above 15 and more than 32 kept bytes a row.
    pub wide: bool,
}

impl Loaded {
    /// The empty table: no file, no PIN, no row, next sequence number 0, and not wide.
    pub fn new() -> Loaded
        ensures nodes { result.nodes ≡ replicate NODE_COUNT Node.UNUSED }
        ensures pins { result.pins ≡ replicate PIN_COUNT PinSlot.ABSENT }
        ensures rows { result.rows ≡ replicate ROW_COUNT
            (record { used = false; kind = 0; priority = 0; sequence = 0; events = 0; text = []; kept = [] }) }
        ensures next { result.next ≡ 0 }
        ensures narrow { result.wide ≡ false }
    {
        Loaded {
            nodes: [Node::UNUSED; NODE_COUNT],
            pins: [PinSlot::ABSENT; PIN_COUNT],
            rows: array::from_fn(|_| Row::unused()),
            next: 0,
            wide: false,
        }
    }
    /// The files, of which there are 128.
    pub fn all_nodes(&self) -> &[Node]
        ensures value { result.now ≡ self.now.nodes }
        ensures long { length result.now ≡ NODE_COUNT }
    {
        &self.nodes
    }

    /// The PIN slots, of which there are three.
    pub fn all_pins(&self) -> &[PinSlot]
        ensures value { result.now ≡ self.now.pins }
        ensures long { length result.now ≡ PIN_COUNT }
    {
        &self.pins
    }

    /// The rows, of which there are 32.
    pub fn all_rows(&self) -> &[Row]
        ensures value { result.now ≡ self.now.rows }
        ensures long { length result.now ≡ ROW_COUNT }
    {
        &self.rows
    }
}
