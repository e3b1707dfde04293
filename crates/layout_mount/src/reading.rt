//! The entries that bytes spell.
ghost use Rattle.std.specs.Prelude.{◌≡◌, ◌+◌, ◌≤◌, ◌<◌, ◌++◌, length, take};
ghost use Rattle.card_state.specs.Decoding.{number_at, node_of, pin_of, row_of};

use card_state::sizes::{KEPT_WIDTH, NODE_WIDTH, PIN_WIDTH, ROW_WIDTH};
use card_state::{Node, PinSlot, Row};
use uicc_types::{ByteList, FileId, Kept, Pin8, ShortText};

/// The number of two bytes that stands here.
pub fn read_number(bytes: &[u8], at: usize) -> u16
    requires { at + 2 ≤ length bytes.now }
    ensures { result ≡ number_at bytes.now at }
{
    u16::from_be_bytes([bytes[at], bytes[at + 1]])
}

/// The file's entry that 16 bytes spell.
#[tactic(auto, unfolding(card_state::specs::Decoding::node_of))]
pub fn read_node(bytes: &[u8]) -> Node
    requires { length bytes.now ≡ NODE_WIDTH }
    ensures { result ≡ node_of bytes.now }
{
    Node {
        used: bytes[0] == 1,
        kind: bytes[1],
        id: FileId(read_number(bytes, 2)),
        parent: bytes[4],
        short: bytes[5],
        life: bytes[6],
        rule: bytes[7],
        arr: FileId(read_number(bytes, 8)),
        place: read_number(bytes, 10),
        size: read_number(bytes, 12),
        length: bytes[14],
        head: bytes[15],
    }
}

fn read_value(bytes: &[u8]) -> Pin8
    requires { length bytes.now ≡ 8 }
    ensures { result.0 ≡ bytes.now }
{
    let mut value = [0; 8];
    value.copy_from_slice(bytes);
    Pin8(value)
}

/// The PIN slot that 20 bytes spell.
#[tactic(auto, unfolding(card_state::specs::Decoding::pin_of))]
pub fn read_pin(bytes: &[u8]) -> PinSlot
    requires { length bytes.now ≡ PIN_WIDTH }
    ensures { result ≡ pin_of bytes.now }
{
    PinSlot {
        key: bytes[0],
        enabled: bytes[1] == 1,
        tries: bytes[2],
        unblock_tries: bytes[3],
        value: read_value(&bytes[4..12]),
        unblock: read_value(&bytes[12..20]),
    }
}

// The first of these bytes, so many as are asked for and there are.
fn read_bytes<const N: usize>(bytes: &[u8], count: u8) -> ByteList<N>
    requires { length bytes.now ≤ N }
    ensures { result ≡ take count bytes.now }
{
    let shown = bytes.len().min(usize::from(count));
    ByteList::from_slice(&bytes[..shown])
}

// What a row keeps: so many of the bytes with the row and those that stand apart.
fn read_kept(with_row: &[u8], apart: &[u8], count: u8) -> Kept
    requires first { length with_row.now ≡ KEPT_WIDTH }
    requires second { length apart.now ≤ KEPT_WIDTH }
    ensures { result ≡ take count (with_row.now ++ apart.now) }
{
    let mut all = Kept::new();
    match (all.append(with_row), all.append(apart)) {
        (Ok(()), Ok(())) => read_bytes(all.as_slice(), count),
        _ => unreachable!(),
    }
}

/// The row that 51 bytes spell, with the bytes for what it keeps beyond 32.
#[tactic(auto, unfolding(card_state::specs::Decoding::row_of))]
pub fn read_row(bytes: &[u8], more: &[u8]) -> Row
    requires with_row { length bytes.now ≡ ROW_WIDTH }
    requires apart { length more.now ≤ KEPT_WIDTH }
    ensures { result ≡ row_of bytes.now more.now }
{
    let text: ShortText = read_bytes(&bytes[8..18], bytes[7]);
    Row {
        used: bytes[0] == 1,
        kind: bytes[1],
        priority: bytes[2],
        sequence: read_number(bytes, 3),
        events: read_number(bytes, 5),
        text,
        kept: read_kept(&bytes[19..51], more, bytes[18]),
    }
}
