//! The bytes of each entry.
ghost use Rattle.std.specs.Prelude.{◌≡◌, ◌+◌, ◌≤◌, ◌++◌, ◌∷◌, length};
ghost use Rattle.layout_entries.specs.Spelling.{node_spelled, pin_spelled, row_spelled, padded};

use card_state::sizes::{KEPT_WIDTH, NODE_WIDTH, PIN_WIDTH, ROW_WIDTH, TEXT_LIMIT};
use card_state::{Node, PinSlot, Row};
use uicc_types::{ByteList, Full};

/// The bytes of an entry, of which a row has most.
pub type EntryBytes = ByteList<ROW_WIDTH>;

fn put(bytes: &mut EntryBytes, part: &[u8])
    requires { length bytes.old + length part.now ≤ ROW_WIDTH }
    ensures { bytes.new ≡ bytes.old ++ part.now }
{
    match bytes.append(part) {
        Ok(()) => (),
        Err(Full) => unreachable!(),
    }
}

// Puts the first `width` of these bytes, filled up with 00.
fn put_padded(bytes: &mut EntryBytes, part: &[u8], width: usize)
    requires room { length bytes.old + width ≤ ROW_WIDTH }
    requires short { width ≤ KEPT_WIDTH }
    ensures { bytes.new ≡ bytes.old ++ padded width part.now }
{
    let shown = part.len().min(width);
    put(bytes, &part[..shown]);
    put(bytes, &[0; KEPT_WIDTH][..width - shown]);
}

// Puts how many bytes these are, and the first `width` of them, filled up with 00.
fn put_counted(bytes: &mut EntryBytes, part: &[u8], width: usize)
    requires room { length bytes.old + 1 + width ≤ ROW_WIDTH }
    requires short { width ≤ KEPT_WIDTH }
    requires count { length part.now ≤ 255 }
    ensures { bytes.new ≡ bytes.old ++ length part.now ∷ padded width part.now }
{
    put(bytes, &[part.len() as u8]);
    put_padded(bytes, part, width);
}

/// The 16 bytes of a file's entry.
#[tactic(auto, unfolding(crate::specs::Spelling::node_spelled))]
pub fn spell_node(node: &Node) -> EntryBytes
    ensures value { result ≡ node_spelled node.now }
    ensures long { length result ≡ NODE_WIDTH }
{
    let mut bytes = EntryBytes::new();
    put(&mut bytes, &[u8::from(node.used), node.kind]);
    put(&mut bytes, &node.id.0.to_be_bytes());
    put(&mut bytes, &[node.parent, node.short, node.life, node.rule]);
    put(&mut bytes, &node.arr.0.to_be_bytes());
    put(&mut bytes, &node.place.to_be_bytes());
    put(&mut bytes, &node.size.to_be_bytes());
    put(&mut bytes, &[node.length, node.head]);
    bytes
}

/// The 20 bytes of a PIN slot.
#[tactic(auto, unfolding(crate::specs::Spelling::pin_spelled))]
pub fn spell_pin(pin: &PinSlot) -> EntryBytes
    ensures value { result ≡ pin_spelled pin.now }
    ensures long { length result ≡ PIN_WIDTH }
{
    let mut bytes = EntryBytes::new();
    put(
        &mut bytes,
        &[pin.key, u8::from(pin.enabled), pin.tries, pin.unblock_tries],
    );
    put(&mut bytes, &pin.value.0);
    put(&mut bytes, &pin.unblock.0);
    bytes
}

/// The 51 bytes of a row, with the first 32 of its kept bytes.
#[tactic(auto, unfolding(crate::specs::Spelling::row_spelled))]
pub fn spell_row(row: &Row) -> EntryBytes
    ensures value { result ≡ row_spelled row.now }
    ensures long { length result ≡ ROW_WIDTH }
{
    let text = row.text.as_slice();
    let kept = row.kept.as_slice();
    let mut bytes = EntryBytes::new();
    put(&mut bytes, &[u8::from(row.used), row.kind, row.priority]);
    put(&mut bytes, &row.sequence.to_be_bytes());
    put(&mut bytes, &row.events.to_be_bytes());
    put_counted(&mut bytes, text, TEXT_LIMIT);
    put_counted(&mut bytes, kept, KEPT_WIDTH);
    bytes
}
