//! The checks of the entries.
ghost use Rattle.std.specs.Prelude.{◌≡◌, ◌+◌, ◌≤◌, ◌<◌, ◌^◌, length, count_by};
ghost use Rattle.std.specs.List.{list_any};
ghost use Rattle.card_state.specs.Checks.{is_pin, is_registration, is_row, is_mf, has_place_in_tree, has_whole_records, has_own_short, is_ef, is_node, is_call_control, has_known_numbers, has_short_parts, has_own_sequence, leaves_call_control, leaves_texts, is_known_kind, is_free_id, has_own_id, has_parent, is_new_short, lies_among_files, shares_no_byte, is_life_cycle, has_right_records, has_row_text, has_sequence_of, has_id_of, has_short_of, is_apart, is_sibling};
ghost use Rattle.card_state.specs.Decoding.{pin_of};
ghost use Rattle.card_state.specs.Kinds.{has_records, is_ef_kind};

use card_state::events::{EVENTS_END, has_call_control};
use card_state::kinds::{ACTIVATED, CYCLIC, DEACTIVATED, DF, has_records, is_ef, is_free_id};
use card_state::places::{DATA, MEMORY_SIZE, UPPER_ROWS};
use card_state::sizes::{
    KEPT_LIMIT, KEPT_WIDTH, LAST_KIND, MENU_LIMIT, NODE_WIDTH, PIN_WIDTH, RECORD_LIMIT, ROW_WIDTH,
    TEXT_LIMIT, TRIES, UNBLOCK_TRIES,
};
use card_state::{Node, PinSlot, Row};
use uicc_types::FileId;

/// Whether a PIN slot with these bytes has no key, or its own with tries that are left.
pub fn pin_passes(key: u8, bytes: &[u8], pin: &PinSlot) -> bool
    requires bytes { length bytes.now ≡ PIN_WIDTH }
    requires pin { pin.now ≡ pin_of bytes.now }
    ensures { result ≡ is_pin key bytes.now }
{
    pin.key == 0
        || pin.key == key
            && bytes[1] <= 1
            && pin.tries <= TRIES
            && pin.unblock_tries <= UNBLOCK_TRIES
}

// Whether the row is registered for call control.
fn controls_calls(row: &Row) -> bool
    ensures { result ≡ is_call_control row.now }
{
    has_call_control(row.events)
}

fn shows_text(row: &Row) -> bool
    ensures { result ≡ has_row_text row.now }
{
    row.text.as_slice().len() != 0
}

fn numbers_pass(next: u16, row: &Row) -> bool
    ensures { result ≡ has_known_numbers next row.now }
{
    1 <= row.kind
        && row.kind <= LAST_KIND
        && 1 <= row.priority
        && row.sequence < next
        && row.events < EVENTS_END
}

fn lengths_pass(wide: bool, bytes: &[u8]) -> bool
    requires { length bytes.now ≡ ROW_WIDTH }
    ensures { result ≡ has_short_parts wide bytes.now }
{
    let kept_limit = if wide { KEPT_LIMIT } else { KEPT_WIDTH };
    usize::from(bytes[7]) <= TEXT_LIMIT && usize::from(bytes[18]) <= kept_limit
}

fn has_sequence(row: &Row, other: &Row) -> bool
    ensures { result ≡ has_sequence_of row.now other.now }
{
    other.used && other.sequence == row.sequence
}

fn some_has_sequence(earlier: &[Row], row: &Row) -> bool
    ensures { result ≡ list_any (has_sequence_of row.now) earlier.now }
{
    earlier.iter().any(|other| has_sequence(row, other))
}

fn sequence_passes(earlier: &[Row], row: &Row) -> bool
    ensures { result ≡ has_own_sequence earlier.now row.now }
{
    !some_has_sequence(earlier, row)
}

fn some_controls_calls(rows: &[Row]) -> bool
    ensures { result ≡ list_any is_call_control rows.now }
{
    rows.iter().any(|row| controls_calls(row))
}

fn call_control_passes(earlier: &[Row], row: &Row) -> bool
    ensures { result ≡ leaves_call_control earlier.now row.now }
{
    !(controls_calls(row) && some_controls_calls(earlier))
}

fn text_count(rows: &[Row]) -> usize
    requires { length rows.now < 2 ^ 32 }
    ensures { result ≡ count_by has_row_text rows.now }
{
    rows.iter().filter(|row| shows_text(row)).count()
}

fn text_passes(earlier: &[Row], row: &Row) -> bool
    requires { length earlier.now < 2 ^ 32 }
    ensures { result ≡ leaves_texts earlier.now row.now }
{
    !(shows_text(row) && MENU_LIMIT <= text_count(earlier))
}

// Whether a row that is used may stand above these.
fn registration_passes(wide: bool, next: u16, earlier: &[Row], bytes: &[u8], row: &Row) -> bool
    requires bytes { length bytes.now ≡ ROW_WIDTH }
    requires few { length earlier.now < 2 ^ 32 }
    ensures { result ≡ is_registration wide next earlier.now bytes.now row.now }
{
    numbers_pass(next, row)
        && lengths_pass(wide, bytes)
        && sequence_passes(earlier, row)
        && call_control_passes(earlier, row)
        && text_passes(earlier, row)
}

/// Whether the row with these bytes is in order above these.
pub fn row_passes(wide: bool, next: u16, earlier: &[Row], bytes: &[u8], row: &Row) -> bool
    requires bytes { length bytes.now ≡ ROW_WIDTH }
    requires few { length earlier.now < 2 ^ 32 }
    ensures { result ≡ is_row wide next earlier.now bytes.now row.now }
{
    bytes[0] <= 1 && (!row.used || registration_passes(wide, next, earlier, bytes, row))
}

fn is_mf_entry(node: &Node) -> bool
    ensures { result ≡ is_mf node.now }
{
    node.used && node.kind == DF && node.id == FileId::MF && node.parent == 0
}

fn are_siblings(node: &Node, other: &Node) -> bool
    ensures { result ≡ is_sibling node.now other.now }
{
    other.used && other.parent == node.parent
}

fn kind_passes(kind: u8) -> bool
    ensures { result ≡ is_known_kind kind }
{
    kind == DF || is_ef(kind)
}

// Most files have other identifiers.
fn has_id(node: &Node, other: &Node) -> bool
    ensures { result ≡ has_id_of node.now other.now }
{
    other.id.0 == node.id.0 && are_siblings(node, other)
}

fn some_has_id(earlier: &[Node], node: &Node) -> bool
    ensures { result ≡ list_any (has_id_of node.now) earlier.now }
{
    earlier.iter().any(|other| has_id(node, other))
}

fn id_is_new(earlier: &[Node], node: &Node) -> bool
    ensures { result ≡ has_own_id earlier.now node.now }
{
    !some_has_id(earlier, node)
}

fn parent_passes(earlier: &[Node], node: &Node) -> bool
    ensures { result ≡ has_parent earlier.now node.now }
{
    match earlier.get(usize::from(node.parent)) {
        Some(parent) => parent.used && parent.kind == DF,
        None => false,
    }
}

// Whether a file below the MF has a known kind, an identifier of its own and a DF among these.
fn place_passes(earlier: &[Node], node: &Node) -> bool
    ensures { result ≡ has_place_in_tree earlier.now node.now }
{
    kind_passes(node.kind)
        && is_free_id(node.id)
        && id_is_new(earlier, node)
        && parent_passes(earlier, node)
}

fn records_pass(node: &Node) -> bool
    ensures { result ≡ has_whole_records node.now }
{
    if node.length == 0 {
        return false;
    }
    let length = u16::from(node.length);
    let count = node.size / length;
    let head = u16::from(node.head);
    node.size % length == 0
        && count <= u16::from(RECORD_LIMIT)
        && (if node.kind == CYCLIC {
            head < count
        } else {
            head == 0
        })
}

fn has_short(node: &Node, other: &Node) -> bool
    ensures { result ≡ has_short_of node.now other.now }
{
    are_siblings(node, other) && is_ef(other.kind) && other.short == node.short
}

fn some_has_short(earlier: &[Node], node: &Node) -> bool
    ensures { result ≡ list_any (has_short_of node.now) earlier.now }
{
    earlier.iter().any(|other| has_short(node, other))
}

fn short_is_new(earlier: &[Node], node: &Node) -> bool
    ensures { result ≡ is_new_short earlier.now node.now }
{
    !some_has_short(earlier, node)
}

fn short_passes(earlier: &[Node], node: &Node) -> bool
    ensures { result ≡ has_own_short earlier.now node.now }
{
    node.short <= 30 && (node.short == 0 || short_is_new(earlier, node))
}

fn share_no_byte(a: &Node, b: &Node) -> bool
    ensures { result ≡ is_apart a.now b.now }
{
    u32::from(a.place) + u32::from(a.size) <= u32::from(b.place)
        || u32::from(b.place) + u32::from(b.size) <= u32::from(a.place)
}

fn bytes_lie_well(wide: bool, node: &Node) -> bool
    ensures { result ≡ lies_among_files wide node.now }
{
    let end = if wide {
        usize::from(UPPER_ROWS)
    } else {
        MEMORY_SIZE
    };
    let place = usize::from(node.place);
    DATA <= place && 1 <= node.size && place + usize::from(node.size) <= end
}

fn bytes_are_new(earlier: &[Node], node: &Node) -> bool
    ensures { result ≡ shares_no_byte earlier.now node.now }
{
    earlier
        .iter()
        .all(|other| !is_ef(other.kind) || share_no_byte(node, other))
}

fn records_fit(node: &Node) -> bool
    ensures { result ≡ has_right_records node.now }
{
    if has_records(node.kind) {
        records_pass(node)
    } else {
        node.head == 0
    }
}

fn life_passes(life: u8) -> bool
    ensures { result ≡ is_life_cycle life }
{
    life == DEACTIVATED || life == ACTIVATED
}

fn ef_passes(wide: bool, earlier: &[Node], node: &Node) -> bool
    ensures { result ≡ is_ef wide earlier.now node.now }
{
    short_passes(earlier, node)
        && life_passes(node.life)
        && (bytes_lie_well(wide, node) && bytes_are_new(earlier, node))
        && records_fit(node)
}

/// Whether the file's entry with these bytes is in order after these.
pub fn node_passes(wide: bool, number: u8, earlier: &[Node], bytes: &[u8], node: &Node) -> bool
    requires { length bytes.now ≡ NODE_WIDTH }
    ensures { result ≡ is_node wide number earlier.now bytes.now node.now }
{
    if bytes[0] > 1 {
        return false;
    }
    if number == 0 {
        return is_mf_entry(node);
    }
    !node.used || place_passes(earlier, node) && (node.kind == DF || ef_passes(wide, earlier, node))
}
