//! The commits of what files hold, and of their life cycle status.
ghost use Rattle.std.specs.Prelude.{◌≡◌, ◌⊎◌, ◌≤◌, ◌<◌, [], ◌∷◌, length, OnOk, OnErr};
ghost use Rattle.card_state.specs.Kinds.{activated, deactivated};
ghost use Rattle.card_state.specs.Changes.{PutBytes, PutRecord, PutNewest, PutLife};
ghost use Rattle.card_state.specs.Changing.{with_bytes, with_record, with_newest_record, with_life};
ghost use Rattle.card_state.specs.Memory.{Committed, IsMounted, memory};
ghost use Rattle.file_model.specs.Files.{descriptors_of, node_at};
ghost use Rattle.layout_entries.specs.Spelling.{node_part};
ghost use Rattle.card_commits.specs.Entries.{HasBytes, HasLinearRecord, HasRing, HasEf, with_node_at, with_head_moved, with_life_told};
ghost use Rattle.card_commits.specs.Writing.{WritesChange};

use crate::commits::commit;
use crate::entries::{node_of, with_head_moved};
use crate::pieces::{bytes_piece, node_piece};
use card_state::sizes::NODE_COUNT;
use card_state::{Loaded, Node, standing_files_hold};
use file_model::files_are_found;
use layout_entries::node_write;
use layout_laws::{cards_are_known, files_stand, what_files_hold_stands};
use store_form::{Store, StoreFault, Writes};
use uicc_types::Full;

/// Commits bytes of a transparent file, from an offset on (ETSI TS 102 221, 11.1.4). At most 640 can be committed.
pub fn write_bytes<S: Store>(
    store: &mut S,
    loaded: &Loaded,
    number: u8,
    offset: u16,
    bytes: &[u8],
) -> Result<(), StoreFault>
    requires mounted { IsMounted (memory S.Store store.old loaded.now) }
    requires file { HasBytes loaded.now number offset (length bytes.now) }
    requires some { 0 < length bytes.now }
    requires few { length bytes.now ≤ 640 }
    ensures committed { Committed (memory S.Store store.old loaded.now) (memory S.Store store.new loaded.now) result
        (with_bytes number offset bytes.now) }
    ensures writes { WritesChange (memory S.Store store.old loaded.now) (memory S.Store store.new loaded.now) result
        (PutBytes number offset bytes.now) }
{
    // These calls are laws, and do nothing.
    files_are_found();
    cards_are_known();
    what_files_hold_stands();
    let node = node_of(loaded, number);
    let mut writes = Writes::new();
    bytes_piece(node.place + offset, bytes, &mut writes);
    commit(store, loaded, &writes)
}

/// Commits record `index + 1` of a linear fixed file (11.1.6).
pub fn write_record<S: Store>(
    store: &mut S,
    loaded: &Loaded,
    number: u8,
    index: u8,
    bytes: &[u8],
) -> Result<(), StoreFault>
    requires mounted { IsMounted (memory S.Store store.old loaded.now) }
    requires file { HasLinearRecord loaded.now number index (length bytes.now) }
    ensures committed { Committed (memory S.Store store.old loaded.now) (memory S.Store store.new loaded.now) result
        (with_record number index bytes.now) }
    ensures writes { WritesChange (memory S.Store store.old loaded.now) (memory S.Store store.new loaded.now) result
        (PutRecord number index bytes.now) }
{
    // These calls are laws, and do nothing.
    files_are_found();
    cards_are_known();
    standing_files_hold();
    what_files_hold_stands();
    let node = node_of(loaded, number);
    let place = node.place + u16::from(index) * u16::from(node.length);
    let mut writes = Writes::new();
    bytes_piece(place, bytes, &mut writes);
    commit(store, loaded, &writes)
}

// Makes a record, and then the head of its file, the pieces.
fn newest_pieces(number: u8, node: &Node, place: u16, bytes: &[u8], writes: &mut Writes)
    requires empty { writes.old ≡ [] }
    requires entry { number < NODE_COUNT }
    requires few { length bytes.now ≤ 255 }
    ensures { writes.new ≡ record { place = place; bytes = bytes.now } ∷ node_part number node.now 15 16 ∷ [] }
{
    bytes_piece(place, bytes, writes);
    match node_write(number, node, 15, 16, writes) {
        Ok(()) => (),
        Err(Full) => unreachable!(),
    }
}

/// Commits a new record 1 of a cyclic file, in place of its oldest one (8.2.2.3), and then has its head in the table.
/// After a fault the table is as it was.
pub fn write_newest_record<S: Store>(
    store: &mut S,
    loaded: &mut Loaded,
    number: u8,
    bytes: &[u8],
) -> Result<(), StoreFault>
    requires mounted { IsMounted (memory S.Store store.old loaded.old) }
    requires file { HasRing loaded.old number (length bytes.now) }
    ensures committed { Committed (memory S.Store store.old loaded.old) (memory S.Store store.new loaded.new) result
        (with_newest_record number bytes.now) }
    ensures writes { WritesChange (memory S.Store store.old loaded.old) (memory S.Store store.new loaded.new) result
        (PutNewest number bytes.now) }
    ensures table { OnOk result
        (loaded.new ≡ with_node_at loaded.old number (with_head_moved (node_at loaded.old number))) }
    ensures kept { OnErr result (loaded.new ≡ loaded.old) }
    ensures files { OnOk result (descriptors_of loaded.new ≡ descriptors_of loaded.old) }
{
    // These calls are laws, and do nothing.
    files_are_found();
    cards_are_known();
    standing_files_hold();
    what_files_hold_stands();
    let node = with_head_moved(node_of(loaded, number));
    let place = node.place + u16::from(node.head) * u16::from(node.length);
    let mut writes = Writes::new();
    newest_pieces(number, &node, place, bytes, &mut writes);
    commit(store, loaded, &writes)?;
    loaded.nodes[usize::from(number)] = node;
    Ok(())
}

/// Commits the life cycle status of an EF (11.1.14, 11.1.15), and then has it in the table. After a fault the table is as it
/// was.
pub fn write_life<S: Store>(
    store: &mut S,
    loaded: &mut Loaded,
    number: u8,
    life: u8,
) -> Result<(), StoreFault>
    requires mounted { IsMounted (memory S.Store store.old loaded.old) }
    requires file { HasEf loaded.old number }
    requires life { (life ≡ deactivated) ⊎ (life ≡ activated) }
    ensures committed { Committed (memory S.Store store.old loaded.old) (memory S.Store store.new loaded.new) result
        (with_life number life) }
    ensures writes { WritesChange (memory S.Store store.old loaded.old) (memory S.Store store.new loaded.new) result
        (PutLife number life) }
    ensures table { OnOk result
        (loaded.new ≡ with_node_at loaded.old number (record (node_at loaded.old number) { life = life })) }
    ensures kept { OnErr result (loaded.new ≡ loaded.old) }
    ensures files { OnOk result (descriptors_of loaded.new ≡ with_life_told number life (descriptors_of loaded.old)) }
{
    // These calls are laws, and do nothing.
    files_are_found();
    cards_are_known();
    files_stand();
    let node = Node {
        life,
        ..node_of(loaded, number)
    };
    let mut writes = Writes::new();
    node_piece(number, &node, 6, 7, &mut writes);
    commit(store, loaded, &writes)?;
    loaded.nodes[usize::from(number)] = node;
    Ok(())
}
