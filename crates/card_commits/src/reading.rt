//! What is read of files.
ghost use Rattle.std.specs.Prelude.{◌≡◌, length, OnOk, IfSome, take, drop, slice_index_or, []};
ghost use Rattle.uicc_types.specs.Counts.{raised};
ghost use Rattle.card_state.specs.Memory.{IsMounted, Reads, held_by, memory};
ghost use Rattle.file_model.specs.Files.{descriptors_of};
ghost use Rattle.file_model.specs.Holdings.{bytes_in, records_in};
ghost use Rattle.card_commits.specs.Entries.{HasBytes, HasRecord, HasLinearRecords};
ghost use Rattle.card_commits.specs.Reading.{StandInARow};

use crate::entries::{node_of, place_of_record};
use card_state::{Loaded, standing_files_hold};
use file_model::files_are_found;
use layout_laws::{cards_are_known, stores_stand, what_files_hold_is_read};
use store_form::{Store, StoreFault};

/// Reads bytes of a transparent file, from an offset on, into the whole of `out` (ETSI TS 102 221, 11.1.3). After a fault
/// `out` holds any bytes.
pub fn read_bytes<S: Store>(
    store: &mut S,
    loaded: &Loaded,
    number: u8,
    offset: u16,
    out: &mut [u8],
) -> Result<(), StoreFault>
    requires mounted { IsMounted (memory S.Store store.old loaded.now) }
    requires file { HasBytes loaded.now number offset (length out.old) }
    ensures read { OnOk result (IfSome (held_by S.Store store.old) (λ state.
        out.new ≡ take (length out.old) (drop offset (bytes_in state number)))) }
    ensures reads { Reads (memory S.Store store.old loaded.now) (memory S.Store store.new loaded.now) result }
    // The store is read once, also where that meets a fault.
    ensures once { S.reads store.new ≡ raised (S.reads store.old) }
{
    // These calls are laws, and do nothing.
    files_are_found();
    cards_are_known();
    stores_stand();
    what_files_hold_is_read();
    let node = node_of(loaded, number);
    store.read(usize::from(node.place) + usize::from(offset), out)
}

/// Reads record `index + 1` of a file with records (11.1.5) into `out`, which has its length. After a fault `out` holds any
/// bytes.
pub fn read_record<S: Store>(
    store: &mut S,
    loaded: &Loaded,
    number: u8,
    index: u8,
    out: &mut [u8],
) -> Result<(), StoreFault>
    requires mounted { IsMounted (memory S.Store store.old loaded.now) }
    requires file { HasRecord loaded.now number index (length out.old) }
    ensures read { OnOk result (IfSome (held_by S.Store store.old) (λ state.
        out.new ≡ slice_index_or (records_in state number) index [])) }
    ensures reads { Reads (memory S.Store store.old loaded.now) (memory S.Store store.new loaded.now) result }
    // The store is read once, also where that meets a fault.
    ensures once { S.reads store.new ≡ raised (S.reads store.old) }
{
    // These calls are laws, and do nothing.
    files_are_found();
    cards_are_known();
    standing_files_hold();
    stores_stand();
    what_files_hold_is_read();
    let node = node_of(loaded, number);
    store.read(place_of_record(&node, index), out)
}

/// Reads records of a linear fixed file, from record `index + 1` on, into the whole of `out`. After a fault `out` holds any bytes.
pub fn read_records<S: Store>(
    store: &mut S,
    loaded: &Loaded,
    number: u8,
    index: u8,
    out: &mut [u8],
) -> Result<(), StoreFault>
    requires mounted { IsMounted (memory S.Store store.old loaded.now) }
    requires file { HasLinearRecords loaded.now number index (length out.old) }
    ensures read { OnOk result (IfSome (held_by S.Store store.old) (λ state.
        StandInARow state (descriptors_of loaded.now) number index out.new)) }
    ensures reads { Reads (memory S.Store store.old loaded.now) (memory S.Store store.new loaded.now) result }
    // The store is read once, also where that meets a fault.
    ensures once { S.reads store.new ≡ raised (S.reads store.old) }
{
    // These calls are laws, and do nothing.
    files_are_found();
    cards_are_known();
    standing_files_hold();
    stores_stand();
    what_files_hold_is_read();
    let node = node_of(loaded, number);
    let at = usize::from(node.place) + usize::from(index) * usize::from(node.length);
    store.read(at, out)
}
