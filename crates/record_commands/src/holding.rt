//! The records of a file.
ghost use Rattle.std.specs.Prelude.{◌≡◌, ◌-◌, [], IfOk, IfSome, OnOk, length, slice_index_or};
ghost use Rattle.card_state.specs.Memory.{IsMounted, Reads, held_by, memory};
ghost use Rattle.file_model.specs.Files.{descriptors_of};
ghost use Rattle.file_model.specs.Holdings.{records_in};
ghost use Rattle.record_commands.specs.Targets.{IsRecordOf};

use card_commits::read_record;
use card_state::Loaded;
use file_model::Descriptor;
use store_form::{Store, StoreFault};
use uicc_types::AnswerData;

/// Reads the record with this number into the whole of `out`. After a fault `out` holds any bytes.
pub fn read_into<S: Store>(
    store: &mut S,
    loaded: &Loaded,
    file: &Descriptor,
    number: u8,
    out: &mut [u8],
) -> Result<(), StoreFault>
    requires mounted { IsMounted (memory S.Store store.old loaded.now) }
    requires target { IsRecordOf (descriptors_of loaded.now) file.now number }
    requires width { length out.old ≡ file.now.width }
    ensures read { OnOk result (IfSome (held_by S.Store store.old) (λ state.
        out.new ≡ slice_index_or (records_in state file.now.number) (number - 1) [])) }
    ensures reads { Reads (memory S.Store store.old loaded.now) (memory S.Store store.new loaded.now) result }
{
    read_record(store, loaded, file.number, number - 1, out)
}

/// The record with this number.
pub fn record_of<S: Store>(
    store: &mut S,
    loaded: &Loaded,
    file: &Descriptor,
    number: u8,
) -> Result<AnswerData, StoreFault>
    requires mounted { IsMounted (memory S.Store store.old loaded.now) }
    requires target { IsRecordOf (descriptors_of loaded.now) file.now number }
    ensures read { IfOk result (λ bytes. IfSome (held_by S.Store store.old) (λ state.
        bytes ≡ slice_index_or (records_in state file.now.number) (number - 1) [])) }
    ensures width { IfOk result (λ bytes. length bytes ≡ file.now.width) }
    ensures reads { Reads (memory S.Store store.old loaded.now) (memory S.Store store.new loaded.now) result }
{
    let mut buffer = [0; 255];
    let record = &mut buffer[..usize::from(file.width)];
    read_into(store, loaded, file, number, record)?;
    Ok(AnswerData::from_slice(record))
}
