//! UPDATE RECORD.
ghost use Rattle.std.specs.Prelude.{◌≡◌, ◌≢◌, [], IfOk, IfErr, IsOk, OnErr, Err, length};
ghost use Rattle.card_state.specs.Memory.{Committed, IsMounted, memory};
ghost use Rattle.file_model.specs.Files.{descriptors_of};
ghost use Rattle.file_model.specs.Selections.{IsSelection};
ghost use Rattle.file_model.specs.Records.{file_to_update, number_to_update, record_update_in, record_updated, short_in_p2};
ghost use Rattle.file_model.specs.Outcomes.{settled_file};
ghost use Rattle.card_commits.specs.Writing.{WritesChange};
ghost use Rattle.card_commits.specs.Performing.{Performs, StaysStill, WritesAll};
ghost use Rattle.file_tree.specs.Tables.{IsCardTable};
ghost use Rattle.binary_commands.specs.Commands.{IsInPlace};
ghost use Rattle.binary_commands.specs.Ends.{EndsTry, EndsWell, GivesTried, Passes, Puts};
ghost use Rattle.binary_commands.specs.Targets.{IsRefused};
ghost use Rattle.record_commands.specs.Tables.{KeepsDescriptors};
ghost use Rattle.record_commands.specs.Targets.{IsRecordOf, IsTarget};
ghost use Rattle.record_commands.specs.Updating.{record_written, put_record, record_puts};

use crate::numbering::number_to_update;
use crate::targets::{
    Demand, PREVIOUS, Structure, has_parameters, is_cyclic, mode_in, record_file, selection_after,
    short_in,
};
use access_rules::{Op, Verified};
use apdu_form::Command;
use binary_commands::{is_allowed, settle};
use card_commits::{tables_tell_states, write_newest_record, write_record};
use card_state::Loaded;
use file_model::{Descriptor, Selection};
use store_form::{Store, StoreFault};
use uicc_types::{Answer, StatusWord};

// The EF that the command works on.
fn file_to_update(
    loaded: &Loaded,
    selection: &Selection,
    command: &Command<'_>,
) -> Result<Descriptor, StatusWord>
    requires table { IsCardTable loaded.now }
    requires selected { IsSelection (descriptors_of loaded.now) selection.now }
    ensures value { result ≡ file_to_update (descriptors_of loaded.now) selection.now command.now }
    ensures target { IfOk result (IsTarget (descriptors_of loaded.now) selection.now (short_in_p2 command.now)) }
    ensures usual { IfErr result (λ status. status.0 ≢ StatusWord.MEMORY_PROBLEM.0) }
{
    let demand = Demand {
        has_parameters: has_parameters(command),
        has_length: command.has_data(),
        structure: Structure::Updated(mode_in(command) == PREVIOUS),
        short: short_in(command),
    };
    record_file(loaded, selection, demand)
}

// Commits a record: the one with this number in a linear fixed file, a new first one in a cyclic file.
fn write_one<S: Store>(
    store: &mut S,
    loaded: &mut Loaded,
    file: &Descriptor,
    number: u8,
    bytes: &[u8],
) -> Result<(), StoreFault>
    requires mounted { IsMounted (memory S.Store store.old loaded.old) }
    requires target { IsRecordOf (descriptors_of loaded.old) file.now number }
    requires width { length bytes.now ≡ file.now.width }
    ensures committed { Committed (memory S.Store store.old loaded.old) (memory S.Store store.new loaded.new) result
        (record_written file.now number bytes.now) }
    ensures writes { WritesChange (memory S.Store store.old loaded.old) (memory S.Store store.new loaded.new) result
        (put_record file.now number bytes.now) }
    ensures kept { OnErr result (loaded.new ≡ loaded.old) }
    ensures files { KeepsDescriptors loaded.old loaded.new }
{
    if is_cyclic(file) {
        write_newest_record(store, loaded, file.number, bytes)
    } else {
        write_record(store, loaded, file.number, number - 1, bytes)
    }
}

// Writes into the EF that the command works on, and has the answer in `out`.
#[tactic(auto, unfolding(file_model::specs::Records::record_update_in, file_model::specs::Records::record_updating, file_model::specs::Chains::refused_if, file_model::specs::Chains::and_given))]
fn update_file<S: Store>(
    store: &mut S,
    loaded: &mut Loaded,
    selection: &Selection,
    seen: &Verified,
    command: &Command<'_>,
    file: &Descriptor,
    out: &mut Answer,
) -> Result<Result<Selection, StatusWord>, StoreFault>
    requires mounted { IsMounted (memory S.Store store.old loaded.old) }
    requires empty { out.old.body ≡ [] }
    requires target { IsTarget (descriptors_of loaded.old) selection.now (short_in_p2 command.now) file.now }
    ensures gives { GivesTried result (memory S.Store store.old loaded.old) (memory S.Store store.new loaded.new)
        out.new (λ state. record_update_in state seen.now selection.now command.now file.now) }
    ensures passes { Passes result (memory S.Store store.old loaded.old) (memory S.Store store.new loaded.new)
        selection.now (λ state. record_update_in state seen.now selection.now command.now file.now) }
    ensures puts { Puts result (memory S.Store store.old loaded.old) (memory S.Store store.new loaded.new)
        (λ state. record_puts file.now command.now.body (number_to_update file.now selection.now command.now)) }
    ensures ends { EndsTry result (memory S.Store store.old loaded.old) (memory S.Store store.new loaded.new)
        out.old out.new }
    ensures files { KeepsDescriptors loaded.old loaded.new }
{
    if !is_allowed(store, loaded, file, Op::UpdateRecord, seen)? {
        return Ok(Err(StatusWord::SECURITY_NOT_SATISFIED));
    }
    match number_to_update(file, selection, command) {
        Ok(number) => {
            write_one(store, loaded, file, number, command.body)?;
            out.status = StatusWord::DONE;
            Ok(Ok(selection_after(selection, file, command, number)))
        }
        Err(status) => Ok(Err(status)),
    }
}

// Writes, and has the answer in `out`, which is empty before.
fn try_update<S: Store>(
    store: &mut S,
    loaded: &mut Loaded,
    selection: &Selection,
    seen: &Verified,
    command: &Command<'_>,
    out: &mut Answer,
) -> Result<Result<Selection, StatusWord>, StoreFault>
    requires place { IsInPlace (memory S.Store store.old loaded.old) selection.now }
    requires empty { out.old.body ≡ [] }
    ensures gives { GivesTried result (memory S.Store store.old loaded.old) (memory S.Store store.new loaded.new)
        out.new (λ state. record_updated state seen.now selection.now command.now) }
    ensures passes { Passes result (memory S.Store store.old loaded.old) (memory S.Store store.new loaded.new)
        selection.now (λ state. record_updated state seen.now selection.now command.now) }
    ensures writes { WritesAll result (memory S.Store store.old loaded.old) (memory S.Store store.new loaded.new)
        (λ state. (settled_file selection.now (record_updated state seen.now selection.now command.now)).changes) }
    ensures refused { (status : StatusWord)
        → file_to_update (descriptors_of loaded.old) selection.now command.now ≡ Err status
        → (result ≡ Ok (Err status)) × (loaded.new ≡ loaded.old) × (store.new ≡ store.old) }
    ensures ends { EndsTry result (memory S.Store store.old loaded.old) (memory S.Store store.new loaded.new)
        out.old out.new }
    ensures files { KeepsDescriptors loaded.old loaded.new }
{
    // This call is a law, and does nothing.
    tables_tell_states();
    match file_to_update(loaded, selection, command) {
        Ok(file) => update_file(store, loaded, selection, seen, command, &file, out),
        Err(status) => Ok(Err(status)),
    }
}

/// UPDATE RECORD (11.1.6): commits a record of a linear fixed EF, or a new first record of a cyclic one. After a fault the
/// answer is empty, and it is written or not; the table is as it was.
pub fn update_record<S: Store>(
    store: &mut S,
    loaded: &mut Loaded,
    selection: &mut Selection,
    seen: &Verified,
    command: &Command<'_>,
    out: &mut Answer,
) -> Result<(), StoreFault>
    requires place { IsInPlace (memory S.Store store.old loaded.old) selection.old }
    ensures performs { Performs result (memory S.Store store.old loaded.old) (memory S.Store store.new loaded.new)
        out.new selection.new
        (λ state. settled_file selection.old (record_updated state seen.now selection.old command.now)) }
    ensures still { StaysStill (memory S.Store store.old loaded.old) (memory S.Store store.new loaded.new)
        (λ state. (settled_file selection.old (record_updated state seen.now selection.old command.now)).passed) }
    ensures writes { WritesAll result (memory S.Store store.old loaded.old) (memory S.Store store.new loaded.new)
        (λ state. (settled_file selection.old (record_updated state seen.now selection.old command.now)).changes) }
    ensures ends { EndsWell result (memory S.Store store.old loaded.old) (memory S.Store store.new loaded.new)
        out.new selection.new }
    ensures files { KeepsDescriptors loaded.old loaded.new }
    ensures refused { (status : StatusWord)
        → file_to_update (descriptors_of loaded.old) selection.old command.now ≡ Err status
        → IsOk result × IsRefused status out.new selection.old selection.new × (loaded.new ≡ loaded.old)
        × (store.new ≡ store.old) }
{
    out.body.clear();
    let tried = try_update(store, loaded, selection, seen, command, out)?;
    settle(tried, selection, out);
    Ok(())
}
