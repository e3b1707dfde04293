//! READ RECORD.
ghost use Rattle.std.specs.Prelude.{◌≡◌, ◌≢◌, IfOk, IfErr, IsOk, Err};
ghost use Rattle.card_state.specs.Memory.{IsMounted, Reads, memory};
ghost use Rattle.file_model.specs.Files.{descriptors_of};
ghost use Rattle.file_model.specs.Selections.{IsSelection};
ghost use Rattle.file_model.specs.Records.{file_to_read, record_read, record_read_from, short_in_p2};
ghost use Rattle.file_model.specs.Outcomes.{settled_file};
ghost use Rattle.card_commits.specs.Performing.{Performs};
ghost use Rattle.file_tree.specs.Tables.{IsCardTable};
ghost use Rattle.binary_commands.specs.Commands.{IsInPlace};
ghost use Rattle.binary_commands.specs.Ends.{EndsTry, EndsWell, GivesTried};
ghost use Rattle.binary_commands.specs.Targets.{IsRefused};
ghost use Rattle.record_commands.specs.Targets.{IsTarget};

use crate::holding::record_of;
use crate::numbering::number_to_read;
use crate::targets::{Demand, Structure, has_parameters, record_file, selection_after, short_in};
use access_rules::{Op, Verified};
use apdu_form::Command;
use binary_commands::{is_allowed, settle};
use card_commits::tables_tell_states;
use card_state::Loaded;
use file_model::{Descriptor, Selection};
use store_form::{Store, StoreFault};
use uicc_types::{Answer, StatusWord};

// The EF that the command works on.
fn file_to_read(
    loaded: &Loaded,
    selection: &Selection,
    command: &Command<'_>,
) -> Result<Descriptor, StatusWord>
    requires table { IsCardTable loaded.now }
    requires selected { IsSelection (descriptors_of loaded.now) selection.now }
    ensures value { result ≡ file_to_read (descriptors_of loaded.now) selection.now command.now }
    ensures target { IfOk result (IsTarget (descriptors_of loaded.now) selection.now (short_in_p2 command.now)) }
    ensures usual { IfErr result (λ status. status.0 ≢ StatusWord.MEMORY_PROBLEM.0) }
{
    let demand = Demand {
        has_parameters: has_parameters(command),
        has_length: command.has_le_alone(),
        structure: Structure::Records,
        short: short_in(command),
    };
    record_file(loaded, selection, demand)
}

// Reads from the EF that the command works on, and has the answer in `out`.
#[tactic(auto, unfolding(file_model::specs::Records::record_read_from, file_model::specs::Records::record_reading, file_model::specs::Chains::refused_if, file_model::specs::Chains::and_given))]
fn read_file<S: Store>(
    store: &mut S,
    loaded: &Loaded,
    selection: &Selection,
    seen: &Verified,
    command: &Command<'_>,
    file: &Descriptor,
    out: &mut Answer,
) -> Result<Result<Selection, StatusWord>, StoreFault>
    requires mounted { IsMounted (memory S.Store store.old loaded.now) }
    requires target { IsTarget (descriptors_of loaded.now) selection.now (short_in_p2 command.now) file.now }
    ensures gives { GivesTried result (memory S.Store store.old loaded.now) (memory S.Store store.new loaded.now)
        out.new (λ state. record_read_from state seen.now selection.now command.now file.now) }
    ensures ends { EndsTry result (memory S.Store store.old loaded.now) (memory S.Store store.new loaded.now)
        out.old out.new }
    ensures reads { Reads (memory S.Store store.old loaded.now) (memory S.Store store.new loaded.now) result }
{
    if !is_allowed(store, loaded, file, Op::ReadRecord, seen)? {
        return Ok(Err(StatusWord::SECURITY_NOT_SATISFIED));
    }
    match number_to_read(file, selection, command) {
        Ok(number) => {
            out.body = record_of(store, loaded, file, number)?;
            out.status = StatusWord::DONE;
            Ok(Ok(selection_after(selection, file, command, number)))
        }
        Err(status) => Ok(Err(status)),
    }
}

// Reads, and has the answer in `out`, which is empty before.
fn try_read<S: Store>(
    store: &mut S,
    loaded: &Loaded,
    selection: &Selection,
    seen: &Verified,
    command: &Command<'_>,
    out: &mut Answer,
) -> Result<Result<Selection, StatusWord>, StoreFault>
    requires place { IsInPlace (memory S.Store store.old loaded.now) selection.now }
    ensures gives { GivesTried result (memory S.Store store.old loaded.now) (memory S.Store store.new loaded.now)
        out.new (λ state. record_read state seen.now selection.now command.now) }
    ensures refused { (status : StatusWord)
        → file_to_read (descriptors_of loaded.now) selection.now command.now ≡ Err status
        → (result ≡ Ok (Err status)) × (store.new ≡ store.old) }
    ensures ends { EndsTry result (memory S.Store store.old loaded.now) (memory S.Store store.new loaded.now)
        out.old out.new }
    ensures reads { Reads (memory S.Store store.old loaded.now) (memory S.Store store.new loaded.now) result }
{
    // This call is a law, and does nothing.
    tables_tell_states();
    match file_to_read(loaded, selection, command) {
        Ok(file) => read_file(store, loaded, selection, seen, command, &file, out),
        Err(status) => Ok(Err(status)),
    }
}

/// READ RECORD (11.1.5): answers a record of an EF. After a fault the answer is empty.
pub fn read_record<S: Store>(
    store: &mut S,
    loaded: &mut Loaded,
    selection: &mut Selection,
    seen: &Verified,
    command: &Command<'_>,
    out: &mut Answer,
) -> Result<(), StoreFault>
    requires place { IsInPlace (memory S.Store store.old loaded.old) selection.old }
    ensures performs { Performs result (memory S.Store store.old loaded.old) (memory S.Store store.new loaded.new)
        out.new selection.new
        (λ state. settled_file selection.old (record_read state seen.now selection.old command.now)) }
    ensures ends { EndsWell result (memory S.Store store.old loaded.old) (memory S.Store store.new loaded.new)
        out.new selection.new }
    ensures table { loaded.new ≡ loaded.old }
    ensures reads { Reads (memory S.Store store.old loaded.old) (memory S.Store store.new loaded.new) result }
    ensures refused { (status : StatusWord)
        → file_to_read (descriptors_of loaded.old) selection.old command.now ≡ Err status
        → IsOk result × IsRefused status out.new selection.old selection.new × (store.new ≡ store.old) }
{
    out.body.clear();
    let tried = try_read(store, loaded, selection, seen, command, out)?;
    settle(tried, selection, out);
    Ok(())
}
