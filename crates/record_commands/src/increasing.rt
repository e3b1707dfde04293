//! INCREASE.
ghost use Rattle.std.specs.Prelude.{◌≡◌, ◌≢◌, ◌≤◌, [], true, IfOk, IfErr, IfSome, IsOk, OnErr, Err, length};
ghost use Rattle.card_state.specs.Changes.{PutNewest};
ghost use Rattle.card_state.specs.Changing.{with_newest_record};
ghost use Rattle.card_state.specs.Memory.{Committed, IsMounted, Reads, held_by, memory};
ghost use Rattle.file_model.specs.Files.{descriptors_of};
ghost use Rattle.file_model.specs.Selections.{IsSelection};
ghost use Rattle.file_model.specs.Records.{has_increase_parameters, has_increase_length, short_to_increase, may_be_increased, file_to_increase, sum_to_write, increase_in, increased};
ghost use Rattle.file_model.specs.Outcomes.{settled_file};
ghost use Rattle.card_commits.specs.Writing.{WritesChange};
ghost use Rattle.card_commits.specs.Performing.{Performs, StaysStill, WritesAll};
ghost use Rattle.file_tree.specs.Tables.{IsCardTable};
ghost use Rattle.binary_commands.specs.Commands.{IsInPlace};
ghost use Rattle.binary_commands.specs.Ends.{EndsTry, EndsWell, GivesTried, Passes, Puts};
ghost use Rattle.binary_commands.specs.Targets.{IsRefused};
ghost use Rattle.record_commands.specs.Tables.{KeepsDescriptors};
ghost use Rattle.record_commands.specs.Targets.{IsRing, IsTarget};
ghost use Rattle.record_commands.specs.Updating.{sum_puts};

use crate::adding::sum_of;
use crate::holding::record_of;
use crate::targets::{Demand, LONGEST_INCREASED, Structure, record_file};
use access_rules::{Op, Verified};
use apdu_form::Command;
use binary_commands::{append, is_allowed, settle, worked_on};
use card_commits::{tables_tell_states, write_newest_record};
use card_state::Loaded;
use file_model::{Descriptor, Selection};
use store_form::{Store, StoreFault};
use uicc_types::{Answer, AnswerData, StatusWord};

// P1 is 0, or has b8 set and a short file identifier after it.
fn has_parameters(command: &Command<'_>) -> bool
    ensures { result ≡ has_increase_parameters command.now }
{
    (command.p1 == 0 || command.p1 >= 0x81 && command.p1 <= 0x9E) && command.p2 == 0
}

fn has_length(command: &Command<'_>) -> bool
    ensures { result ≡ has_increase_length command.now }
{
    !command.body.is_empty() && command.body.len() <= usize::from(LONGEST_INCREASED)
}

// The short file identifier in P1, if there is one.
fn short_in(command: &Command<'_>) -> Option<u8>
    ensures { result ≡ short_to_increase command.now }
{
    if command.p1 == 0 {
        None
    } else {
        Some(command.p1.saturating_sub(0x80))
    }
}

// The EF that the command works on.
fn file_to_increase(
    loaded: &Loaded,
    selection: &Selection,
    command: &Command<'_>,
) -> Result<Descriptor, StatusWord>
    requires table { IsCardTable loaded.now }
    requires selected { IsSelection (descriptors_of loaded.now) selection.now }
    ensures value { result ≡ file_to_increase (descriptors_of loaded.now) selection.now command.now }
    ensures target { IfOk result (IsTarget (descriptors_of loaded.now) selection.now (short_to_increase command.now)) }
    ensures fits { IfOk result (λ file. may_be_increased file ≡ true) }
    ensures usual { IfErr result (λ status. status.0 ≢ StatusWord.MEMORY_PROBLEM.0) }
{
    let demand = Demand {
        has_parameters: has_parameters(command),
        has_length: has_length(command),
        structure: Structure::Increased,
        short: short_in(command),
    };
    record_file(loaded, selection, demand)
}

// The sum of the first record and the data. Refused are, in this order, data longer than a record and a sum that doesn't fit.
#[tactic(auto, unfolding(file_model::specs::Records::sum_to_write, file_model::specs::Chains::refused_if))]
fn sum_to_write<S: Store>(
    store: &mut S,
    loaded: &Loaded,
    file: &Descriptor,
    command: &Command<'_>,
) -> Result<Result<AnswerData, StatusWord>, StoreFault>
    requires mounted { IsMounted (memory S.Store store.old loaded.now) }
    requires ring { IsRing (descriptors_of loaded.now) file.now }
    requires some { 1 ≤ file.now.count }
    ensures value { IfOk result (λ sum. IfSome (held_by S.Store store.old) (λ state.
        sum ≡ sum_to_write state command.now file.now)) }
    ensures width { IfOk result (λ sum. IfOk sum (λ bytes. length bytes ≡ file.now.width)) }
    ensures fits { IfOk result (λ sum. IfOk sum (λ bytes. length command.now.body ≤ file.now.width)) }
    ensures usual { IfOk result (λ sum. IfErr sum (λ status. status.0 ≢ StatusWord.MEMORY_PROBLEM.0)) }
    ensures reads { Reads (memory S.Store store.old loaded.now) (memory S.Store store.new loaded.now) result }
{
    if usize::from(file.width) < command.body.len() {
        return Ok(Err(StatusWord::WRONG_LENGTH));
    }
    let first = record_of(store, loaded, file, 1)?;
    match sum_of(first.as_slice(), command.body) {
        Some(sum) => Ok(Ok(sum)),
        None => Ok(Err(StatusWord::OVERFLOW)),
    }
}

// Commits a new first record of a cyclic file.
fn write_first<S: Store>(
    store: &mut S,
    loaded: &mut Loaded,
    file: &Descriptor,
    bytes: &[u8],
) -> Result<(), StoreFault>
    requires mounted { IsMounted (memory S.Store store.old loaded.old) }
    requires ring { IsRing (descriptors_of loaded.old) file.now }
    requires width { length bytes.now ≡ file.now.width }
    ensures committed { Committed (memory S.Store store.old loaded.old) (memory S.Store store.new loaded.new) result
        (with_newest_record file.now.number bytes.now) }
    ensures writes { WritesChange (memory S.Store store.old loaded.old) (memory S.Store store.new loaded.new) result
        (PutNewest file.now.number bytes.now) }
    ensures kept { OnErr result (loaded.new ≡ loaded.old) }
    ensures files { KeepsDescriptors loaded.old loaded.new }
{
    write_newest_record(store, loaded, file.number, bytes)
}

// Increases the EF that the command works on, and has the answer in `out`.
#[tactic(auto, unfolding(file_model::specs::Records::increase_in, file_model::specs::Records::increasing, file_model::specs::Chains::refused_if, file_model::specs::Chains::and_given))]
fn increase_file<S: Store>(
    store: &mut S,
    loaded: &mut Loaded,
    selection: &Selection,
    seen: &Verified,
    command: &Command<'_>,
    file: &Descriptor,
    out: &mut Answer,
) -> Result<Result<Selection, StatusWord>, StoreFault>
    requires mounted { IsMounted (memory S.Store store.old loaded.old) }
    requires empty { out.old.body ≡ [] }
    requires target { IsTarget (descriptors_of loaded.old) selection.now (short_to_increase command.now) file.now }
    requires fits { may_be_increased file.now ≡ true }
    ensures gives { GivesTried result (memory S.Store store.old loaded.old) (memory S.Store store.new loaded.new)
        out.new (λ state. increase_in state seen.now selection.now command.now file.now) }
    ensures passes { Passes result (memory S.Store store.old loaded.old) (memory S.Store store.new loaded.new)
        selection.now (λ state. increase_in state seen.now selection.now command.now file.now) }
    ensures puts { Puts result (memory S.Store store.old loaded.old) (memory S.Store store.new loaded.new)
        (λ state. sum_puts file.now (sum_to_write state command.now file.now)) }
    ensures ends { EndsTry result (memory S.Store store.old loaded.old) (memory S.Store store.new loaded.new)
        out.old out.new }
    ensures files { KeepsDescriptors loaded.old loaded.new }
{
    if !is_allowed(store, loaded, file, Op::Increase, seen)? {
        return Ok(Err(StatusWord::SECURITY_NOT_SATISFIED));
    }
    match sum_to_write(store, loaded, file, command)? {
        Ok(sum) => {
            write_first(store, loaded, file, sum.as_slice())?;
            out.status = StatusWord::DONE;
            out.body = sum;
            append(&mut out.body, command.body);
            Ok(Ok(worked_on(selection, file, Some(1))))
        }
        Err(status) => Ok(Err(status)),
    }
}

// Increases, and has the answer in `out`, which is empty before.
fn try_increase<S: Store>(
    store: &mut S,
    loaded: &mut Loaded,
    selection: &Selection,
    seen: &Verified,
    command: &Command<'_>,
    out: &mut Answer,
) -> Result<Result<Selection, StatusWord>, StoreFault>
    requires place { IsInPlace (memory S.Store store.old loaded.old) selection.now }
    requires empty { out.old.body ≡ [] }
    ensures gives { GivesTried result (memory S.Store store.old loaded.old) (memory S.Store store.new loaded.new)
        out.new (λ state. increased state seen.now selection.now command.now) }
    ensures passes { Passes result (memory S.Store store.old loaded.old) (memory S.Store store.new loaded.new)
        selection.now (λ state. increased state seen.now selection.now command.now) }
    ensures writes { WritesAll result (memory S.Store store.old loaded.old) (memory S.Store store.new loaded.new)
        (λ state. (settled_file selection.now (increased state seen.now selection.now command.now)).changes) }
    ensures refused { (status : StatusWord)
        → file_to_increase (descriptors_of loaded.old) selection.now command.now ≡ Err status
        → (result ≡ Ok (Err status)) × (loaded.new ≡ loaded.old) × (store.new ≡ store.old) }
    ensures ends { EndsTry result (memory S.Store store.old loaded.old) (memory S.Store store.new loaded.new)
        out.old out.new }
    ensures files { KeepsDescriptors loaded.old loaded.new }
{
    // This call is a law, and does nothing.
    tables_tell_states();
    match file_to_increase(loaded, selection, command) {
        Ok(file) => increase_file(store, loaded, selection, seen, command, &file, out),
        Err(status) => Ok(Err(status)),
    }
}

/// INCREASE (11.1.8): commits the sum of the first record of a cyclic EF and the data, both as numbers, as its new first
/// record, and answers the sum and then the data. After a fault the answer is empty, and the sum is committed or not; the table
/// is as it was.
pub fn increase<S: Store>(
    store: &mut S,
    loaded: &mut Loaded,
    selection: &mut Selection,
    seen: &Verified,
    command: &Command<'_>,
    out: &mut Answer,
) -> Result<(), StoreFault>
    requires place { IsInPlace (memory S.Store store.old loaded.old) selection.old }
    ensures performs { Performs result (memory S.Store store.old loaded.old) (memory S.Store store.new loaded.new)
        out.new selection.new
        (λ state. settled_file selection.old (increased state seen.now selection.old command.now)) }
    ensures still { StaysStill (memory S.Store store.old loaded.old) (memory S.Store store.new loaded.new)
        (λ state. (settled_file selection.old (increased state seen.now selection.old command.now)).passed) }
    ensures writes { WritesAll result (memory S.Store store.old loaded.old) (memory S.Store store.new loaded.new)
        (λ state. (settled_file selection.old (increased state seen.now selection.old command.now)).changes) }
    ensures ends { EndsWell result (memory S.Store store.old loaded.old) (memory S.Store store.new loaded.new)
        out.new selection.new }
    ensures files { KeepsDescriptors loaded.old loaded.new }
    ensures refused { (status : StatusWord)
        → file_to_increase (descriptors_of loaded.old) selection.old command.now ≡ Err status
        → IsOk result × IsRefused status out.new selection.old selection.new × (loaded.new ≡ loaded.old)
        × (store.new ≡ store.old) }
{
    out.body.clear();
    let tried = try_increase(store, loaded, selection, seen, command, out)?;
    settle(tried, selection, out);
    Ok(())
}
