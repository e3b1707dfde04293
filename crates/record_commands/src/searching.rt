//! SEARCH RECORD.
ghost use Rattle.std.specs.Prelude.{◌≡◌, ◌≢◌, ◌≤◌, ◌<◌, ◌+◌, ◌==◌, All, if◌then◌else◌, IsTrue, IfOk, IfErr, IfSome, IsOk, Some, Err, length};
ghost use Rattle.card_state.specs.Kinds.{has_records};
ghost use Rattle.card_state.specs.Memory.{IsMounted, Reads, held_by, memory};
ghost use Rattle.file_model.specs.Files.{descriptors_of};
ghost use Rattle.file_model.specs.Selections.{IsSelection};
ghost use Rattle.file_model.specs.Records.{file_to_search, has_search_parameters, match_pointer, number_to_search, numbers_matched, search_in, searched, short_in_p2};
ghost use Rattle.file_model.specs.Outcomes.{pointer_before, settled_file, worked_on};
ghost use Rattle.card_commits.specs.Performing.{Performs};
ghost use Rattle.file_tree.specs.Tables.{IsCardTable, IsNumbered};
ghost use Rattle.binary_commands.specs.Commands.{IsInPlace};
ghost use Rattle.binary_commands.specs.Ends.{EndsTry, EndsWell, GivesTried};
ghost use Rattle.binary_commands.specs.Targets.{IsRefused};
ghost use Rattle.record_commands.specs.Targets.{IsPointer, IsTarget};
ghost use Rattle.record_commands.specs.Searching.{left_from, IsRecord};

use crate::matching::matches_of;
use crate::numbering::absolute_record;
use crate::targets::{Demand, Structure, mode_in, pointer_before, record_file, short_in};
use access_rules::{Op, Verified};
use apdu_form::Command;
use binary_commands::{is_allowed, settle, worked_on};
use card_commits::tables_tell_states;
use card_state::Loaded;
use file_model::{Descriptor, Selection};
use store_form::{Store, StoreFault};
use uicc_types::{Answer, AnswerData, StatusWord};

const FORWARD: u8 = 4;

const BACKWARD: u8 = 5;

fn has_parameters(command: &Command<'_>) -> bool
    ensures { result ≡ has_search_parameters command.now }
{
    let mode = mode_in(command);
    command.p2 / 8 != 31 && (mode == FORWARD || mode == BACKWARD)
}

// The EF that the command works on.
fn file_to_search(
    loaded: &Loaded,
    selection: &Selection,
    command: &Command<'_>,
) -> Result<Descriptor, StatusWord>
    requires table { IsCardTable loaded.now }
    requires selected { IsSelection (descriptors_of loaded.now) selection.now }
    ensures value { result ≡ file_to_search (descriptors_of loaded.now) selection.now command.now }
    ensures target { IfOk result (IsTarget (descriptors_of loaded.now) selection.now (short_in_p2 command.now)) }
    ensures usual { IfErr result (λ status. status.0 ≢ StatusWord.MEMORY_PROBLEM.0) }
{
    let demand = Demand {
        has_parameters: has_parameters(command),
        has_length: command.has_data(),
        structure: Structure::Records,
        short: short_in(command),
    };
    record_file(loaded, selection, demand)
}

// The record that the search begins at. Refused are, in this order, where there is none and more bytes than a record has.
#[tactic(auto, unfolding(file_model::specs::Records::number_to_search, file_model::specs::Chains::given, file_model::specs::Chains::refused_if))]
fn number_to_search(
    file: &Descriptor,
    selection: &Selection,
    command: &Command<'_>,
) -> Result<u8, StatusWord>
    requires pointer { IsPointer file.now (pointer_before selection.now (short_in_p2 command.now)) }
    ensures value { result ≡ number_to_search file.now selection.now command.now }
    ensures within { IfOk result (IsRecord file.now) }
    ensures usual { IfErr result (λ status. status.0 ≢ StatusWord.MEMORY_PROBLEM.0) }
{
    let pointer = pointer_before(selection, short_in(command));
    match absolute_record(file, command.p1, pointer) {
        Some(_) if usize::from(file.width) < command.body.len() => Err(StatusWord::WRONG_LENGTH),
        Some(from) => Ok(from),
        None => Err(StatusWord::RECORD_NOT_FOUND),
    }
}

// How many records a search from this one on has before it.
fn left_from(file: &Descriptor, is_forward: bool, from: u8) -> u8
    requires { IsRecord file.now from }
    ensures value { result ≡ left_from is_forward file.now.count from }
    ensures few { result ≤ file.now.count }
{
    if is_forward {
        file.count - from + 1
    } else {
        from
    }
}

// The numbers of the records that match, from this one on.
fn numbers_from<S: Store>(
    store: &mut S,
    loaded: &Loaded,
    file: &Descriptor,
    command: &Command<'_>,
    from: u8,
) -> Result<AnswerData, StoreFault>
    requires mounted { IsMounted (memory S.Store store.old loaded.now) }
    requires numbered { IsNumbered (descriptors_of loaded.now) file.now }
    requires kind { IsTrue (has_records file.now.kind) }
    requires from { IsRecord file.now from }
    ensures found { IfOk result (λ found. IfSome (held_by S.Store store.old) (λ state.
        found ≡ numbers_matched state file.now command.now from)) }
    ensures among { IfOk result (All (IsRecord file.now)) }
    ensures reads { Reads (memory S.Store store.old loaded.now) (memory S.Store store.new loaded.now) result }
{
    let is_forward = mode_in(command) == FORWARD;
    let count = left_from(file, is_forward, from);
    matches_of(store, loaded, file, command.body, is_forward, count)
}

// What is selected after a search: the first record that matches is the current one; where none does, the pointer stays.
fn selection_after(
    selection: &Selection,
    file: &Descriptor,
    command: &Command<'_>,
    found: &AnswerData,
) -> Selection
    requires pointer { IsPointer file.now (pointer_before selection.now (short_in_p2 command.now)) }
    requires among { All (IsRecord file.now) found.now }
    ensures value { result
        ≡ worked_on selection.now file.now
        (match_pointer (pointer_before selection.now (short_in_p2 command.now)) found.now) }
    ensures within { IsPointer file.now
        (match_pointer (pointer_before selection.now (short_in_p2 command.now)) found.now) }
{
    match found.as_slice().first() {
        Some(number) => worked_on(selection, file, Some(*number)),
        None => worked_on(
            selection,
            file,
            pointer_before(selection, short_in(command)),
        ),
    }
}

// Nothing found is a warning.
fn status_of(found: &AnswerData) -> StatusWord
    ensures value { result ≡ (if length found.now == 0 then StatusWord.END_OF_FILE else StatusWord.DONE) }
    ensures usual { result.0 ≢ StatusWord.MEMORY_PROBLEM.0 }
{
    if found.as_slice().is_empty() {
        StatusWord::END_OF_FILE
    } else {
        StatusWord::DONE
    }
}

// Searches in the EF that the command works on, and has the answer in `out`.
#[tactic(auto, unfolding(file_model::specs::Records::search_in, file_model::specs::Records::searching, file_model::specs::Chains::refused_if, file_model::specs::Chains::and_given))]
fn search_file<S: Store>(
    store: &mut S,
    loaded: &Loaded,
    selection: &Selection,
    seen: &Verified,
    command: &Command<'_>,
    file: &Descriptor,
    out: &mut Answer,
) -> Result<Result<Selection, StatusWord>, StoreFault>
    requires mounted { IsMounted (memory S.Store store.old loaded.now) }
    requires target { IsTarget (descriptors_of loaded.now) selection.now (short_in_p2 command.now) file.now }
    ensures gives { GivesTried result (memory S.Store store.old loaded.now) (memory S.Store store.new loaded.now)
        out.new (λ state. search_in state seen.now selection.now command.now file.now) }
    ensures ends { EndsTry result (memory S.Store store.old loaded.now) (memory S.Store store.new loaded.now)
        out.old out.new }
    ensures reads { Reads (memory S.Store store.old loaded.now) (memory S.Store store.new loaded.now) result }
{
    if !is_allowed(store, loaded, file, Op::Search, seen)? {
        return Ok(Err(StatusWord::SECURITY_NOT_SATISFIED));
    }
    match number_to_search(file, selection, command) {
        Ok(from) => {
            let found = numbers_from(store, loaded, file, command, from)?;
            let next = selection_after(selection, file, command, &found);
            out.status = status_of(&found);
            out.body = found;
            Ok(Ok(next))
        }
        Err(status) => Ok(Err(status)),
    }
}

// Searches, and has the answer in `out`, which is empty before.
fn try_search<S: Store>(
    store: &mut S,
    loaded: &Loaded,
    selection: &Selection,
    seen: &Verified,
    command: &Command<'_>,
    out: &mut Answer,
) -> Result<Result<Selection, StatusWord>, StoreFault>
    requires place { IsInPlace (memory S.Store store.old loaded.now) selection.now }
    ensures gives { GivesTried result (memory S.Store store.old loaded.now) (memory S.Store store.new loaded.now)
        out.new (λ state. searched state seen.now selection.now command.now) }
    ensures refused { (status : StatusWord)
        → file_to_search (descriptors_of loaded.now) selection.now command.now ≡ Err status
        → (result ≡ Ok (Err status)) × (store.new ≡ store.old) }
    ensures ends { EndsTry result (memory S.Store store.old loaded.now) (memory S.Store store.new loaded.now)
        out.old out.new }
    ensures reads { Reads (memory S.Store store.old loaded.now) (memory S.Store store.new loaded.now) result }
{
    // This call is a law, and does nothing.
    tables_tell_states();
    match file_to_search(loaded, selection, command) {
        Ok(file) => search_file(store, loaded, selection, seen, command, &file, out),
        Err(status) => Ok(Err(status)),
    }
}

/// SEARCH RECORD (11.1.7): answers the numbers of the records in which the data stand, from one record on. The first of them
/// becomes the current one. After a fault the answer is empty.
pub fn search_record<S: Store>(
    store: &mut S,
    loaded: &mut Loaded,
    selection: &mut Selection,
    seen: &Verified,
    command: &Command<'_>,
    out: &mut Answer,
) -> Result<(), StoreFault>
    requires place { IsInPlace (memory S.Store store.old loaded.old) selection.old }
    ensures performs { Performs result (memory S.Store store.old loaded.old) (memory S.Store store.new loaded.new)
        out.new selection.new
        (λ state. settled_file selection.old (searched state seen.now selection.old command.now)) }
    ensures ends { EndsWell result (memory S.Store store.old loaded.old) (memory S.Store store.new loaded.new)
        out.new selection.new }
    ensures table { loaded.new ≡ loaded.old }
    ensures reads { Reads (memory S.Store store.old loaded.old) (memory S.Store store.new loaded.new) result }
    ensures refused { (status : StatusWord)
        → file_to_search (descriptors_of loaded.old) selection.old command.now ≡ Err status
        → IsOk result × IsRefused status out.new selection.old selection.new × (store.new ≡ store.old) }
{
    out.body.clear();
    let tried = try_search(store, loaded, selection, seen, command, out)?;
    settle(tried, selection, out);
    Ok(())
}
