//! DEACTIVATE FILE and ACTIVATE FILE.
ghost use Rattle.std.specs.Prelude.{◌≡◌, ◌≢◌, ◌⊎◌, [], IfOk, IfErr, IsOk};
ghost use Rattle.card_state.specs.Kinds.{activated, deactivated};
ghost use Rattle.card_state.specs.Memory.{memory};
ghost use Rattle.file_model.specs.Files.{descriptors_of};
ghost use Rattle.file_model.specs.Selections.{IsSelection};
ghost use Rattle.file_model.specs.Outcomes.{settled_file};
ghost use Rattle.file_model.specs.LifeCycles.{life_file, life_in, life_changed, file_deactivated, file_activated};
ghost use Rattle.card_commits.specs.Performing.{Performs, StaysStill, WritesAll};
ghost use Rattle.card_commits.specs.Entries.{HasEf};
ghost use Rattle.file_tree.specs.Tables.{IsCardTable};
ghost use Rattle.binary_commands.specs.Commands.{IsInPlace};
ghost use Rattle.binary_commands.specs.Ends.{EndsTry, EndsWell, GivesTried, Passes, Puts};
ghost use Rattle.binary_commands.specs.Targets.{IsRefused};
ghost use Rattle.record_commands.specs.Tables.{KeepsOtherFiles};
ghost use Rattle.record_commands.specs.Updating.{life_puts};

use access_rules::{Op, Verified};
use apdu_form::Command;
use binary_commands::{addressed, is_allowed, settle};
use card_commits::{tables_tell_states, write_life};
use card_state::Loaded;
use card_state::kinds::{ACTIVATED, DEACTIVATED};
use file_model::{Descriptor, Selection};
use store_form::{Store, StoreFault};
use uicc_types::{Answer, StatusWord};

/// A change of the life cycle, with the operation that has to be allowed for it.
#[derive(Clone, Copy)]
struct Change {
    op: Op,
    life: u8,
}

// The current EF. Refused are, in this order, P1 and P2 that aren't 0, data, and where there is no current EF.
#[tactic(auto, unfolding(file_model::specs::LifeCycles::life_file, file_model::specs::Chains::refused_if))]
fn life_file(
    loaded: &Loaded,
    selection: &Selection,
    command: &Command<'_>,
) -> Result<Descriptor, StatusWord>
    requires table { IsCardTable loaded.now }
    requires selected { IsSelection (descriptors_of loaded.now) selection.now }
    ensures value { result ≡ life_file (descriptors_of loaded.now) selection.now command.now }
    ensures ef { IfOk result (λ file. HasEf loaded.now file.number) }
    ensures usual { IfErr result (λ status. status.0 ≢ StatusWord.MEMORY_PROBLEM.0) }
{
    if !command.has_no_parameters() {
        return Err(StatusWord::WRONG_PARAMETERS);
    }
    if !command.has_no_data() {
        return Err(StatusWord::WRONG_LENGTH);
    }
    addressed(loaded, selection, None)
}

// Commits the life cycle status if that is allowed and the file has another one, and has the answer in `out`.
#[tactic(auto, unfolding(file_model::specs::LifeCycles::life_in, file_model::specs::LifeCycles::bringing, file_model::specs::Chains::refused_if))]
fn change_file<S: Store>(
    store: &mut S,
    loaded: &mut Loaded,
    selection: &Selection,
    seen: &Verified,
    change: Change,
    file: &Descriptor,
    out: &mut Answer,
) -> Result<Result<Selection, StatusWord>, StoreFault>
    requires place { IsInPlace (memory S.Store store.old loaded.old) selection.now }
    requires empty { out.old.body ≡ [] }
    requires file { HasEf loaded.old file.now.number }
    requires life { (change.life ≡ deactivated) ⊎ (change.life ≡ activated) }
    ensures gives { GivesTried result (memory S.Store store.old loaded.old) (memory S.Store store.new loaded.new)
        out.new (λ state. life_in change.op change.life state seen.now selection.now file.now) }
    ensures passes { Passes result (memory S.Store store.old loaded.old) (memory S.Store store.new loaded.new)
        selection.now (λ state. life_in change.op change.life state seen.now selection.now file.now) }
    ensures puts { Puts result (memory S.Store store.old loaded.old) (memory S.Store store.new loaded.new)
        (λ state. life_puts file.now change.life) }
    ensures ends { EndsTry result (memory S.Store store.old loaded.old) (memory S.Store store.new loaded.new)
        out.old out.new }
    ensures files { KeepsOtherFiles loaded.old loaded.new }
{
    if !is_allowed(store, loaded, file, change.op, seen)? {
        return Ok(Err(StatusWord::SECURITY_NOT_SATISFIED));
    }
    if file.life == change.life {
        out.status = StatusWord::DONE;
        return Ok(Ok(*selection));
    }
    write_life(store, loaded, file.number, change.life)?;
    out.status = StatusWord::DONE;
    Ok(Ok(*selection))
}

// Changes the life cycle, and has the answer in `out`, which is empty before.
fn try_change<S: Store>(
    store: &mut S,
    loaded: &mut Loaded,
    selection: &Selection,
    seen: &Verified,
    change: Change,
    command: &Command<'_>,
    out: &mut Answer,
) -> Result<Result<Selection, StatusWord>, StoreFault>
    requires place { IsInPlace (memory S.Store store.old loaded.old) selection.now }
    requires empty { out.old.body ≡ [] }
    requires life { (change.life ≡ deactivated) ⊎ (change.life ≡ activated) }
    ensures gives { GivesTried result (memory S.Store store.old loaded.old) (memory S.Store store.new loaded.new)
        out.new (λ state. life_changed change.op change.life state seen.now selection.now command.now) }
    ensures passes { Passes result (memory S.Store store.old loaded.old) (memory S.Store store.new loaded.new)
        selection.now (λ state. life_changed change.op change.life state seen.now selection.now command.now) }
    ensures writes { WritesAll result (memory S.Store store.old loaded.old) (memory S.Store store.new loaded.new)
        (λ state. (settled_file selection.now (life_changed change.op change.life state seen.now selection.now command.now)).changes) }
    ensures refused { (status : StatusWord)
        → life_file (descriptors_of loaded.old) selection.now command.now ≡ Err status
        → (result ≡ Ok (Err status)) × (loaded.new ≡ loaded.old) × (store.new ≡ store.old) }
    ensures ends { EndsTry result (memory S.Store store.old loaded.old) (memory S.Store store.new loaded.new)
        out.old out.new }
    ensures files { KeepsOtherFiles loaded.old loaded.new }
{
    // This call is a law, and does nothing.
    tables_tell_states();
    match life_file(loaded, selection, command) {
        Ok(file) => change_file(store, loaded, selection, seen, change, &file, out),
        Err(status) => Ok(Err(status)),
    }
}

/// DEACTIVATE FILE (11.1.14): commits that the current EF is out of use, unless it is so already. After a fault the answer is
/// empty, and that is committed or not; the table is as it was.
pub fn deactivate<S: Store>(
    store: &mut S,
    loaded: &mut Loaded,
    selection: &mut Selection,
    seen: &Verified,
    command: &Command<'_>,
    out: &mut Answer,
) -> Result<(), StoreFault>
    requires place { IsInPlace (memory S.Store store.old loaded.old) selection.old }
    ensures performs { Performs result (memory S.Store store.old loaded.old) (memory S.Store store.new loaded.new)
        out.new selection.new
        (λ state. settled_file selection.old (file_deactivated state seen.now selection.old command.now)) }
    ensures still { StaysStill (memory S.Store store.old loaded.old) (memory S.Store store.new loaded.new)
        (λ state. (settled_file selection.old (file_deactivated state seen.now selection.old command.now)).passed) }
    ensures writes { WritesAll result (memory S.Store store.old loaded.old) (memory S.Store store.new loaded.new)
        (λ state. (settled_file selection.old (file_deactivated state seen.now selection.old command.now)).changes) }
    ensures ends { EndsWell result (memory S.Store store.old loaded.old) (memory S.Store store.new loaded.new)
        out.new selection.new }
    ensures files { KeepsOtherFiles loaded.old loaded.new }
    ensures refused { (status : StatusWord)
        → life_file (descriptors_of loaded.old) selection.old command.now ≡ Err status
        → IsOk result × IsRefused status out.new selection.old selection.new × (loaded.new ≡ loaded.old)
        × (store.new ≡ store.old) }
{
    out.body.clear();
    let change = Change {
        op: Op::Deactivate,
        life: DEACTIVATED,
    };
    let tried = try_change(store, loaded, selection, seen, change, command, out)?;
    settle(tried, selection, out);
    Ok(())
}

/// ACTIVATE FILE (11.1.15): commits that the current EF is in use, unless it is so already. After a fault the answer is empty,
/// and that is committed or not; the table is as it was.
pub fn activate<S: Store>(
    store: &mut S,
    loaded: &mut Loaded,
    selection: &mut Selection,
    seen: &Verified,
    command: &Command<'_>,
    out: &mut Answer,
) -> Result<(), StoreFault>
    requires place { IsInPlace (memory S.Store store.old loaded.old) selection.old }
    ensures performs { Performs result (memory S.Store store.old loaded.old) (memory S.Store store.new loaded.new)
        out.new selection.new
        (λ state. settled_file selection.old (file_activated state seen.now selection.old command.now)) }
    ensures still { StaysStill (memory S.Store store.old loaded.old) (memory S.Store store.new loaded.new)
        (λ state. (settled_file selection.old (file_activated state seen.now selection.old command.now)).passed) }
    ensures writes { WritesAll result (memory S.Store store.old loaded.old) (memory S.Store store.new loaded.new)
        (λ state. (settled_file selection.old (file_activated state seen.now selection.old command.now)).changes) }
    ensures ends { EndsWell result (memory S.Store store.old loaded.old) (memory S.Store store.new loaded.new)
        out.new selection.new }
    ensures files { KeepsOtherFiles loaded.old loaded.new }
    ensures refused { (status : StatusWord)
        → life_file (descriptors_of loaded.old) selection.old command.now ≡ Err status
        → IsOk result × IsRefused status out.new selection.old selection.new × (loaded.new ≡ loaded.old)
        × (store.new ≡ store.old) }
{
    out.body.clear();
    let change = Change {
        op: Op::Activate,
        life: ACTIVATED,
    };
    let tried = try_change(store, loaded, selection, seen, change, command, out)?;
    settle(tried, selection, out);
    Ok(())
}
