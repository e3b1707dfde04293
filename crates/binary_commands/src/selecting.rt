//! SELECT and STATUS.
ghost use Rattle.std.specs.Prelude.{◌≡◌, ◌≢◌, ◌%◌, [], ◌==◌, ◌&&◌, true, if◌then◌else◌, length, IfSome, IsOk};
ghost use Rattle.card_state.specs.States.{pins_of};
ghost use Rattle.card_state.specs.Persistent.{Persistent};
ghost use Rattle.card_state.specs.Memory.{Reads, memory};
ghost use Rattle.file_model.specs.Files.{descriptors_of};
ghost use Rattle.file_model.specs.Fcp.{fcp};
ghost use Rattle.file_model.specs.Selections.{IsSelection, selection_of, chosen};
ghost use Rattle.file_model.specs.Selecting.{has_select_parameters, has_select_length, has_status_parameters, selecting, telling, file_selected, status_told};
ghost use Rattle.file_model.specs.Outcomes.{is_deactivated, settled_file};
ghost use Rattle.card_commits.specs.Performing.{Performs};
ghost use Rattle.card_commits.specs.Laws.{IsTold};
ghost use Rattle.file_tree.specs.Tables.{IsCardTable, IsNumbered};
ghost use Rattle.binary_commands.specs.Commands.{IsSomeCommand, IsInPlace};
ghost use Rattle.binary_commands.specs.Ends.{EndsWell};
ghost use Rattle.binary_commands.specs.Targets.{EndsLawfully, IsAnswer, Tells};

use crate::settling::settle;
use crate::targets::is_deactivated;
use crate::telling::put_parameters;
use access_rules::Verified;
use apdu_form::Command;
use card_commits::tables_tell_states;
use card_state::Loaded;
use card_state::kinds::DF;
use file_model::{Descriptor, Selection, Wanted};
use file_tree::{
    above, chosen_by_identifier, chosen_by_path, files_may_be_selected, first_file,
    short_identifiers_fit,
};
use store_form::{Store, StoreFault};
use uicc_types::{Answer, AnswerData, FileId, StatusWord};

fn has_select_parameters(command: &Command<'_>) -> bool
    ensures { result ≡ has_select_parameters command.now }
{
    matches!(command.p1, 0x00 | 0x03 | 0x04 | 0x08 | 0x09) && matches!(command.p2, 0x04 | 0x0C)
}

fn has_select_length(command: &Command<'_>) -> bool
    ensures { result ≡ has_select_length command.now }
{
    let length = command.body.len();
    match command.p1 {
        0x00 => length == 2,
        0x03 => length == 0,
        0x04 => 1 <= length && length <= 16,
        _ => 2 <= length && length % 2 == 0,
    }
}

fn has_status_parameters(command: &Command<'_>) -> bool
    ensures { result ≡ has_status_parameters command.now }
{
    matches!(command.p1, 0x00 | 0x01 | 0x02) && matches!(command.p2, 0x00 | 0x0C)
}

// The file that SELECT names: by an identifier, as the DF above, or by a path. Nothing is selected by an AID.
#[tactic(auto, using(file_tree::proofs::IsCardTableLemmas::files_are_full), unfolding(file_model::specs::Selections::chosen))]
fn chosen(loaded: &Loaded, selection: &Selection, command: &Command<'_>) -> Option<Descriptor>
    requires table { IsCardTable loaded.now }
    requires length { has_select_length command.now ≡ true }
    ensures value { result ≡ chosen (descriptors_of loaded.now) selection.now command.now }
    ensures numbered { IfSome result (IsNumbered (descriptors_of loaded.now)) }
{
    match (command.p1, command.body) {
        (0x00, [high, low]) => {
            let id = FileId(u16::from_be_bytes([*high, *low]));
            chosen_by_identifier(loaded, selection.df, id)
        }
        (0x03, _) => above(loaded, selection.df),
        (0x08, path) => chosen_by_path(loaded, 0, path),
        (0x09, path) => chosen_by_path(loaded, selection.df, path),
        _ => None,
    }
}

// What is selected once this file was.
#[tactic(auto, unfolding(file_model::specs::Selections::selection_of))]
fn selection_of(file: &Descriptor) -> Selection
    ensures { result ≡ selection_of file.now }
{
    if file.kind == DF {
        Selection {
            df: file.number,
            ef: None,
            pointer: None,
        }
    } else {
        Selection {
            df: file.parent,
            ef: Some(file.number),
            pointer: None,
        }
    }
}

// Has the file control parameters in an answer that is empty before, where they are asked for.
fn tell(loaded: &Loaded, file: &Descriptor, is_asked: bool, body: &mut AnswerData)
    requires table { IsCardTable loaded.now }
    requires numbered { IsNumbered (descriptors_of loaded.now) file.now }
    requires empty { body.old ≡ [] }
    ensures { body.new ≡ (if is_asked then fcp (pins_of loaded.now) file.now else []) }
{
    if is_asked {
        short_identifiers_fit(loaded);
        put_parameters(body, loaded, file);
    }
}

// The answer to a SELECT that found this file, in `out`, which is empty before, and what is selected then.
#[tactic(auto, unfolding(file_model::specs::Selecting::selecting))]
fn answer_selected(
    loaded: &Loaded,
    file: &Descriptor,
    command: &Command<'_>,
    out: &mut Answer,
) -> Selection
    requires table { IsCardTable loaded.now }
    requires numbered { IsNumbered (descriptors_of loaded.now) file.now }
    requires empty { out.old.body ≡ [] }
    ensures outcome { (state : Persistent) → IsTold loaded.now state
        → IsAnswer (selecting state command.now file.now) out.new result }
    ensures lawful { IsSelection (descriptors_of loaded.now) result }
    ensures usual { out.new.status.0 ≢ StatusWord.MEMORY_PROBLEM.0 }
{
    files_may_be_selected(loaded);
    let is_asked = command.p2 == 0x04;
    tell(loaded, file, is_asked, &mut out.body);
    out.status = status_of_file(file);
    selection_of(file)
}

// An EF that is out of use is selected with a warning.
fn status_of_file(file: &Descriptor) -> StatusWord
    ensures value { result ≡ (if is_deactivated file.now then StatusWord.FILE_DEACTIVATED else StatusWord.DONE) }
    ensures usual { result.0 ≢ StatusWord.MEMORY_PROBLEM.0 }
{
    if is_deactivated(file) {
        StatusWord::FILE_DEACTIVATED
    } else {
        StatusWord::DONE
    }
}

// Selects the file that the command names, and has the answer in `out`, which is empty before.
#[inline(always)]
fn try_select(
    loaded: &Loaded,
    selection: &Selection,
    command: &Command<'_>,
    out: &mut Answer,
) -> Result<Selection, StatusWord>
    requires table { IsCardTable loaded.now }
    requires empty { out.old.body ≡ [] }
    ensures tells { (state : Persistent) → IsTold loaded.now state
        → Tells (file_selected state selection.now command.now) result out.new }
    ensures lawful { EndsLawfully (descriptors_of loaded.now) result out.new }
{
    if !has_select_parameters(command) {
        return Err(StatusWord::WRONG_PARAMETERS);
    }
    if !has_select_length(command) {
        return Err(StatusWord::WRONG_LENGTH);
    }
    match chosen(loaded, selection, command) {
        Some(file) => Ok(answer_selected(loaded, &file, command, out)),
        None => Err(StatusWord::FILE_NOT_FOUND),
    }
}

// The answer to a STATUS where this is the current DF, in `out`, which is empty before, and what is selected still.
#[tactic(auto, unfolding(file_model::specs::Selecting::telling))]
fn answer_status(
    loaded: &Loaded,
    selection: &Selection,
    df: &Descriptor,
    command: &Command<'_>,
    out: &mut Answer,
) -> Selection
    requires table { IsCardTable loaded.now }
    requires numbered { IsNumbered (descriptors_of loaded.now) df.now }
    requires empty { out.old.body ≡ [] }
    ensures outcome { (state : Persistent) → IsTold loaded.now state
        → IsAnswer (telling state selection.now command.now df.now) out.new result }
    ensures same { result ≡ selection.now }
    ensures usual { out.new.status.0 ≢ StatusWord.MEMORY_PROBLEM.0 }
{
    let is_asked = command.p2 == 0x00;
    tell(loaded, df, is_asked, &mut out.body);
    out.status = StatusWord::DONE;
    *selection
}

// Tells of the current DF, and has the answer in `out`, which is empty before.
#[tactic(auto, using(file_tree::proofs::IsCardTableLemmas::files_are_full))]
fn try_status(
    loaded: &Loaded,
    selection: &Selection,
    command: &Command<'_>,
    out: &mut Answer,
) -> Result<Selection, StatusWord>
    requires table { IsCardTable loaded.now }
    requires selected { IsSelection (descriptors_of loaded.now) selection.now }
    requires empty { out.old.body ≡ [] }
    ensures tells { (state : Persistent) → IsTold loaded.now state
        → Tells (status_told state selection.now command.now) result out.new }
    ensures lawful { EndsLawfully (descriptors_of loaded.now) result out.new }
{
    if !has_status_parameters(command) {
        return Err(StatusWord::WRONG_PARAMETERS);
    }
    if !command.has_no_data() {
        return Err(StatusWord::WRONG_LENGTH);
    }
    match first_file(loaded, Wanted::Number(selection.df)) {
        Some(df) => Ok(answer_status(loaded, selection, &df, command, out)),
        None => Err(StatusWord::FILE_NOT_FOUND),
    }
}

/// SELECT (ETSI TS 102 221, 11.1.1): selects the MF, another DF or an EF, and answers its file control parameters where they
/// are asked for. It reads no memory, and meets no fault.
pub fn select<S: Store>(
    store: &mut S,
    loaded: &mut Loaded,
    selection: &mut Selection,
    seen: &Verified,
    command: &Command<'_>,
    out: &mut Answer,
) -> Result<(), StoreFault>
    requires place { IsInPlace (memory S.Store store.old loaded.old) selection.old }
    requires command { IsSomeCommand command.now }
    ensures performs { Performs result (memory S.Store store.old loaded.old) (memory S.Store store.new loaded.new)
        out.new selection.new
        (λ state. settled_file selection.old (file_selected state selection.old command.now)) }
    ensures ends { EndsWell result (memory S.Store store.old loaded.old) (memory S.Store store.new loaded.new)
        out.new selection.new }
    ensures reads { Reads (memory S.Store store.old loaded.old) (memory S.Store store.new loaded.new) result }
    ensures answers { (state : Persistent) → IsTold loaded.old state
        → IsAnswer (settled_file selection.old (file_selected state selection.old command.now)) out.new selection.new }
    ensures unread { IsOk result × (store.new ≡ store.old) × (loaded.new ≡ loaded.old) }
{
    out.body.clear();
    // This call is a law, and does nothing.
    tables_tell_states();
    let tried = try_select(loaded, selection, command, out);
    settle(tried, selection, out);
    Ok(())
}

/// STATUS (11.1.2): answers the file control parameters of the current DF where they are asked for. It reads no memory, and
/// meets no fault.
pub fn status<S: Store>(
    store: &mut S,
    loaded: &mut Loaded,
    selection: &mut Selection,
    seen: &Verified,
    command: &Command<'_>,
    out: &mut Answer,
) -> Result<(), StoreFault>
    requires place { IsInPlace (memory S.Store store.old loaded.old) selection.old }
    requires command { IsSomeCommand command.now }
    ensures performs { Performs result (memory S.Store store.old loaded.old) (memory S.Store store.new loaded.new)
        out.new selection.new
        (λ state. settled_file selection.old (status_told state selection.old command.now)) }
    ensures ends { EndsWell result (memory S.Store store.old loaded.old) (memory S.Store store.new loaded.new)
        out.new selection.new }
    ensures reads { Reads (memory S.Store store.old loaded.old) (memory S.Store store.new loaded.new) result }
    ensures answers { (state : Persistent) → IsTold loaded.old state
        → IsAnswer (settled_file selection.old (status_told state selection.old command.now)) out.new selection.new }
    ensures unread { IsOk result × (store.new ≡ store.old) × (loaded.new ≡ loaded.old) }
{
    out.body.clear();
    // This call is a law, and does nothing.
    tables_tell_states();
    let tried = try_status(loaded, selection, command, out);
    settle(tried, selection, out);
    Ok(())
}
