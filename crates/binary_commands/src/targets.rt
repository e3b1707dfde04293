//! Which file a command works on, and what refuses it before the access to that file is tested.
ghost use Rattle.std.specs.Prelude.{◌≡◌, ◌≢◌, true, IfOk, IfErr};
ghost use Rattle.file_model.specs.Files.{descriptors_of};
ghost use Rattle.file_model.specs.Selections.{IsSelection};
ghost use Rattle.file_model.specs.Outcomes.{addressed, pointer_before, worked_on, is_deactivated};
ghost use Rattle.file_model.specs.Binaries.{p1_has_short, has_binary_parameters, short_in_p1, offset_of, binary_file};
ghost use Rattle.file_tree.specs.Tables.{IsCardTable, IsNumbered};
ghost use Rattle.binary_commands.specs.Commands.{IsBinaryTarget};

use apdu_form::Command;
use card_state::Loaded;
use card_state::kinds::{DEACTIVATED, TRANSPARENT};
use file_model::{Descriptor, Selection, Wanted};
use file_tree::{current_ef, first_file};
use uicc_types::StatusWord;

fn has_short(command: &Command<'_>) -> bool
    ensures { result ≡ p1_has_short command.now.p1 }
{
    command.p1 >= 0x80
}

fn has_parameters(command: &Command<'_>) -> bool
    ensures { result ≡ has_binary_parameters command.now }
{
    !has_short(command) || command.p1 >= 0x81 && command.p1 <= 0x9E
}

/// The short file identifier in P1, if there is one.
pub fn short_in(command: &Command<'_>) -> Option<u8>
    ensures { result ≡ short_in_p1 command.now }
{
    if has_short(command) {
        Some(command.p1 - 0x80)
    } else {
        None
    }
}

/// Where in the file READ BINARY and UPDATE BINARY begin.
pub fn offset_in(command: &Command<'_>) -> u16
    ensures { result ≡ offset_of command.now }
{
    if has_short(command) {
        u16::from(command.p2)
    } else {
        u16::from_be_bytes([command.p1, command.p2])
    }
}

/// The record pointer where READ BINARY and UPDATE BINARY begin.
pub fn pointer_in(selection: &Selection, command: &Command<'_>) -> Option<u8>
    ensures { result ≡ pointer_before selection.now (short_in_p1 command.now) }
{
    match short_in(command) {
        Some(_) => None,
        None => selection.pointer,
    }
}

/// What is selected once a command has worked on a file.
pub fn worked_on(selection: &Selection, file: &Descriptor, pointer: Option<u8>) -> Selection
    ensures { result ≡ worked_on selection.now file.now pointer }
{
    Selection {
        df: selection.df,
        ef: Some(file.number),
        pointer,
    }
}

/// Whether an EF is out of use.
pub fn is_deactivated(file: &Descriptor) -> bool
    ensures { result ≡ is_deactivated file.now }
{
    file.life == DEACTIVATED
}

/// The EF with this short file identifier in the current DF, or else the current EF. Refused where there is none. Inlined, what isn't asked of
/// the file costs nothing.
#[inline(always)]
#[tactic(auto, using(file_tree::proofs::IsCardTableLemmas::files_are_full), unfolding(file_model::specs::Outcomes::addressed, file_model::specs::Chains::given))]
pub fn addressed(
    loaded: &Loaded,
    selection: &Selection,
    short: Option<u8>,
) -> Result<Descriptor, StatusWord>
    requires table { IsCardTable loaded.now }
    requires selected { IsSelection (descriptors_of loaded.now) selection.now }
    ensures value { result ≡ addressed (descriptors_of loaded.now) selection.now short }
    ensures numbered { IfOk result (IsNumbered (descriptors_of loaded.now)) }
    ensures lawful { IfOk result (λ file.
        IsSelection (descriptors_of loaded.now) (worked_on selection.now file (pointer_before selection.now short))) }
    ensures usual { IfErr result (λ status. status.0 ≢ StatusWord.MEMORY_PROBLEM.0) }
{
    match short {
        Some(short) => {
            let wanted = Wanted::Short {
                df: selection.df,
                short,
            };
            first_file(loaded, wanted).ok_or(StatusWord::FILE_NOT_FOUND)
        }
        None => current_ef(loaded, selection).ok_or(StatusWord::NO_CURRENT_FILE),
    }
}

/// The transparent EF that READ BINARY or UPDATE BINARY works on. Refused are, in this order, wrong P1 and P2, a wrong length,
/// no such EF, an EF of another structure and one that is out of use.
#[inline(always)]
#[tactic(auto, unfolding(file_model::specs::Binaries::binary_file, file_model::specs::Chains::refused_if, file_model::specs::Chains::and_given))]
pub fn binary_file(
    loaded: &Loaded,
    selection: &Selection,
    command: &Command<'_>,
    has_length: bool,
) -> Result<Descriptor, StatusWord>
    requires table { IsCardTable loaded.now }
    requires selected { IsSelection (descriptors_of loaded.now) selection.now }
    ensures value { result ≡ binary_file has_length (descriptors_of loaded.now) selection.now command.now }
    ensures target { IfOk result (IsBinaryTarget (descriptors_of loaded.now) selection.now command.now) }
    ensures length { IfOk result (λ file. has_length ≡ true) }
    ensures usual { IfErr result (λ status. status.0 ≢ StatusWord.MEMORY_PROBLEM.0) }
{
    if !has_parameters(command) {
        return Err(StatusWord::WRONG_PARAMETERS);
    }
    if !has_length {
        return Err(StatusWord::WRONG_LENGTH);
    }
    let file = addressed(loaded, selection, short_in(command))?;
    if file.kind != TRANSPARENT {
        return Err(StatusWord::WRONG_STRUCTURE);
    }
    if is_deactivated(&file) {
        return Err(StatusWord::CONDITIONS_NOT_SATISFIED);
    }
    Ok(file)
}
