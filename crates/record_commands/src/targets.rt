//! Which file a command on records works on, and what refuses it before the access to that file is tested.
ghost use Rattle.std.specs.Prelude.{◌≡◌, ◌≢◌, ◌==◌, true, IfOk, IfErr};
ghost use Rattle.card_state.specs.Kinds.{has_records};
ghost use Rattle.file_model.specs.Files.{descriptors_of};
ghost use Rattle.file_model.specs.Selections.{IsSelection};
ghost use Rattle.file_model.specs.Outcomes.{pointer_before, worked_on};
ghost use Rattle.file_model.specs.Records.{mode_bits, is_cyclic, has_record_parameters, short_in_p2, pointer_after, record_file};
ghost use Rattle.file_tree.specs.Tables.{IsCardTable};
ghost use Rattle.record_commands.specs.Targets.{fits, IsTarget};

use crate::laws::records_are_there;
use apdu_form::Command;
use binary_commands::{addressed, is_deactivated, worked_on};
use card_state::Loaded;
use card_state::kinds::{self, CYCLIC};
use file_model::{Descriptor, Selection};
use uicc_types::StatusWord;

/// P2 says in b3 to b1 that the next record is meant.
pub const NEXT: u8 = 2;

/// The record before the current one.
pub const PREVIOUS: u8 = 3;

/// The record that P1 names.
pub const ABSOLUTE: u8 = 4;

/// The longest record that INCREASE adds to, and the most data that it has, in bytes (11.1.8).
pub const LONGEST_INCREASED: u8 = 127;

/// The structure that a command asks of its file.
#[derive(Clone, Copy)]
pub enum Structure {
    /// Records.
    Records,
    /// Records that can be updated: those of a cyclic file by the mode for the previous record alone.
    Updated(bool),
    /// Records of a cyclic file, of at most `LONGEST_INCREASED` bytes each.
    Increased,
}

/// What a command asks before the access to its file is tested.
#[derive(Clone, Copy)]
pub struct Demand {
    /// Whether P1 and P2 are as they have to be.
    pub has_parameters: bool,
    /// Whether the data and the Le are.
    pub has_length: bool,
    pub structure: Structure,
    /// The short file identifier of its file; without one the current EF is meant.
    pub short: Option<u8>,
}

/// Whether a file is cyclic.
pub fn is_cyclic(file: &Descriptor) -> bool
    ensures { result ≡ is_cyclic file.now }
{
    file.kind == CYCLIC
}

fn fits(structure: Structure, file: &Descriptor) -> bool
    ensures { result ≡ fits structure file.now }
{
    match structure {
        Structure::Records => kinds::has_records(file.kind),
        Structure::Updated(is_previous) => {
            kinds::has_records(file.kind) && (!is_cyclic(file) || is_previous)
        }
        Structure::Increased => is_cyclic(file) && file.width <= LONGEST_INCREASED,
    }
}

/// What b3 to b1 of P2 say.
pub fn mode_in(command: &Command<'_>) -> u8
    ensures { result ≡ mode_bits command.now }
{
    command.p2 % 8
}

/// The short file identifier in P2, if there is one.
pub fn short_in(command: &Command<'_>) -> Option<u8>
    ensures { result ≡ short_in_p2 command.now }
{
    let short = command.p2 / 8;
    if short == 0 { None } else { Some(short) }
}

/// The record pointer where a command with this short file identifier begins.
pub fn pointer_before(selection: &Selection, short: Option<u8>) -> Option<u8>
    ensures { result ≡ pointer_before selection.now short }
{
    match short {
        Some(_) => None,
        None => selection.pointer,
    }
}

/// The record pointer after a command that named this record.
pub fn pointer_after(command: &Command<'_>, number: u8, pointer: Option<u8>) -> Option<u8>
    ensures { result ≡ pointer_after command.now number pointer }
{
    if mode_in(command) == ABSOLUTE {
        pointer
    } else {
        Some(number)
    }
}

/// What is selected once a command named the record with this number.
pub fn selection_after(
    selection: &Selection,
    file: &Descriptor,
    command: &Command<'_>,
    number: u8,
) -> Selection
    ensures { result ≡ worked_on selection.now file.now
        (pointer_after command.now number (pointer_before selection.now (short_in_p2 command.now))) }
{
    let pointer = pointer_before(selection, short_in(command));
    worked_on(selection, file, pointer_after(command, number, pointer))
}

/// Whether P1 and P2 are those of READ RECORD and UPDATE RECORD.
pub fn has_parameters(command: &Command<'_>) -> bool
    ensures { result ≡ has_record_parameters command.now }
{
    let mode = mode_in(command);
    command.p2 / 8 != 31
        && (mode == ABSOLUTE || (mode == NEXT || mode == PREVIOUS) && command.p1 == 0)
}

/// The EF that a command works on. Refused are, in this order, wrong P1 and P2, a wrong length, no such EF, an EF of another
/// structure and one that is out of use. Inlined, what a command doesn't ask costs it nothing.
#[inline(always)]
#[tactic(auto, unfolding(file_model::specs::Records::record_file, file_model::specs::Chains::refused_if, file_model::specs::Chains::and_given))]
pub fn record_file(
    loaded: &Loaded,
    selection: &Selection,
    demand: Demand,
) -> Result<Descriptor, StatusWord>
    requires table { IsCardTable loaded.now }
    requires selected { IsSelection (descriptors_of loaded.now) selection.now }
    ensures value { result ≡ record_file demand.has_parameters demand.has_length (fits demand.structure)
        (descriptors_of loaded.now) selection.now demand.short }
    ensures target { IfOk result (IsTarget (descriptors_of loaded.now) selection.now demand.short) }
    ensures fits { IfOk result (λ file. fits demand.structure file ≡ true) }
    ensures usual { IfErr result (λ status. status.0 ≢ StatusWord.MEMORY_PROBLEM.0) }
{
    records_are_there(loaded);
    if !demand.has_parameters {
        return Err(StatusWord::WRONG_PARAMETERS);
    }
    if !demand.has_length {
        return Err(StatusWord::WRONG_LENGTH);
    }
    let file = addressed(loaded, selection, demand.short)?;
    if !fits(demand.structure, &file) {
        return Err(StatusWord::WRONG_STRUCTURE);
    }
    if is_deactivated(&file) {
        return Err(StatusWord::CONDITIONS_NOT_SATISFIED);
    }
    Ok(file)
}
