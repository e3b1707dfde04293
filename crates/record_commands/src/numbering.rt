//! Which record a command names (ETSI TS 102 221, 11.1.5 and 11.1.6).
ghost use Rattle.std.specs.Prelude.{◌≡◌, ◌≢◌, ◌≤◌, IfOk, IfErr, length};
ghost use Rattle.file_model.specs.Records.{next_record, previous_record, absolute_record, record_named, number_updated, is_record_length, short_in_p2, number_to_read, number_to_update};
ghost use Rattle.file_model.specs.Outcomes.{pointer_before};
ghost use Rattle.record_commands.specs.Targets.{IsPointer};

use crate::targets::{NEXT, PREVIOUS, is_cyclic, mode_in, pointer_before, short_in};
use apdu_form::Command;
use file_model::{Descriptor, Selection};
use uicc_types::StatusWord;

// After the last record of a cyclic file comes the first.
fn next_record(file: &Descriptor, pointer: Option<u8>) -> Option<u8>
    requires some { 1 ≤ file.now.count }
    ensures value { result ≡ next_record file.now pointer }
    ensures within { IsPointer file.now result }
{
    match pointer {
        None => Some(1),
        Some(pointer) if pointer < file.count => Some(pointer + 1),
        Some(_) if is_cyclic(file) => Some(1),
        Some(_) => None,
    }
}

// Before the first record of a cyclic file comes the last.
fn previous_record(file: &Descriptor, pointer: Option<u8>) -> Option<u8>
    requires some { 1 ≤ file.now.count }
    requires pointer { IsPointer file.now pointer }
    ensures value { result ≡ previous_record file.now pointer }
    ensures within { IsPointer file.now result }
{
    match pointer {
        None => Some(file.count),
        Some(pointer) if pointer > 1 => Some(pointer - 1),
        Some(_) if is_cyclic(file) => Some(file.count),
        Some(_) => None,
    }
}

/// The record with this number; 0 stands for the one at the record pointer.
pub fn absolute_record(file: &Descriptor, number: u8, pointer: Option<u8>) -> Option<u8>
    requires pointer { IsPointer file.now pointer }
    ensures value { result ≡ absolute_record file.now number pointer }
    ensures within { IsPointer file.now result }
{
    if number == 0 {
        pointer
    } else if number <= file.count {
        Some(number)
    } else {
        None
    }
}

// The number of the record that a command names.
#[tactic(auto, unfolding(file_model::specs::Records::record_named))]
fn record_named(file: &Descriptor, command: &Command<'_>, pointer: Option<u8>) -> Option<u8>
    requires some { 1 ≤ file.now.count }
    requires pointer { IsPointer file.now pointer }
    ensures value { result ≡ record_named file.now command.now pointer }
    ensures within { IsPointer file.now result }
{
    let mode = mode_in(command);
    if mode == NEXT {
        next_record(file, pointer)
    } else if mode == PREVIOUS {
        previous_record(file, pointer)
    } else {
        absolute_record(file, command.p1, pointer)
    }
}

// Whether so many bytes may be asked for.
fn is_record_length(file: &Descriptor, expected: u16) -> bool
    ensures { result ≡ is_record_length file.now expected }
{
    expected == 256 || expected == u16::from(file.width)
}

/// The record that READ RECORD reads. Refused are, in this order, where there is none and where another length is asked for.
#[tactic(auto, unfolding(file_model::specs::Records::number_to_read, file_model::specs::Chains::given, file_model::specs::Chains::refused_if))]
pub fn number_to_read(
    file: &Descriptor,
    selection: &Selection,
    command: &Command<'_>,
) -> Result<u8, StatusWord>
    requires some { 1 ≤ file.now.count }
    requires pointer { IsPointer file.now (pointer_before selection.now (short_in_p2 command.now)) }
    ensures value { result ≡ number_to_read file.now selection.now command.now }
    ensures within { IfOk result (λ number. (1 ≤ number) × (number ≤ file.now.count)) }
    ensures usual { IfErr result (λ status. status.0 ≢ StatusWord.MEMORY_PROBLEM.0) }
{
    let pointer = pointer_before(selection, short_in(command));
    match record_named(file, command, pointer) {
        Some(_) if !is_record_length(file, command.expected.unwrap_or(0)) => {
            Err(StatusWord(0x6C00 + u16::from(file.width)))
        }
        Some(number) => Ok(number),
        None => Err(StatusWord::RECORD_NOT_FOUND),
    }
}

// The number of the record that is updated. The new record of a cyclic file is its first then.
fn number_updated(file: &Descriptor, command: &Command<'_>, pointer: Option<u8>) -> Option<u8>
    requires some { 1 ≤ file.now.count }
    requires pointer { IsPointer file.now pointer }
    ensures value { result ≡ number_updated file.now command.now pointer }
    ensures within { IsPointer file.now result }
{
    if is_cyclic(file) {
        Some(1)
    } else {
        record_named(file, command, pointer)
    }
}

/// The record that UPDATE RECORD updates. Refused are, in this order, where there is none and data of another length.
#[tactic(auto, unfolding(file_model::specs::Records::number_to_update, file_model::specs::Chains::given, file_model::specs::Chains::refused_if))]
pub fn number_to_update(
    file: &Descriptor,
    selection: &Selection,
    command: &Command<'_>,
) -> Result<u8, StatusWord>
    requires some { 1 ≤ file.now.count }
    requires pointer { IsPointer file.now (pointer_before selection.now (short_in_p2 command.now)) }
    ensures value { result ≡ number_to_update file.now selection.now command.now }
    ensures within { IfOk result (λ number. (1 ≤ number) × (number ≤ file.now.count)) }
    ensures width { IfOk result (λ number. length command.now.body ≡ file.now.width) }
    ensures usual { IfErr result (λ status. status.0 ≢ StatusWord.MEMORY_PROBLEM.0) }
{
    let pointer = pointer_before(selection, short_in(command));
    match number_updated(file, command, pointer) {
        Some(_) if command.body.len() != usize::from(file.width) => Err(StatusWord::WRONG_LENGTH),
        Some(number) => Ok(number),
        None => Err(StatusWord::RECORD_NOT_FOUND),
    }
}
