//! What the parameters, the lengths and the data of a command are tested for, in the written order.
ghost use Rattle.std.specs.Prelude.{◌≡◌, ◌≢◌, ◌≤◌, ◌==◌, ◌||◌, length, unwrap_or, IfOk, IfErr};
ghost use Rattle.toolkit_commands.specs.Replies.{replied};
ghost use Rattle.toolkit_commands.specs.Reports.{reported, bytes_in};
ghost use Rattle.card_model.specs.Toolkit.{row_status};
ghost use Rattle.cat_commands.specs.Trying.{seen, data_tried, fetch_tried, response_given, response_tried, envelope_given, envelope_tried};

use apdu_form::Command;
use toolkit_commands::{
    Details, EnvelopeRef, ResponseRef, read_envelope_in_place, read_response_in_place,
};
use toolkit_model::RowFault;
use uicc_types::StatusWord;

/// P1 and P2 are 00, and there are data.
#[tactic(auto, unfolding(crate::specs::Trying::data_tried, file_model::specs::Chains::refused_if))]
pub(crate) fn try_data(command: &Command<'_>) -> Result<(), StatusWord>
    ensures value { result ≡ data_tried command.now }
    ensures usual { IfErr result (λ status. status.0 ≢ StatusWord.MEMORY_PROBLEM.0) }
{
    if !command.has_no_parameters() {
        Err(StatusWord::WRONG_PARAMETERS)
    } else if !command.has_data() {
        Err(StatusWord::WRONG_LENGTH)
    } else {
        Ok(())
    }
}

// Whether Le asks for all of so many bytes: 256 stands for them too.
fn asks_for(command: &Command<'_>, count: u8) -> bool
    ensures { result ≡ (unwrap_or command.now.expected 0 == 256 || unwrap_or command.now.expected 0 == count) }
{
    match command.expected {
        Some(expected) => expected == 256 || expected == u16::from(count),
        None => count == 0,
    }
}

/// FETCH of a command of so many bytes, if there is one.
#[tactic(auto, unfolding(crate::specs::Trying::fetch_tried, file_model::specs::Chains::refused_if, file_model::specs::Chains::given))]
pub(crate) fn try_fetch(pending: Option<u8>, command: &Command<'_>) -> Result<(), StatusWord>
    ensures value { result ≡ fetch_tried pending command.now }
    ensures usual { IfErr result (λ status. status.0 ≢ StatusWord.MEMORY_PROBLEM.0) }
{
    if !command.has_no_parameters() {
        return Err(StatusWord::WRONG_PARAMETERS);
    }
    if !command.has_le_alone() {
        return Err(StatusWord::WRONG_LENGTH);
    }
    match pending {
        Some(count) => {
            if asks_for(command, count) {
                Ok(())
            } else {
                Err(StatusWord(0x6C00 + u16::from(count)))
            }
        }
        None => Err(StatusWord::CONDITIONS_NOT_SATISFIED),
    }
}

// What the data answer to the command with these details.
#[tactic(auto, unfolding(file_model::specs::Chains::given))]
fn response_in(details: Option<Details>, bytes: &[u8]) -> Result<ResponseRef<'_>, StatusWord>
    requires { length bytes.now ≤ 255 }
    ensures value { seen replied result ≡ response_given details bytes.now }
    ensures fits { IfOk result (λ response. length response.text.now ≤ 255) }
    ensures usual { IfErr result (λ status. status.0 ≢ StatusWord.MEMORY_PROBLEM.0) }
{
    match details {
        Some(details) => match read_response_in_place(bytes, &details) {
            Ok(response) => Ok(response),
            Err(_) => Err(StatusWord::WRONG_DATA),
        },
        None => Err(StatusWord::CONDITIONS_NOT_SATISFIED),
    }
}

/// The response to the command with these details, if one was fetched.
#[tactic(auto, unfolding(crate::specs::Trying::response_tried, file_model::specs::Chains::and_given))]
pub(crate) fn try_response<'a>(
    details: Option<Details>,
    command: &Command<'a>,
) -> Result<ResponseRef<'a>, StatusWord>
    requires { length command.now.body ≤ 255 }
    ensures value { seen replied result ≡ response_tried details command.now }
    ensures fits { IfOk result (λ response. length response.text.now ≤ 255) }
    ensures usual { IfErr result (λ status. status.0 ≢ StatusWord.MEMORY_PROBLEM.0) }
{
    match try_data(command) {
        Ok(()) => response_in(details, command.body),
        Err(status) => Err(status),
    }
}

// What the data report.
#[tactic(auto, unfolding(file_model::specs::Chains::given))]
fn envelope_in(bytes: &[u8]) -> Result<EnvelopeRef<'_>, StatusWord>
    requires { length bytes.now ≤ 255 }
    ensures value { seen reported result ≡ envelope_given bytes.now }
    ensures fits { IfOk result (λ envelope. length (bytes_in envelope) ≤ 255) }
    ensures usual { IfErr result (λ status. status.0 ≢ StatusWord.MEMORY_PROBLEM.0) }
{
    match read_envelope_in_place(bytes) {
        Ok(envelope) => Ok(envelope),
        Err(_) => Err(StatusWord::WRONG_DATA),
    }
}

/// What an envelope reports.
#[tactic(auto, unfolding(crate::specs::Trying::envelope_tried, file_model::specs::Chains::and_given))]
pub(crate) fn try_envelope<'a>(command: &Command<'a>) -> Result<EnvelopeRef<'a>, StatusWord>
    requires { length command.now.body ≤ 255 }
    ensures value { seen reported result ≡ envelope_tried command.now }
    ensures fits { IfOk result (λ envelope. length (bytes_in envelope) ≤ 255) }
    ensures usual { IfErr result (λ status. status.0 ≢ StatusWord.MEMORY_PROBLEM.0) }
{
    match try_data(command) {
        Ok(()) => envelope_in(command.body),
        Err(status) => Err(status),
    }
}

/// With which status a row is not made, or does not go.
pub(crate) fn status_of(fault: RowFault) -> StatusWord
    ensures value { result ≡ row_status fault }
    ensures usual { result.0 ≢ StatusWord.MEMORY_PROBLEM.0 }
{
    match fault {
        RowFault::BadData => StatusWord::WRONG_DATA,
        RowFault::NoBox => StatusWord::REFERENCE_NOT_FOUND,
        RowFault::Narrow => StatusWord::NO_ROOM,
        RowFault::Taken => StatusWord::CONDITIONS_NOT_SATISFIED,
        RowFault::MenuFull => StatusWord::NO_ROOM,
        RowFault::Spent => StatusWord::NO_ROOM,
        RowFault::NoRow => StatusWord::REFERENCE_NOT_FOUND,
        RowFault::NotIdle => StatusWord::CONDITIONS_NOT_SATISFIED,
    }
}
