//! MANAGE CHANNEL (ETSI TS 102 221, 11.1.17).
ghost use Rattle.std.specs.Prelude.{◌≡◌, ◌≢◌, ◌≤◌, List, true, Err, OnErr, unwrap_or};
ghost use Rattle.file_model.specs.declared.selections.TheConstants.Selection.{AT_START};
ghost use Rattle.apdu_form.specs.Classes.{channel_of};
ghost use Rattle.file_model.specs.Channels.{selected_on, is_open, is_le_of_number, channel_opened, channel_closed, channel_tried};
ghost use Rattle.file_model.specs.declared.descriptors.Descriptor.{Descriptor};
ghost use Rattle.file_model.specs.Selections.{IsSelection};
ghost use Rattle.file_model.specs.LawfulTrees.{AreSelected};
ghost use Rattle.card_core.specs.Commands.{channels_managed};

use apdu_form::Command;
use file_tree::Channels;
use uicc_types::StatusWord;

// Le asks for one byte, or for all that there are.
fn is_le_of_number(expected: Option<u16>) -> bool
    ensures { result ≡ is_le_of_number expected }
{
    matches!(expected, Some(1 | 256))
}

// Opens a channel, and answers its number.
#[tactic(auto, unfolding(file_model::specs::Chains::refused_if, file_model::specs::Chains::given))]
fn open(channels: &mut Channels, command: &Command<'_>) -> Result<Option<u8>, StatusWord>
    requires open { is_open channels.old (channel_of command.now.class) ≡ true }
    ensures tried { channel_opened channels.old
        (unwrap_or (selected_on channels.old (channel_of command.now.class)) AT_START) command.now
        ≡ channels_managed result channels.new }
    ensures refused { OnErr result (channels.new ≡ channels.old) }
    ensures usual { result ≢ Err StatusWord.MEMORY_PROBLEM }
    ensures selected { (files : List Descriptor) → IsSelection files AT_START
        → AreSelected files channels.old → AreSelected files channels.new }
{
    if !command.body.is_empty() || !is_le_of_number(command.expected) {
        return Err(StatusWord::WRONG_LENGTH);
    }
    match channels.open(command.channel()) {
        Some(number) => Ok(Some(number)),
        None => Err(StatusWord::NO_FREE_CHANNEL),
    }
}

// Closes the channel in P2.
#[tactic(auto, unfolding(file_model::specs::Chains::refused_if, file_model::specs::Chains::given))]
fn close(channels: &mut Channels, command: &Command<'_>) -> Result<Option<u8>, StatusWord>
    requires from { 1 ≤ command.now.p2 }
    requires to { command.now.p2 ≤ 3 }
    ensures tried { channel_closed channels.old command.now ≡ channels_managed result channels.new }
    ensures refused { OnErr result (channels.new ≡ channels.old) }
    ensures usual { result ≢ Err StatusWord.MEMORY_PROBLEM }
    ensures selected { (files : List Descriptor) → IsSelection files AT_START
        → AreSelected files channels.old → AreSelected files channels.new }
{
    if !command.body.is_empty() {
        return Err(StatusWord::WRONG_LENGTH);
    }
    if !channels.is_open(command.p2) {
        return Err(StatusWord::CONDITIONS_NOT_SATISFIED);
    }
    channels.close(command.p2);
    Ok(None)
}

/// P1 00 opens a channel from that of the command, and answers its number; P1 80 closes the one in P2, also that of the command.
#[tactic(auto, unfolding(file_model::specs::Channels::channel_tried))]
pub fn manage(channels: &mut Channels, command: &Command<'_>) -> Result<Option<u8>, StatusWord>
    requires open { is_open channels.old (channel_of command.now.class) ≡ true }
    ensures tried { channel_tried channels.old
        (unwrap_or (selected_on channels.old (channel_of command.now.class)) AT_START) command.now
        ≡ channels_managed result channels.new }
    ensures refused { OnErr result (channels.new ≡ channels.old) }
    ensures usual { result ≢ Err StatusWord.MEMORY_PROBLEM }
    ensures selected { (files : List Descriptor) → IsSelection files AT_START
        → AreSelected files channels.old → AreSelected files channels.new }
{
    match (command.p1, command.p2) {
        (0x00, 0x00) => open(channels, command),
        (0x80, 1..=3) => close(channels, command),
        _ => Err(StatusWord::WRONG_PARAMETERS),
    }
}
