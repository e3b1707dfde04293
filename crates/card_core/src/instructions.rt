//! The table of instructions: how a command is told by its class and instruction bytes.
ghost use Rattle.std.specs.Prelude.{◌≡◌, ◌≢◌, true, false, Err, Some, OnOk, option_map};
ghost use Rattle.apdu_form.specs.Classes.{channel_of, family};
ghost use Rattle.file_model.specs.Channels.{is_open};
ghost use Rattle.card_model.specs.Instructions.{instruction_tried, is_known, has_ins, row_named};

use apdu_form::Command;
use card_model::CatCommand::{
    DeleteApplet, Envelope, Fetch, InstallApplet, TerminalProfile, TerminalResponse,
};
use card_model::Instruction::{self, File, ManageChannel, Pin, Toolkit, Tree};
use file_model::ContentsCommand::{
    Activate, Deactivate, Increase, ReadBinary, ReadRecord, SearchRecord, UpdateBinary,
    UpdateRecord,
};
use file_model::FileCommand::{Contents, Select, Status};
use file_model::PinCommand::{Change, Disable, Enable, Unblock, Verify};
use file_model::TreeCommand::{Create, Delete, Resize};
use file_tree::Channels;
use uicc_types::StatusWord;

/// A command by its class, without the channel; one that is basic is taken on the basic channel alone.
#[derive(Clone, Copy)]
pub struct TableRow {
    pub class: u8,
    pub instruction: Instruction,
    pub is_basic: bool,
}

// A command that is taken on each channel.
const fn each_channel(class: u8, instruction: Instruction) -> Option<TableRow>
    ensures { result ≡ Some (record { class = class; instruction = instruction; is_basic = false }) }
{
    Some(TableRow {
        class,
        instruction,
        is_basic: false,
    })
}

// A command that is taken on the basic channel alone.
const fn basic_channel(class: u8, instruction: Instruction) -> Option<TableRow>
    ensures { result ≡ Some (record { class = class; instruction = instruction; is_basic = true }) }
{
    Some(TableRow {
        class,
        instruction,
        is_basic: true,
    })
}

impl TableRow {
    ghost use Rattle.card_core.specs.Commands.{row_shown};

    // The row of an instruction byte in a class (ETSI TS 102 221, 10.1.2), of each command that the card has. It is inlined: a call
    // would hand the row over through memory.
    #[inline(always)]
    fn of(class: u8, ins: u8) -> Option<TableRow>
        ensures shown { option_map (row_shown ins) result ≡ row_named is_known class ins }
    {
        match (class, ins) {
            (0x00, 0xA4) => each_channel(class, File(Select)),
            (0x80, 0xF2) => each_channel(class, File(Status)),
            (0x00, 0xB0) => each_channel(class, File(Contents(ReadBinary))),
            (0x00, 0xD6) => each_channel(class, File(Contents(UpdateBinary))),
            (0x00, 0xB2) => each_channel(class, File(Contents(ReadRecord))),
            (0x00, 0xDC) => each_channel(class, File(Contents(UpdateRecord))),
            (0x00, 0xA2) => each_channel(class, File(Contents(SearchRecord))),
            (0x80, 0x32) => each_channel(class, File(Contents(Increase))),
            (0x00, 0x04) => each_channel(class, File(Contents(Deactivate))),
            (0x00, 0x44) => each_channel(class, File(Contents(Activate))),
            (0x00, 0x20) => each_channel(class, Pin(Verify)),
            (0x00, 0x24) => each_channel(class, Pin(Change)),
            (0x00, 0x26) => each_channel(class, Pin(Disable)),
            (0x00, 0x28) => each_channel(class, Pin(Enable)),
            (0x00, 0x2C) => each_channel(class, Pin(Unblock)),
            (0x00, 0x70) => each_channel(class, ManageChannel),
            (0x80, 0x10) => basic_channel(class, Toolkit(TerminalProfile)),
            (0x80, 0x12) => basic_channel(class, Toolkit(Fetch)),
            (0x80, 0x14) => basic_channel(class, Toolkit(TerminalResponse)),
            (0x80, 0xC2) => basic_channel(class, Toolkit(Envelope)),
            (0xF0, 0xE6) => each_channel(class, Toolkit(InstallApplet)),
            (0xF0, 0xE4) => each_channel(class, Toolkit(DeleteApplet)),
            (0x00, 0xE0) => each_channel(class, Tree(Create)),
            (0x00, 0xE4) => each_channel(class, Tree(Delete)),
            (0x80, 0xD4) => each_channel(class, Tree(Resize)),
            _ => None,
        }
    }

    // The row of a command.
    #[inline(always)]
    fn named_by(command: &Command<'_>) -> Option<TableRow>
        ensures shown { option_map (row_shown command.now.ins) result
            ≡ row_named is_known (family command.now.class) command.now.ins }
    {
        TableRow::of(command.family(), command.ins)
    }
}

// Whether a command that the card has, in whatever class, has this instruction byte.
fn has_ins(ins: u8) -> bool
    ensures { result ≡ has_ins is_known ins }
{
    TableRow::of(0x00, ins).is_some()
        || TableRow::of(0x80, ins).is_some()
        || TableRow::of(0xF0, ins).is_some()
}

/// The instruction that a command names by its class and instruction bytes: the class is tested first, then the channel, then the instruction.
#[inline(always)]
pub fn instruction_of(channels: &Channels, command: &Command<'_>) -> Result<Instruction, StatusWord>
    ensures tried { result ≡ instruction_tried is_known channels.now command.now.class command.now.ins }
    ensures open { OnOk result (is_open channels.now (channel_of command.now.class) ≡ true) }
    ensures usual { result ≢ Err StatusWord.MEMORY_PROBLEM }
{
    // Most commands come so, on the basic channel, which is open: one that has a row is refused for none of the rest.
    if command.has_plain_class() {
        channels.basic_is_open();
        if let Some(row) = TableRow::named_by(command) {
            return Ok(row.instruction);
        }
    }
    // Handed on in two cases, since a result that is handed on whole is kept in memory on each way.
    match instruction_tested(channels, command) {
        Ok(instruction) => Ok(instruction),
        Err(status) => Err(status),
    }
}

// The same, by one test after the other.
#[inline(never)]
#[tactic(auto, unfolding(card_model::specs::Instructions::instruction_tried, file_model::specs::Chains::refused_if, file_model::specs::Chains::given))]
fn instruction_tested(channels: &Channels, command: &Command<'_>) -> Result<Instruction, StatusWord>
    ensures tried { result ≡ instruction_tried is_known channels.now command.now.class command.now.ins }
    ensures open { OnOk result (is_open channels.now (channel_of command.now.class) ≡ true) }
    ensures usual { result ≢ Err StatusWord.MEMORY_PROBLEM }
{
    if !command.has_known_class() {
        return Err(StatusWord::NO_SUCH_CLASS);
    }
    if command.asks_secure_messaging() {
        return Err(StatusWord::NO_SECURE_MESSAGING);
    }
    let channel = command.channel();
    if !channels.is_open(channel) {
        return Err(StatusWord::NO_SUCH_CHANNEL);
    }
    if !has_ins(command.ins) {
        return Err(StatusWord::NO_SUCH_INSTRUCTION);
    }
    let Some(row) = TableRow::named_by(command) else {
        return Err(StatusWord::NO_SUCH_CLASS);
    };
    if row.is_basic && channel != 0 {
        return Err(StatusWord::NO_SUCH_CHANNEL);
    }
    Ok(row.instruction)
}
