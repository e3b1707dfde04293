//! The answer to a command APDU (ISO 7816-4, 5.1): data and two status bytes.
ghost use Rattle.std.specs.Prelude.{◌≡◌, []};

use crate::byte_lists::AnswerData;

/// The two status bytes SW1 SW2 as one number, SW1 in its upper half.
#[derive(Clone, Copy, Debug, PartialEq, Eq)]
pub struct StatusWord(pub u16);

impl StatusWord {
    /// `9000`: the command was carried out.
    pub const DONE: StatusWord = StatusWord(0x9000);
    /// `6282`: the end of the file was reached, or nothing was found in it.
    pub const END_OF_FILE: StatusWord = StatusWord(0x6282);
    /// `6283`: the file that was selected is deactivated.
    pub const FILE_DEACTIVATED: StatusWord = StatusWord(0x6283);
    /// `6581`: the memory failed.
    pub const MEMORY_PROBLEM: StatusWord = StatusWord(0x6581);
    /// `6700`: the length of the command, its data or its Le is wrong.
    pub const WRONG_LENGTH: StatusWord = StatusWord(0x6700);
    /// `6881`: the logical channel is not open, or not for this command.
    pub const NO_SUCH_CHANNEL: StatusWord = StatusWord(0x6881);
    /// `6882`: secure messaging is not supported.
    pub const NO_SECURE_MESSAGING: StatusWord = StatusWord(0x6882);
    /// `6981`: the command doesn't fit the structure of the file.
    pub const WRONG_STRUCTURE: StatusWord = StatusWord(0x6981);
    /// `6982`: the access condition is not satisfied.
    pub const SECURITY_NOT_SATISFIED: StatusWord = StatusWord(0x6982);
    /// `6983`: no try is left for this PIN.
    pub const PIN_BLOCKED: StatusWord = StatusWord(0x6983);
    /// `6984`: this PIN is disabled.
    pub const PIN_DISABLED: StatusWord = StatusWord(0x6984);
    /// `6985`: the conditions of use are not satisfied.
    pub const CONDITIONS_NOT_SATISFIED: StatusWord = StatusWord(0x6985);
    /// `6986`: no EF is selected.
    pub const NO_CURRENT_FILE: StatusWord = StatusWord(0x6986);
    /// `6A80`: the data of the command are wrong.
    pub const WRONG_DATA: StatusWord = StatusWord(0x6A80);
    /// `6A81`: no further logical channel can be opened.
    pub const NO_FREE_CHANNEL: StatusWord = StatusWord(0x6A81);
    /// `6A82`: there is no such file.
    pub const FILE_NOT_FOUND: StatusWord = StatusWord(0x6A82);
    /// `6A83`: there is no such record.
    pub const RECORD_NOT_FOUND: StatusWord = StatusWord(0x6A83);
    /// `6A84`: there is no room for it.
    pub const NO_ROOM: StatusWord = StatusWord(0x6A84);
    /// `6A86`: P1 or P2 is wrong.
    pub const WRONG_PARAMETERS: StatusWord = StatusWord(0x6A86);
    /// `6A88`: there is no such key, applet or row.
    pub const REFERENCE_NOT_FOUND: StatusWord = StatusWord(0x6A88);
    /// `6A89`: there is such a file already.
    pub const FILE_ALREADY_THERE: StatusWord = StatusWord(0x6A89);
    /// `6B00`: the offset lies outside the file.
    pub const WRONG_OFFSET: StatusWord = StatusWord(0x6B00);
    /// `6D00`: the instruction is not supported.
    pub const NO_SUCH_INSTRUCTION: StatusWord = StatusWord(0x6D00);
    /// `6E00`: the class is not supported, or not for this instruction.
    pub const NO_SUCH_CLASS: StatusWord = StatusWord(0x6E00);
    /// `9300`: the toolkit is busy.
    pub const TOOLKIT_BUSY: StatusWord = StatusWord(0x9300);
    /// `9850`: the value would pass its maximum.
    pub const OVERFLOW: StatusWord = StatusWord(0x9850);
}

/// What the card answers to one command: at most 256 bytes of data, and the status.
#[derive(Debug, Drop)]
pub struct Answer {
    pub body: AnswerData,
    pub status: StatusWord,
}

impl Answer {
    /// An answer without data, with status `9000`.
    pub fn new() -> Self
        ensures body { result.body ≡ [] }
        ensures status { result.status ≡ StatusWord.DONE }
    {
        Answer {
            body: AnswerData::new(),
            status: StatusWord::DONE,
        }
    }
}
