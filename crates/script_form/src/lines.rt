//! What a line of a script says.
ghost use Rattle.std.specs.Prelude.{◌≡◌, ◌≤◌, ◌<◌, ◌++◌, ◌∷◌, [], length};

use arrayvec::ArrayVec;
use std::marker::Model;
use uicc_types::{ApduBytes, CutAt, FailAt, FileId, Octets, Pin8};

/// The longest path: from the MF's children down, one identifier for each level.
pub const DEEPEST: usize = 8;

/// The bytes of the identifiers of such a path.
pub(crate) const LONGEST_PATH: usize = 2 * DEEPEST;

/// The names of a file and of the DFs above it, from the MF down and without the MF's own: 1 to 8 identifiers.
#[derive(Debug, Drop)]
pub struct Path {
    identifiers: ArrayVec<FileId, DEEPEST>,
}

impl Model for Path {
    ghost use Rattle.std.specs.Prelude.{List, ◌≤◌, length};
    ghost use Rattle.uicc_types.specs.declared.identifiers.FileId.{FileId};
    ghost use Rattle.script_form.specs.declared.lines.TheConstants.{DEEPEST};

    ghost Value = { List FileId };

    ghost view = { λ path. path.identifiers.items };

    ghost invariant = { λ path. (1 ≤ length path.identifiers.items) × (length path.identifiers.items ≤ DEEPEST) };
}

impl Path {
    /// The path of a file in the MF.
    pub fn new(identifier: FileId) -> Self
        ensures { result ≡ identifier ∷ [] }
    {
        let mut identifiers = ArrayVec::new();
        identifiers.push(identifier);
        Path { identifiers }
    }

    /// Goes on to a file inside the one that the path leads to.
    pub fn push(&mut self, identifier: FileId)
        requires { length self.old < DEEPEST }
        ensures { self.new ≡ self.old ++ identifier ∷ [] }
    {
        self.identifiers.push(identifier);
    }

    /// The identifiers, from the MF down.
    pub fn as_slice(&self) -> &[FileId]
        ensures value { result.now ≡ self.now }
        ensures filled { 1 ≤ length result.now }
        ensures fits { length result.now ≤ DEEPEST }
    {
        self.identifiers.as_slice()
    }
}

/// What one line of a script says.
#[derive(Debug, Drop)]
pub enum ScriptLine {
    /// Nothing: the line is empty or a comment.
    Passed,
    /// The card section ends, and the card is opened.
    Start,
    /// The card is reset.
    Reset,
    /// The card has a DF.
    Df {
        path: Path,
    },
    /// The card has a transparent EF of `size` bytes.
    Transparent {
        path: Path,
        size: u16,
        short: Option<u8>,
        rule: Option<(FileId, u8)>,
    },
    /// The card has a linear fixed EF of `count` records, each of `length` bytes.
    Linear {
        path: Path,
        length: u8,
        count: u8,
        short: Option<u8>,
        rule: Option<(FileId, u8)>,
    },
    /// The card has a cyclic EF of `count` records, each of `length` bytes.
    Cyclic {
        path: Path,
        length: u8,
        count: u8,
        short: Option<u8>,
        rule: Option<(FileId, u8)>,
    },
    /// A transparent EF has these bytes from `offset` on.
    Fill {
        path: Path,
        offset: u16,
        bytes: Octets,
    },
    /// A record of an EF begins with these bytes.
    Rec {
        path: Path,
        number: u8,
        bytes: Octets,
    },
    /// The card has a PIN.
    Pin {
        key: u8,
        value: Pin8,
        enabled: bool,
        unblock: Pin8,
    },
    /// A row is registered on a shelf; `content` says what an INSTALL would.
    Row {
        shelf: u8,
        priority: u8,
        content: Octets,
    },
    /// The card is sent a command.
    Apdu(ApduBytes),
    /// The card is sent a TPDU of the T=0 protocol.
    Tpdu(ApduBytes),
    /// Power is to be lost in a program call of the next command or reset.
    Cut(CutAt),
    /// A program call of the next command or reset is to fail.
    Fail(FailAt),
    /// The read call with this number of the next command or reset is to fail.
    ReadFail(u32),
    /// The user has read a text.
    UserOk,
    /// The user ends the card's session.
    UserEnd,
    /// The user goes back.
    UserBack,
    /// The user does nothing for a long time.
    UserNone,
    /// The user types a text of at most 30 bytes from 20 to 7E.
    UserType(Octets),
    /// The user picks the item with this identifier, from 1 to 255, of a choice or of the card's menu.
    UserPick(u8),
    /// The user presses a key.
    UserPress,
    /// The screen becomes idle.
    UserIdle,
    /// The user dials 1 to 20 decimal digits, which stand here as they are written.
    UserDial(Octets),
    /// The network tells a new location, of 1 to 32 bytes.
    NetPlace(Octets),
    /// The handset is to ask the card whether it wants anything.
    NetPoll,
    /// So many seconds pass.
    Time(u32),
    /// A terminal is given a proactive command.
    Cmd(Octets),
    /// The far end of a channel, from 1 to 7, sends back so many bytes, from 1 to 4,096.
    Echo {
        channel: u8,
        count: u16,
    },
    /// The link of a channel, from 1 to 7, is lost.
    Lose(u8),
}

/// A line of a script is in no form. The number counts all lines from 1.
#[derive(Clone, Copy, Debug, PartialEq, Eq)]
pub struct LineFault(pub u32);
