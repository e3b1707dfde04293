//! Lists of bytes of a bounded length, kept in place: they never take memory.
ghost use Rattle.std.specs.Prelude.{◌≡◌, ◌+◌, ◌-◌, ◌≤◌, ◌<◌, ◌↔◌, List, ℕ, [], ◌∷◌, ◌++◌, length, replicate, take, IsOk, OnOk, OnErr};

use crate::limits::Full;
use arrayvec::ArrayVec;
use std::default::Default;
use std::marker::Model;

/// A list of at most `N` bytes.
#[derive(Debug, Drop)]
pub struct ByteList<const N: usize> {
    bytes: ArrayVec<u8, N>,
}

/// The bytes of one object, proactive command or envelope.
pub type Octets = ByteList<255>;

/// The most bytes of a command APDU in the short form: 5 + 255 + 1 (ISO 7816-4, 5.1).
pub const LONGEST_COMMAND: usize = 261;

/// A whole command APDU in the short form.
pub type ApduBytes = ByteList<LONGEST_COMMAND>;

/// The data of an answer.
pub type AnswerData = ByteList<256>;

/// A menu text or a title.
pub type ShortText = ByteList<10>;

/// What an applet keeps in the card's memory.
pub type Kept = ByteList<64>;

impl<const N: usize> Model for ByteList<N> {
    ghost Value = { List ℕ };

    ghost view = { λ list. list.bytes.items };
}

impl<const N: usize> ByteList<N> {
    ghost use Rattle.std.specs.Borrow.{sem};
    ghost use Rattle.uicc_types.specs.Lending.{LendsBytes};

    /// The empty list.
    pub fn new() -> Self
        ensures { result ≡ [] }
    {
        ByteList {
            bytes: ArrayVec::new(),
        }
    }

    /// The list of these bytes, of which there are at most `N`.
    pub fn from_slice(bytes: &[u8]) -> Self
        requires fits { length bytes.now ≤ N }
        ensures value { result ≡ bytes.now }
    {
        let mut list = Self::new();
        match list.append(bytes) {
            Ok(()) => list,
            Err(Full) => unreachable!(),
        }
    }

    /// Adds one byte at the end. `Full`, and no change, exactly where the list has `N` bytes.
    pub fn push(&mut self, byte: u8) -> Result<(), Full>
        ensures room { IsOk result ↔ (length self.old < N) }
        ensures ok { OnOk result (self.new ≡ self.old ++ byte ∷ []) }
        ensures err { OnErr result (self.new ≡ self.old) }
    {
        match self.bytes.try_push(byte) {
            Ok(()) => Ok(()),
            Err(_) => Err(Full),
        }
    }

    /// Adds all of `part` at the end. `Full`, and no change, exactly where the result would have more than `N` bytes.
    pub fn append(&mut self, part: &[u8]) -> Result<(), Full>
        ensures room { IsOk result ↔ (length self.old + length part.now ≤ N) }
        ensures ok { OnOk result (self.new ≡ self.old ++ part.now) }
        ensures err { OnErr result (self.new ≡ self.old) }
    {
        match self.bytes.try_extend_from_slice(part) {
            Ok(()) => Ok(()),
            Err(_) => Err(Full),
        }
    }

    /// The bytes, at most `N`.
    pub fn as_slice(&self) -> &[u8]
        ensures value { result.now ≡ self.now }
        ensures fits { length result.now ≤ N }
    {
        self.bytes.as_slice()
    }

    /// The bytes, to be written over.
    pub fn as_mut_slice(&mut self) -> &mut [u8]
        ensures* lends { sem 𝓛 (LendsBytes N.row self.entry result) }
        ensures value { result.now ≡ self.old }
        ensures fits { length result.now ≤ N }
    {
        self.bytes.as_mut_slice()
    }

    /// A second list of the same bytes.
    pub fn copy(&self) -> Self
        ensures { result ≡ self.now }
    {
        Self::from_slice(self.as_slice())
    }

    /// Has `count` bytes from now on: those at its front, and zeros after them. Where it has as many already, nothing is done.
    pub fn resize(&mut self, count: usize)
        requires fits { count ≤ N }
        ensures { self.new ≡ take count self.old ++ replicate (count - length self.old) 0 }
    {
        self.bytes.truncate(count);
        for _ in self.bytes.len()..count {
            self.bytes.push(0);
        }
    }

    /// Takes all bytes out.
    pub fn clear(&mut self)
        ensures { self.new ≡ [] }
    {
        self.bytes.clear();
    }
}

impl<const N: usize> Default for ByteList<N> {
    ghost is_default = { λ list. list ≡ [] };

    fn default() -> Self {
        Self::new()
    }
}
