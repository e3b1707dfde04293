//! The writes of one commit: a short list of pieces, kept in place.
ghost use Rattle.std.specs.Prelude.{◌≡◌, ◌+◌, ◌≤◌, ◌<◌, ◌↔◌, [], ◌∷◌, ◌++◌, length, slice_get, IsOk, OnOk, OnErr};
ghost use Rattle.store_form.specs.Pieces.{byte_total, IsWithinBounds};

use arrayvec::ArrayVec;
use std::marker::Model;
use uicc_types::{ByteList, Full};

/// A commit has at most so many pieces.
pub const MOST_PIECES: usize = 4;

/// The pieces of a commit have at most so many bytes together.
pub const MOST_BYTES: usize = 640;

/// At most four pieces, each bytes with their place, of at most 640 bytes together.
#[derive(Debug, Drop)]
pub struct Writes {
    bytes: ByteList<MOST_BYTES>,
    spans: ArrayVec<Span, MOST_PIECES>,
}

// A piece: its place, and where its bytes stand among all.
#[derive(Clone, Copy, Debug, Default)]
struct Span {
    place: u16,
    start: usize,
    end: usize,
}

impl Model for Writes {
    ghost use Rattle.std.specs.Prelude.{List};
    ghost use Rattle.store_form.specs.Pieces.{Piece};

    ghost Value = { List Piece };

    ghost use Rattle.store_form.specs.Spans.{pieces_of, AreWhole};

    ghost view = { λ writes. pieces_of writes.bytes writes.spans.items };

    ghost invariant = { λ writes. AreWhole writes.bytes writes.spans.items };
}

impl Writes {
    /// No pieces.
    pub fn new() -> Self
        ensures { result ≡ [] }
    {
        Writes {
            bytes: ByteList::new(),
            spans: ArrayVec::new(),
        }
    }

    /// Adds a piece at the end. `Full`, and no change, exactly where there are four or the bytes of all would be more
    /// than 640.
    pub fn add(&mut self, at: u16, bytes: &[u8]) -> Result<(), Full>
        ensures room { IsOk result ↔ ((length self.old < MOST_PIECES) ×
            (byte_total self.old + length bytes.now ≤ MOST_BYTES)) }
        ensures ok { OnOk result (self.new ≡ self.old ++ (record { place = at; bytes = bytes.now }) ∷ []) }
        ensures err { OnErr result (self.new ≡ self.old) }
    {
        if self.spans.is_full() {
            return Err(Full);
        }
        let start = self.bytes.as_slice().len();
        self.bytes.append(bytes)?;
        self.spans.push(Span {
            place: at,
            start,
            end: start + bytes.len(),
        });
        Ok(())
    }

    /// How many pieces there are.
    pub fn len(&self) -> usize
        ensures value { result ≡ length self.now }
        ensures bounds { IsWithinBounds self.now }
    {
        self.spans.len()
    }

    /// The piece of this number, counted from 0 in the order in which they were added.
    pub fn piece(&self, at: usize) -> (u16, &[u8])
        requires { at < length self.now }
        ensures { slice_get self.now at ≡ Some (record { place = result.0; bytes = result.1.now }) }
    {
        let span = self.spans[at];
        (span.place, &self.bytes.as_slice()[span.start..span.end])
    }
}
