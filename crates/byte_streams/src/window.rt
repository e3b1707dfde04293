//! The buffer of a reader of lines: what was taken from a source and not let go.
ghost use Rattle.std.specs.Prelude.{◌≡◌, ◌≤◌, ◌<◌, ◌+◌, ◌-◌, ◌++◌, ◌⊎◌, List, ℕ, [], IsTrue, IsFalse, MatchOption, IsErr, IfOk, IfSome, OnErr, length, drop, slice_range};
ghost use Rattle.std.specs.Io.KnownBytes.{prepend_known, IsAtEnd};
ghost use Rattle.byte_streams.specs.Search.{Finds, IsFirstEnd, NoEndBelow, TakesMore};
ghost use Rattle.byte_streams.specs.Streams.{CountsEach};

use crate::limits::LONGEST_LINE;
use crate::streams::{Failed, Source};
use arrayvec::ArrayVec;
use memchr::memchr;
use std::marker::Model;

/// The most bytes that are held: the longest line and its end, `0D 0A`.
pub(crate) const SIZE: usize = LONGEST_LINE + 2;

/// What a search for the end of a line comes to.
#[derive(Clone, Copy)]
pub(crate) enum Found {
    /// The first end is at this place.
    LineEnd(usize),
    /// No line ends in as many bytes as may be held.
    Full,
    /// No line ends before the input does.
    InputEnd,
}

#[derive(Drop)]
pub(crate) struct Window {
    // All its places are in use, so that a source can write into those after `end`.
    bytes: ArrayVec<u8, SIZE>,
    start: usize,
    end: usize,
}

impl Model for Window {
    ghost use Rattle.std.specs.Prelude.{ℕ, List, ◌≡◌, ◌≤◌, length, slice_range};
    ghost use Rattle.byte_streams.specs.declared.window.TheConstants.{SIZE};

    ghost Value = { List ℕ };

    ghost view = { λ window. slice_range window.bytes.items window.start window.end };

    ghost invariant = { λ window. (window.start ≤ window.end) × (window.end ≤ SIZE) × (length window.bytes.items ≡ SIZE) };
}

impl Window {
    pub(crate) fn new() -> Self
        ensures { result ≡ [] }
    {
        Window {
            bytes: ArrayVec::from([0; SIZE]),
            start: 0,
            end: 0,
        }
    }

    pub(crate) fn as_slice(&self) -> &[u8]
        ensures value { result.now ≡ self.now }
        ensures fits { length result.now ≤ SIZE }
    {
        &self.bytes.as_slice()[self.start..self.end]
    }

    pub(crate) fn let_go(&mut self, count: usize)
        requires { count ≤ length self.old }
        ensures { self.new ≡ drop count self.old }
    {
        self.start += count;
    }

    /// Takes bytes until a line ends in what is held, `most` bytes are held, or the input has ended.
    pub(crate) fn fill<R: Source>(
        &mut self,
        source: &mut R,
        most: usize,
        ended: bool,
    ) -> Result<Found, Failed>
        requires within { most ≤ SIZE }
        requires held { length self.old ≤ most }
        ensures taken { TakesMore self.old (R.left source.old) self.new (R.left source.new) }
        ensures idle { IsTrue ended → (self.new ≡ self.old) × (source.new ≡ source.old) }
        ensures small { length self.new ≤ most }
        ensures found { IfOk result (λ found. Finds found self.new most (IsTrue ended ⊎ IsAtEnd (R.left source.new))) }
        ensures none { OnErr result (NoEndBelow self.new (length self.new) × (length self.new < most) × IsFalse ended) }
        ensures cause { CountsEach (R.faults source.old) (R.faults source.new) (IsErr result) }
    {
        match line_end(self.as_slice()) {
            Some(place) => Ok(Found::LineEnd(place)),
            None => self.fill_on(source, most, ended),
        }
    }

    /// Goes on where no line ends in what is held. Most lines are there whole, and this is out of their way.
    #[inline(never)]
    fn fill_on<R: Source>(
        &mut self,
        source: &mut R,
        most: usize,
        ended: bool,
    ) -> Result<Found, Failed>
        requires room { (length self.old ≤ most) × (most ≤ SIZE) }
        requires searched { NoEndBelow self.old (length self.old) }
        ensures taken { TakesMore self.old (R.left source.old) self.new (R.left source.new) }
        ensures idle { IsTrue ended → (self.new ≡ self.old) × (source.new ≡ source.old) }
        ensures small { length self.new ≤ most }
        ensures found { IfOk result (λ found. Finds found self.new most (IsTrue ended ⊎ IsAtEnd (R.left source.new))) }
        ensures none { OnErr result (NoEndBelow self.new (length self.new) × (length self.new < most) × IsFalse ended) }
        ensures cause { CountsEach (R.faults source.old) (R.faults source.new) (IsErr result) }
    {
        'pieces: loop {
            if ended {
                return Ok(Found::InputEnd);
            }
            let searched = self.as_slice().len();
            if searched >= most {
                return Ok(Found::Full);
            }
            match self.take_from(source, most - searched) {
                Ok(0) => return Ok(Found::InputEnd),
                Ok(_) => {}
                Err(Failed) => return Err(Failed),
            }
            if let Some(place) = line_end_from(self.as_slice(), searched) {
                return Ok(Found::LineEnd(place));
            }
        }
    }

    /// Takes at most `most` bytes more, in one call of the source.
    pub(crate) fn take_from<R: Source>(
        &mut self,
        source: &mut R,
        most: usize,
    ) -> Result<usize, Failed>
        requires { length self.old < SIZE }
        ensures ok { IfOk result (λ count. (part : List ℕ) × (length part ≡ count) × (self.new ≡ self.old ++ part)
            × (R.left source.old ≡ prepend_known part (R.left source.new))) }
        ensures within { IfOk result (λ count. count ≤ most) }
        ensures end { IfOk result (λ count. count ≡ 0 → 0 < most → IfSome (R.left source.old) (λ rest. rest ≡ [])) }
        ensures err { OnErr result ((self.new ≡ self.old) × (R.left source.new ≡ R.left source.old)) }
        ensures cause { CountsEach (R.faults source.old) (R.faults source.new) (IsErr result) }
    {
        self.end = move_to_front(self.bytes.as_mut_slice(), self.start, self.end);
        self.start = 0;
        let stop = self.end + most.min(SIZE - self.end);
        match source.take(&mut self.bytes.as_mut_slice()[self.end..stop]) {
            Ok(count) => {
                self.end += count;
                Ok(count)
            }
            Err(Failed) => Err(Failed),
        }
    }
}

/// The first place at which a line ends, where none ends before `from`.
fn line_end_from(held: &[u8], from: usize) -> Option<usize>
    requires within { from ≤ length held.now }
    requires before { NoEndBelow held.now from }
    ensures { MatchOption result (NoEndBelow held.now (length held.now)) (IsFirstEnd held.now) }
{
    match line_end(&held[from..]) {
        Some(place) => Some(from + place),
        None => None,
    }
}

/// The first place at which a line ends.
fn line_end(bytes: &[u8]) -> Option<usize>
    ensures { MatchOption result (NoEndBelow bytes.now (length bytes.now)) (IsFirstEnd bytes.now) }
{
    memchr(b'\n', bytes)
}

/// Moves the bytes from `start` to `end` to the front, and answers where they end there.
fn move_to_front(bytes: &mut [u8], start: usize, end: usize) -> usize
    requires ordered { start ≤ end }
    requires within { end ≤ length bytes.old }
    ensures value { result ≡ end - start }
    ensures moved { slice_range bytes.new 0 result ≡ slice_range bytes.old start end }
{
    bytes.copy_within(start..end, 0);
    end - start
}
