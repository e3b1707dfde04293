//! The reader that cuts what a source hands on into lines.
ghost use Rattle.std.specs.Prelude.{◌≡◌, ◌≤◌, ◌<◌, length, take};
ghost use Rattle.std.specs.Str.Lines.{strip_carriage_return};

use crate::limits::{LONGEST_LINE, MOST_BYTES};
use crate::next_line::NextLine;
use crate::streams::{Failed, Source};
use crate::window::{Found, SIZE, Window};
use std::marker::Model;

/// Reads a text line by line from a source that hands it on in pieces of any size. A line ends with `0A`, or with the
/// input; a `0D` before the `0A` is dropped. It keeps one line, takes no memory, and takes at most 16,777,217 bytes.
#[derive(Drop)]
pub struct LineReader {
    /// The line found last with its end, and then what was taken after it.
    window: Window,
    /// How many bytes the line found last has.
    line: usize,
    /// How many bytes it has with its end.
    passed: usize,
    /// How many bytes the lines to come may take up.
    room: usize,
    /// Whether the source has told its end.
    ended: bool,
}

impl Model for LineReader {
    ghost use Rattle.std.specs.Prelude.{◌+◌, ◌≤◌, length, drop, take};
    ghost use Rattle.byte_streams.specs.Reading.{Reading};
    ghost use Rattle.byte_streams.specs.declared.limits.TheConstants.{MOST_BYTES};
    ghost use Rattle.byte_streams.specs.declared.window.TheConstants.{SIZE};

    ghost Value = { Reading };

    ghost view = { λ reader. record { line = take reader.line reader.window; held = drop reader.passed reader.window; room = reader.room; ended = reader.ended } };

    ghost invariant = { λ reader. (reader.line ≤ reader.passed) × (reader.passed ≤ length reader.window) × (length reader.window ≤ reader.passed + reader.room + 1) × (length reader.window ≤ SIZE) × (reader.room ≤ MOST_BYTES) };
}

impl LineReader {
    ghost use Rattle.std.specs.Prelude.{◌≡◌, ◌≢◌, ◌≤◌, ◌<◌, ◌+◌, ◌-◌, ◌&&◌, List, ℕ, true, false, IsErr, IfOk, OnErr, length, take, drop, min, nat_le, if◌then◌else◌};
    ghost use Rattle.byte_streams.specs.Lines.{LineList};
    ghost use Rattle.byte_streams.specs.Reading.{FindsNext, HasRead, IsWithin, Leaves, OnLine, Stays, UsesRoom, at_start, lines_left};
    ghost use Rattle.byte_streams.specs.ReaderSteps.{Continues, after_line};
    ghost use Rattle.byte_streams.specs.Search.{Finds, NoEndBelow};
    ghost use Rattle.byte_streams.specs.Streams.{CountsEach};

    /// A reader that has taken nothing.
    pub fn new() -> LineReader
        ensures { result ≡ at_start }
    {
        LineReader {
            window: Window::new(),
            line: 0,
            passed: 0,
            room: MOST_BYTES,
            ended: false,
        }
    }

    /// The line that was found last. It is gone with the next call of `next`.
    pub fn line(&self) -> &[u8]
        ensures value { result.now ≡ self.now.line }
        ensures fits { length result.now ≤ SIZE }
    {
        &self.window.as_slice()[..self.line]
    }

    /// Finds the next line. It takes from the source only while it holds no whole line, so a line is found as soon as its
    /// end was taken. After `Failed` all that was taken is held, and the next call goes on from there.
    #[inline(always)]
    pub fn next<R: Source>(&mut self, source: &mut R) -> NextLine
        // The lines that are still to come lose the one that was found, and no other.
        ensures left { Leaves result self.new.line (lines_left self.old (R.left source.old))
            (lines_left self.new (R.left source.new)) }

        // Where no line is handed out, what is left to read is what it was: nothing of it was dropped or passed over.
        ensures stays { result ≢ NextLine.Line → Stays self.old (R.left source.old) self.new (R.left source.new) }

        // The same of a whole text, with the lines that were handed out before, and how much of it is taken then.
        ensures found { (text : List ℕ) (given : LineList) → HasRead text given self.old (R.left source.old)
            → FindsNext text given self.new (R.left source.new) result }

        // At most one byte more is taken than lines may take up.
        ensures within { (text : List ℕ) → IsWithin text self.old (R.left source.old)
            → IsWithin text self.new (R.left source.new) }

        // Each line takes up room, so there are no more lines than bytes.
        ensures room { UsesRoom result self.old.room self.new.room }
        ensures idle { self.old.ended ≡ true → source.new ≡ source.old }
        ensures cause { CountsEach (R.faults source.old) (R.faults source.new) (result ≡ NextLine.Failed) }
    {
        match self.fill(source) {
            Ok(Found::LineEnd(place)) => {
                let line = line_len(self.held(), place);
                self.hand_out(line, place + 1)
            }
            Ok(Found::InputEnd) => match self.held().len() {
                0 => NextLine::End,
                size => self.hand_out(size, size),
            },
            Ok(Found::Full) => NextLine::TooLong,
            Err(Failed) => NextLine::Failed,
        }
    }

    /// Lets the line go that was found last, and takes bytes until a line ends in what is held, or none may be taken.
    fn fill<R: Source>(&mut self, source: &mut R) -> Result<Found, Failed>
        ensures continues { Continues self.old (R.left source.old) self.new (R.left source.new) }
        ensures idle { self.old.ended ≡ true → source.new ≡ source.old }
        ensures small { length self.new.held ≤ min SIZE (self.new.room + 1) }
        ensures found { IfOk result (λ found. Finds found self.new.held (min SIZE (self.new.room + 1))
            (self.new.ended ≡ true)) }
        ensures none { OnErr result (NoEndBelow self.new.held (length self.new.held)
            × (length self.new.held < min SIZE (self.new.room + 1)) × (self.new.ended ≡ false)) }
        ensures cause { CountsEach (R.faults source.old) (R.faults source.new) (IsErr result) }
    {
        self.window.let_go(self.passed);
        self.line = 0;
        self.passed = 0;
        let found = self
            .window
            .fill(source, SIZE.min(self.room + 1), self.ended);
        if let Ok(Found::InputEnd) = found {
            self.ended = true;
        }
        found
    }

    fn held(&self) -> &[u8]
        ensures value { result.now ≡ self.now.held }
        ensures small { length result.now ≤ min SIZE (self.now.room + 1) }
    {
        &self.window.as_slice()[self.passed..]
    }

    /// Hands out the first `line` bytes of what is held, which take up `size` bytes with their end, if a line may.
    fn hand_out(&mut self, line: usize, size: usize) -> NextLine
        requires ordered { line ≤ size }
        requires within { size ≤ length self.old.held }
        ensures fits { OnLine result (size ≤ self.old.room) }
        ensures value { result ≡
            (if nat_le line LONGEST_LINE && nat_le size self.old.room then NextLine.Line else NextLine.TooLong) }
        ensures stays { result ≢ NextLine.Line → self.new ≡ self.old }
        ensures line { OnLine result (self.new ≡ after_line self.old line size) }
    {
        if line > LONGEST_LINE || size > self.room {
            return NextLine::TooLong;
        }
        self.window.let_go(self.passed);
        self.line = line;
        self.passed = size;
        self.room -= size;
        NextLine::Line
    }
}

/// How many bytes a line has that ends with the `0A` at this place: a `0D` before it is no part of the line.
fn line_len(held: &[u8], place: usize) -> usize
    requires { place < length held.now }
    ensures within { result ≤ place }
    ensures value { take result held.now ≡ strip_carriage_return (take place held.now) }
{
    if place > 0 && held[place - 1] == b'\r' {
        place - 1
    } else {
        place
    }
}
