//! The lines of a script, read and counted.
ghost use Rattle.std.specs.Prelude.{◌≡◌, ◌+◌, ◌≤◌, ◌<◌, List, ℕ, Ok, Err, true};
ghost use Rattle.byte_streams.specs.declared.limits.TheConstants.{MOST_BYTES};

use crate::faults::ScriptFault;
use byte_streams::{LineReader, NextLine, Source};
use script_form::{LineFault, ScriptLine, read_line_into};

/// Hands out what the lines of a script say, one after the other. It takes at most 16,777,217 bytes.
#[derive(Drop)]
pub struct ScriptReader {
    reader: LineReader,
    /// How many lines were handed out.
    number: u32,

    /// A line takes up one byte at least.
    ghost counted: { number + reader.room ≤ MOST_BYTES },
}

impl ScriptReader {
    ghost use Rattle.byte_streams.specs.Lines.{LineList};
    ghost use Rattle.byte_streams.specs.Reading.{IsWithin, at_start};
    ghost use Rattle.byte_streams.specs.Streams.{CountsEach};
    ghost use Rattle.script_form.specs.Bounds.{IsBounded};
    ghost use Rattle.script_reader.specs.Reading.{Follows, GivesNext, reading, line_count, room_of};

    /// A reader at the beginning of a script.
    pub fn new() -> Self
        ensures reader { reading result ≡ at_start }
        ensures number { line_count result ≡ 0 }
    {
        ScriptReader {
            reader: LineReader::new(),
            number: 0,
        }
    }

    /// Reads the next line into `line`, and answers whether there is one: none at the end of the script. What a line says is
    /// large, so its place is the caller's, and is used again. Where nothing is read it holds any line.
    #[inline(always)]
    pub fn next<R: Source>(
        &mut self,
        source: &mut R,
        line: &mut ScriptLine,
    ) -> Result<bool, ScriptFault>
        ensures next { (text : List ℕ) (given : LineList) → Follows text given self.old (R.left source.old)
            → GivesNext text given self.new (R.left source.new) line.new result }
        ensures within { (text : List ℕ) → IsWithin text (reading self.old) (R.left source.old)
            → IsWithin text (reading self.new) (R.left source.new) }
        ensures cause { CountsEach (R.faults source.old) (R.faults source.new)
            (result ≡ Err ScriptFault.ReadFailed) }
        // A line uses up something of what may be read.
        ensures nearer { result ≡ Ok true → room_of self.new < room_of self.old }
        ensures counted { result ≡ Ok true → line_count self.new ≡ line_count self.old + 1 }
        ensures bounded { result ≡ Ok true → IsBounded line.new }
    {
        match self.reader.next(source) {
            NextLine::Line => {
                self.number += 1;
                match read_line_into(self.reader.line(), self.number, line) {
                    Ok(()) => Ok(true),
                    Err(LineFault(number)) => Err(ScriptFault::BadLine(number)),
                }
            }
            NextLine::End => Ok(false),
            NextLine::TooLong => Err(self.next_is_bad()),
            NextLine::Failed => Err(ScriptFault::ReadFailed),
        }
    }

    /// The number of the line that was handed out last.
    pub fn number(&self) -> u32
        ensures { result ≡ line_count self.now }
    {
        self.number
    }

    /// That the line after those which were handed out is bad, or should be there.
    pub fn next_is_bad(&self) -> ScriptFault
        ensures { result ≡ ScriptFault.BadLine (line_count self.now + 1) }
    {
        ScriptFault::BadLine(self.number + 1)
    }
}
