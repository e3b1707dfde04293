//! Standard input as a source and standard output as a sink: the edge to the outside, whose bytes no proof can see.
ghost use Rattle.std.specs.Prelude.{◌≡◌, ◌↔◌, IsTrue};
ghost use Rattle.std.specs.IoError.{error_kind};

use crate::streams::{Failed, Sink, Source};
use std::io;
use std::io::{ErrorKind, Read, Write};

/// Hands on what comes from a reader, such as `rt.reader()` of standard input. Each call makes one read and hands on what
/// has come, so that a program at the other end of a pipe can wait for an answer to its last line. It tells no contents.
#[derive(Drop)]
pub struct InputSource<I> {
    input: I,
    faults: u64,
}

impl<I: Read> InputSource<I> {
    ghost use Rattle.std.specs.Prelude.{◌≡◌};
    ghost use Rattle.byte_streams.specs.Standard.{reader_of, source_faults};

    /// A source of what `input` reads.
    pub fn new(input: I) -> Self
        ensures reader { reader_of result ≡ input }
        ensures faults { source_faults result ≡ 0 }
    {
        InputSource { input, faults: 0 }
    }
}

impl<I: Read> Source for InputSource<I> {
    ghost use Rattle.std.specs.Prelude.{◌≡◌, ◌≤◌, None, length, if◌then◌else◌, is_err, IfOk, IsErr};
    ghost use Rattle.std.specs.Io.KnownBytes.{ReadConsumes};
    ghost use Rattle.uicc_types.specs.Counts.{raised};
    ghost use Rattle.byte_streams.specs.Standard.{reader_of, source_faults};
    ghost use Rattle.byte_streams.specs.Streams.{CountsEach};

    ghost faults = { source_faults };

    ghost left = { λ _. None };

    fn take(&mut self, out: &mut [u8]) -> Result<usize, Failed>
        ensures within { IfOk result (λ count. count ≤ length out.old) }
        ensures cause { CountsEach (source_faults self.old) (source_faults self.new) (IsErr result) }

        // It hands on what the reader gave, and no other bytes.
        ensures bytes { ReadConsumes (I.remaining (reader_of self.old))
            (I.remaining (reader_of self.new)) result out.new }
        ensures faults { source_faults self.new ≡ (if is_err result then raised
            (source_faults self.old) else source_faults self.old) }
    {
        match self.input.read(out) {
            Ok(count) => Ok(count),
            Err(_) => {
                self.faults = self.faults.saturating_add(1);
                Err(Failed)
            }
        }
    }
}

/// Writes to a writer, such as `io::writer(&rt)` of standard output. Each part is written whole, and can be seen at the
/// other end, before the call returns. It tells no contents.
#[derive(Drop)]
pub struct OutputSink<O> {
    output: O,
    faults: u64,
}

impl<O: Write> OutputSink<O> {
    ghost use Rattle.std.specs.Prelude.{◌≡◌, if◌then◌else◌, is_err, IsErr, OnOk};
    ghost use Rattle.std.specs.Io.KnownBytes.{Appends, Keeps};
    ghost use Rattle.uicc_types.specs.Counts.{raised};
    ghost use Rattle.byte_streams.specs.Standard.{sink_faults, writer_of};
    ghost use Rattle.byte_streams.specs.Streams.{CountsEach};

    /// A sink that writes to `output`.
    pub fn new(output: O) -> Self
        ensures writer { writer_of result ≡ output }
        ensures faults { sink_faults result ≡ 0 }
    {
        OutputSink { output, faults: 0 }
    }

    // Writes a part in as many calls as it takes.
    #[inline(never)]
    fn put_whole(&mut self, part: &[u8]) -> Result<(), Failed>
        ensures written { OnOk result (Appends (O.contents (writer_of self.old))
            (O.contents (writer_of self.new)) part.now) }
        ensures cause { CountsEach (sink_faults self.old) (sink_faults self.new) (IsErr result) }
        ensures faults { sink_faults self.new ≡ (if is_err result then raised
            (sink_faults self.old) else sink_faults self.old) }
    {
        match self.output.write_all(part) {
            Ok(()) => self.flush(),
            Err(_) => Err(self.counted()),
        }
    }

    // Has all that was written be seen at the other end.
    #[inline(always)]
    fn flush(&mut self) -> Result<(), Failed>
        ensures kept { Keeps (O.contents (writer_of self.old)) (O.contents (writer_of self.new)) }
        ensures cause { CountsEach (sink_faults self.old) (sink_faults self.new) (IsErr result) }
        ensures faults { sink_faults self.new ≡ (if is_err result then raised
            (sink_faults self.old) else sink_faults self.old) }
    {
        match self.output.flush() {
            Ok(()) => Ok(()),
            Err(_) => Err(self.counted()),
        }
    }

    // Counts a fault.
    #[inline(never)]
    fn counted(&mut self) -> Failed
        ensures faults { sink_faults self.new ≡ raised (sink_faults self.old) }
        ensures writer { writer_of self.new ≡ writer_of self.old }
    {
        self.faults = self.faults.saturating_add(1);
        Failed
    }
}

// Whether a call was only interrupted by a signal, and is to be made again.
#[inline(never)]
fn is_interrupted(error: &io::Error) -> bool
    ensures { IsTrue result ↔ (error_kind error.now ≡ ErrorKind.Interrupted) }
{
    error.kind() == ErrorKind::Interrupted
}

impl<O: Write> Sink for OutputSink<O> {
    ghost use Rattle.std.specs.Prelude.{◌≡◌, None, if◌then◌else◌, is_err, IsErr, OnOk};
    ghost use Rattle.std.specs.Io.KnownBytes.{Appends};
    ghost use Rattle.uicc_types.specs.Counts.{raised};
    ghost use Rattle.byte_streams.specs.Standard.{sink_faults, writer_of};
    ghost use Rattle.byte_streams.specs.Streams.{CountsEach};

    ghost faults = { sink_faults };

    ghost taken = { λ _. None };

    #[inline(always)]
    fn put(&mut self, part: &[u8]) -> Result<(), Failed>
        ensures cause { CountsEach (sink_faults self.old) (sink_faults self.new) (IsErr result) }

        // The writer was given the whole part.
        ensures written { OnOk result (Appends (O.contents (writer_of self.old))
            (O.contents (writer_of self.new)) part.now) }
        ensures faults { sink_faults self.new ≡ (if is_err result then raised
            (sink_faults self.old) else sink_faults self.old) }
    {
        // Mostly the first call takes all. Each line of a trace passes through it, so it is inlined, and what is seldom done is not.
        match self.output.write(part) {
            Ok(count) if count == part.len() => self.flush(),
            Ok(count) => self.put_whole(&part[count..]),
            Err(error) if is_interrupted(&error) => self.put_whole(part),
            Err(_) => Err(self.counted()),
        }
    }
}
