//! A walk over the bytes of a trace.
ghost use Rattle.std.specs.Prelude.{◌≡◌, IfSome, fold};
ghost use Rattle.long_runs.specs.CountedLines.{IsWholeLine};
ghost use Rattle.long_runs.specs.Walks.{counts_with, more as one_more, start, step, with_instruction};

use crate::counts::Counts;
use memchr::memchr;
use uicc_types::{ByteList, Full};

/// The most bytes that a line's kind is known by.
pub const HEAD: usize = 6;

/// How far a walk has come.
#[derive(Drop)]
pub struct Walk {
    /// The first bytes of the line that it is in.
    head: ByteList<HEAD>,
    /// The counts of all lines before.
    pub counts: Counts,
}

impl Walk {
    /// A walk that has seen no byte.
    pub fn new() -> Self
        ensures { result ≡ start }
    {
        Walk {
            head: ByteList::new(),
            counts: Counts {
                commands: 0,
                fetches: 0,
                responses: 0,
                envelopes: 0,
                busy: 0,
            },
        }
    }

    /// Goes on over these bytes.
    pub fn follow(&mut self, part: &[u8])
        ensures { self.new ≡ fold step self.old part.now }
    {
        // Mostly a line comes whole, and none of its bytes is kept.
        match whole_line(part) {
            Some(line) if self.head.as_slice().is_empty() => {
                count_line(&mut self.counts, &line[..line.len().min(HEAD)])
            }
            _ => self.follow_bytes(part),
        }
    }

    /// Goes on over these bytes, one after the other.
    #[inline(never)]
    fn follow_bytes(&mut self, part: &[u8])
        ensures { self.new ≡ fold step self.old part.now }
    {
        for byte in part {
            self.take(*byte);
        }
    }

    fn take(&mut self, byte: u8)
        ensures { self.new ≡ step self.old byte }
    {
        if byte == b'\n' {
            count_line(&mut self.counts, self.head.as_slice());
            self.head = ByteList::new();
        } else {
            match self.head.push(byte) {
                Ok(()) => {}
                // What comes after the head makes no difference.
                Err(Full) => {}
            }
        }
    }
}

/// The bytes before the end of a line, if these are a line with its end and no more.
fn whole_line(bytes: &[u8]) -> Option<&[u8]>
    ensures { IfSome result (λ line. IsWholeLine bytes.now line.now) }
{
    match memchr(b'\n', bytes) {
        Some(place) if place + 1 == bytes.len() => Some(&bytes[..place]),
        _ => None,
    }
}

/// Counts a line that begins so.
fn count_line(counts: &mut Counts, head: &[u8])
    ensures { counts.new ≡ counts_with head.now counts.old }
{
    match head {
        [b'>', b' ', b'8', b'0', high, low, ..] => {
            counts.commands = counts.commands.saturating_add(1);
            count_command(counts, *high, *low)
        }
        [b'>', b' ', ..] => counts.commands = counts.commands.saturating_add(1),
        [b'*', ..] => counts.busy = more(head.starts_with(b"* busy"), counts.busy),
        _ => {}
    }
}

/// Counts a command of the toolkit's class whose instruction has these digits.
fn count_command(counts: &mut Counts, high: u8, low: u8)
    ensures { counts.new ≡ with_instruction high low counts.old }
{
    match (high, low) {
        (b'1', b'2') => counts.fetches = counts.fetches.saturating_add(1),
        (b'1', b'4') => counts.responses = counts.responses.saturating_add(1),
        (b'C', b'2') => counts.envelopes = counts.envelopes.saturating_add(1),
        _ => {}
    }
}

fn more(is_more: bool, count: u64) -> u64
    ensures { result ≡ one_more is_more count }
{
    if is_more {
        count.saturating_add(1)
    } else {
        count
    }
}
