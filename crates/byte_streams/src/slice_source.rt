//! A source over bytes in memory.
ghost use Rattle.std.specs.Prelude.{◌≡◌, ◌≤◌, ◌<◌, ◌↔◌, [], Some, length, take, min, is_err, IfOk, IsErr, OnErr};
ghost use Rattle.std.specs.Io.KnownBytes.{prepend_known};
ghost use Rattle.byte_streams.specs.Planned.{FailsNext, no_calls, with_call};
ghost use Rattle.byte_streams.specs.Streams.{CountsEach};

use crate::planned::is_planned;
use crate::streams::{Failed, Source};
use std::marker::Model;

/// Hands on the bytes of a slice. Exactly those of its calls fail, counted from 1, whose numbers it was given; they take
/// nothing, and every other call hands on as many bytes as fit and are left.
#[derive(Drop)]
pub struct SliceSource<'a> {
    left: &'a [u8],
    fails: &'a [u32],
    calls: u64,
    faults: u64,
}

impl<'a> Model for SliceSource<'a> {
    ghost use Rattle.byte_streams.specs.Planned.{Supply};

    ghost Value = { Supply };

    ghost view = { λ s. record { left = s.left.now; calls = record { failing = s.fails.now; made = s.calls; failed = s.faults } } };
}

impl<'a> SliceSource<'a> {
    /// A source of `text` whose calls with the numbers in `fails` fail.
    pub fn new(text: &'a [u8], fails: &'a [u32]) -> SliceSource<'a>
        ensures { result ≡ record { left = text.now; calls = no_calls fails.now } }
    {
        SliceSource {
            left: text,
            fails,
            calls: 0,
            faults: 0,
        }
    }

    /// How often it was asked.
    pub fn calls(&self) -> u64
        ensures { result ≡ self.now.calls.made }
    {
        self.calls
    }
}

impl Source for SliceSource<'_> {
    ghost faults = { λ source. source.calls.failed };

    ghost left = { λ source. Some source.left };

    fn take(&mut self, out: &mut [u8]) -> Result<usize, Failed>
        ensures within { IfOk result (λ count. count ≤ length out.old) }
        ensures ok { IfOk result (λ count. Some self.old.left ≡ prepend_known (take count out.new)
            (Some self.new.left)) }
        ensures end { IfOk result (λ count. 0 < length out.old → (count ≡ 0) ↔ (self.old.left ≡ [])) }
        ensures err { OnErr result (Some self.new.left ≡ Some self.old.left) }
        ensures cause { CountsEach self.old.calls.failed self.new.calls.failed (IsErr result) }
        ensures fails { IsErr result ↔ FailsNext self.old.calls }
        ensures amount { IfOk result (λ count. count ≡ min (length out.old) (length self.old.left)) }
        ensures calls { self.new.calls ≡ with_call (is_err result) self.old.calls }
    {
        self.calls = self.calls.saturating_add(1);
        if is_planned(self.fails, self.calls) {
            self.faults = self.faults.saturating_add(1);
            return Err(Failed);
        }
        let count = out.len().min(self.left.len());
        let (part, rest) = self.left.split_at(count);
        out[..count].copy_from_slice(part);
        self.left = rest;
        Ok(count)
    }
}
