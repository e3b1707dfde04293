//! A sink into memory.
ghost use Rattle.std.specs.Prelude.{◌≡◌, ◌≤◌, ◌<◌, ◌+◌, ◌↔◌, ◌⊎◌, [], Some, length, is_err, IfOk, IsErr, OnOk, OnErr};
ghost use Rattle.std.specs.Io.KnownBytes.{append_known};
ghost use Rattle.uicc_types.specs.Told.{Becomes};
ghost use Rattle.byte_streams.specs.Planned.{FailsNext, no_calls, with_call};
ghost use Rattle.byte_streams.specs.Streams.{CountsEach, TakesFront};

use crate::planned::is_planned;
use crate::streams::{Failed, Sink};
use std::alloc::Global;
use std::marker::Model;
use uicc_types::OutOfMemory;

/// Keeps what it takes. Its room is made when it is made. A call fails, and takes nothing, exactly where its number,
/// counted from 1, is one of those that the sink was given, or where the part exceeds the room.
#[derive(Drop)]
pub struct ListSink {
    taken: Vec<u8>,
    room: usize,
    fails: Vec<u32>,
    calls: u64,
    faults: u64,
}

impl Model for ListSink {
    ghost use Rattle.std.specs.Prelude.{◌≤◌, vec_len, vec_capacity};
    ghost use Rattle.byte_streams.specs.Planned.{Collected};

    ghost Value = { Collected };

    ghost view = { λ s. record { taken = s.taken.items; room = s.room; calls = record { failing = s.fails.items; made = s.calls; failed = s.faults } } };

    ghost invariant = { λ s. (vec_len s.taken ≤ s.room) × (s.room ≤ vec_capacity s.taken) };
}

impl ListSink {
    /// A sink for at most `room` bytes whose calls with the numbers in `fails` fail.
    pub fn new(alloc: Global, room: usize, fails: &[u32]) -> Result<ListSink, OutOfMemory>
        ensures { IfOk result
            (λ sink. sink ≡ record { taken = []; room = room; calls = no_calls fails.now }) }
    {
        let Ok(taken) = Vec::with_capacity(alloc, room) else {
            return Err(OutOfMemory);
        };
        let Ok(fails) = Vec::from_slice(alloc, fails) else {
            return Err(OutOfMemory);
        };
        Ok(ListSink {
            taken,
            room,
            fails,
            calls: 0,
            faults: 0,
        })
    }

    /// The bytes that it has taken.
    pub fn taken(&self) -> &[u8]
        ensures value { result.now ≡ self.now.taken }
        ensures fits { length result.now ≤ self.now.room }
    {
        self.taken.as_slice()
    }

    /// How often it was given a part.
    pub fn calls(&self) -> u64
        ensures { result ≡ self.now.calls.made }
    {
        self.calls
    }
}

impl Sink for ListSink {
    ghost faults = { λ sink. sink.calls.failed };

    ghost taken = { λ sink. Some sink.taken };

    fn put(&mut self, part: &[u8]) -> Result<(), Failed>
        ensures ok { OnOk result (Some self.new.taken ≡ append_known (Some self.old.taken) part.now) }
        ensures err { OnErr result (Becomes (TakesFront part.now) (Some self.old.taken) (Some self.new.taken)) }
        ensures cause { CountsEach self.old.calls.failed self.new.calls.failed (IsErr result) }
        ensures fails { IsErr result ↔ (FailsNext self.old.calls
            ⊎ (self.old.room < length self.old.taken + length part.now)) }
        ensures none_taken { OnErr result (self.new.taken ≡ self.old.taken) }
        ensures calls { self.new.calls ≡ with_call (is_err result) self.old.calls }
        ensures same_room { self.new.room ≡ self.old.room }
    {
        self.calls = self.calls.saturating_add(1);
        let fits = part.len() <= self.room - self.taken.len();
        if is_planned(self.fails.as_slice(), self.calls) || !fits {
            self.faults = self.faults.saturating_add(1);
            return Err(Failed);
        }
        match self.taken.extend_from_slice(part) {
            Ok(()) => Ok(()),
            Err(_) => unreachable!(),
        }
    }
}
