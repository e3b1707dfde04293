//! A sink that keeps of a trace what is counted in it, and nothing else.
ghost use Rattle.std.specs.Prelude.{◌≡◌, [], Some, IsErr, OnErr, OnOk};
ghost use Rattle.std.specs.Io.KnownBytes.{append_known};
ghost use Rattle.uicc_types.specs.Told.{Becomes};
ghost use Rattle.byte_streams.specs.Streams.{CountsEach, TakesFront};
ghost use Rattle.long_runs.specs.Walks.{counted_in};

use crate::counts::Counts;
use crate::told_text::{Part, ToldText};
use crate::walk::Walk;
use byte_streams::{Failed, Sink};
use std::marker::Model;

/// Counts the lines of a trace as they are put, in parts of any size. It never fails, and it takes no memory.
#[derive(Drop)]
pub struct CountingSink {
    walk: Walk,
    text: ToldText,
}

impl Model for CountingSink {
    ghost use Rattle.std.specs.Prelude.{◌≡◌, ℕ, List, fold};
    ghost use Rattle.long_runs.specs.Walks.{start, step};

    ghost Value = { List ℕ };

    ghost view = { λ sink. sink.text.bytes };

    ghost invariant = { λ sink. sink.walk ≡ fold step start sink.text.bytes };
}

impl CountingSink {
    /// A sink that was given nothing yet.
    pub fn new() -> Self
        ensures { result ≡ [] }
    {
        CountingSink {
            walk: Walk::new(),
            text: ToldText::new(),
        }
    }

    /// The counts of what it was given.
    #[tactic(auto, unfolding(crate::specs::Walks::counted_in))]
    pub fn counts(&self) -> Counts
        ensures { result ≡ counted_in self.now }
    {
        self.walk.counts
    }
}

impl Sink for CountingSink {
    ghost faults = { λ sink. 0 };

    ghost taken = { λ sink. Some sink };

    fn put(&mut self, part: &[u8]) -> Result<(), Failed>
        ensures ok { OnOk result (Some self.new ≡ append_known (Some self.old) part.now) }
        ensures err { OnErr result (Becomes (TakesFront part.now) (Some self.old) (Some self.new)) }
        ensures cause { CountsEach 0 0 (IsErr result) }
    {
        self.walk.follow(part);
        self.text = self.text.then(&Part { bytes: part });
        Ok(())
    }
}
