//! What every source and every sink keeps.
ghost use Rattle.std.specs.Prelude.{◌≡◌, ◌≤◌, ◌<◌, ◌↔◌, ℕ, List, [], Option, length, take, IfOk, IfSome, IsErr, OnOk, OnErr};
ghost use Rattle.std.specs.Io.KnownBytes.{append_known, prepend_known};
ghost use Rattle.uicc_types.specs.Told.{Becomes};
ghost use Rattle.byte_streams.specs.Streams.{CountsEach, TakesFront};

/// A source or a sink failed in this call. It has counted the fault.
#[derive(Debug, Clone, Copy, PartialEq, Eq)]
pub struct Failed;

/// Where bytes come from, in pieces of any size.
pub trait Source {
    /// How often the source has failed: each failure counts once, and nothing else does. The count stands still at 2^64 - 1.
    ghost faults: { Self → ℕ };

    /// The bytes that are left, where the source tells them.
    ghost left: { Self → Option (List ℕ) };

    /// Puts the next bytes at the front of `out` and answers how many they are. For an `out` that isn't empty, 0 is the
    /// end of the input. After `Failed` nothing was taken, and `out` holds any bytes.
    fn take(&mut self, out: &mut [u8]) -> Result<usize, Failed>
        ensures within { IfOk result (λ count. count ≤ length out.old) }
        ensures ok { IfOk result (λ count. left self.old ≡ prepend_known (take count out.new) (left self.new)) }
        ensures end { IfOk result (λ count. 0 < length out.old
            → IfSome (left self.old) (λ rest. (count ≡ 0) ↔ (rest ≡ []))) }
        ensures err { OnErr result (left self.new ≡ left self.old) }
        ensures cause { CountsEach (faults self.old) (faults self.new) (IsErr result) };
}

/// Where bytes go.
pub trait Sink {
    /// How often the sink has failed: each failure counts once, and nothing else does. The count stands still at 2^64 - 1.
    ghost faults: { Self → ℕ };

    /// The bytes that were taken, where the sink tells them.
    ghost taken: { Self → Option (List ℕ) };

    /// Takes the whole of `part`, or fails and has taken the beginning of it, be it none or all.
    fn put(&mut self, part: &[u8]) -> Result<(), Failed>
        ensures ok { OnOk result (taken self.new ≡ append_known (taken self.old) part.now) }
        ensures err { OnErr result (Becomes (TakesFront part.now) (taken self.old) (taken self.new)) }
        ensures cause { CountsEach (faults self.old) (faults self.new) (IsErr result) };
}
