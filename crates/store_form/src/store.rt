//! What is asked of a store.
ghost use Rattle.std.specs.Prelude.{◌≡◌, ◌+◌, ◌≤◌, ◌<◌, ℕ, Bool, List, Option, true, false, length, slice_index, slice_range, All, IfSome, OnOk};
ghost use Rattle.uicc_types.specs.Counts.{Meter, armed};
ghost use Rattle.uicc_types.specs.Told.{AreBytes};
ghost use Rattle.store_form.specs.Faults.{HasCause};
ghost use Rattle.store_form.specs.Pieces.{IsUsable, IsUsablePiece};
ghost use Rattle.store_form.specs.StoreCalls.{CommitsPieces, HoldsTheSame, IsAsked, PreparesBytes, StaysItself};

use crate::writes::Writes;
use uicc_types::Plan;

/// The first of a store's own bytes.
pub const OWN_START: usize = 64;

/// The first byte after a store's own bytes.
pub const OWN_END: usize = 832;

/// Why a call of a store was not carried out. After each, `recover` must answer Ok before anything else is asked.
#[derive(Clone, Copy, Debug, PartialEq, Eq)]
pub enum StoreFault {
    /// The memory failed.
    Failed,
    /// Power was lost, or was not there.
    PowerLost,
}

/// Bytes of which a few pieces change at once or not at all, whenever power is lost or the memory fails. Bytes 64 to
/// 831 are the store's own, and no call may name them.
pub trait Store {
    ghost use Rattle.store_form.specs.declared.store.TheConstants.{OWN_START, OWN_END};

    /// How many bytes it has. That never changes.
    ghost byte_count: { Self → ℕ };

    /// The byte by which the card's layout tells the kinds of stores apart. That never changes.
    ghost store_mark: { Self → ℕ };

    /// The bytes that it holds for good, where it tells them: those that a recovery brings back.
    ghost stable: { Self → Option (List ℕ) };

    /// The counts of faults, cuts and plans of its device, and whether that has power.
    ghost meter: { Self → Meter };

    /// How many commits it answered with Ok, in 64 bits; at its end the count stands still.
    ghost commits: { Self → ℕ };

    /// How many reads were asked of it, however they ended, in 64 bits; at its end the count stands still.
    ghost reads: { Self → ℕ };

    /// How many recoveries were asked of it, however they ended, in 64 bits; at its end the count stands still.
    ghost recoveries: { Self → ℕ };

    /// No recovery is due.
    ghost recovered: { Self → Bool };

    /// The byte by which the card's layout tells the kinds of stores apart.
    fn mark(&self) -> u8
        ensures mark { result ≡ store_mark self.now }
        // What it tells are bytes.
        ensures told { IfSome (stable self.now) AreBytes };

    /// Reads the stable bytes from `at` on into the whole of `out`. After a fault `out` holds any bytes.
    fn read(&mut self, at: usize, out: &mut [u8]) -> Result<(), StoreFault>
        requires recovered { recovered self.old ≡ true }
        requires usable { IsUsable (byte_count self.old) at (length out.old) }
        ensures ok { OnOk result (IfSome (stable self.old)
            (λ held. out.new ≡ slice_range held at (at + length out.old))) }
        ensures keeps { HoldsTheSame byte_count store_mark stable commits self.old self.new }
        ensures asked { IsAsked reads recoveries self.old self.new 1 0 }
        ensures ready { OnOk result (recovered self.new ≡ true) }
        ensures cause { HasCause (meter self.old) (meter self.new) result }
        ensures off { (meter self.old).powered ≡ false →
            (result ≡ Err StoreFault.PowerLost) × (meter self.new ≡ meter self.old)
            × (recovered self.new ≡ recovered self.old) };

    /// Writes all pieces, in order, or none: after a fault the stable bytes are those before, or those with all pieces.
    fn commit(&mut self, writes: &Writes) -> Result<(), StoreFault>
        requires recovered { recovered self.old ≡ true }
        requires some { 0 < length writes.now }
        requires usable { All (IsUsablePiece (byte_count self.old)) writes.now }
        ensures writes { CommitsPieces stable commits writes.now self.old self.new result }
        ensures keeps { StaysItself byte_count store_mark stable self.old self.new }
        ensures asked { IsAsked reads recoveries self.old self.new 0 0 }
        ensures ready { OnOk result (recovered self.new ≡ true) }
        ensures cause { HasCause (meter self.old) (meter self.new) result }
        ensures off { (meter self.old).powered ≡ false →
            (result ≡ Err StoreFault.PowerLost) × (meter self.new ≡ meter self.old)
            × (stable self.new ≡ stable self.old) × (recovered self.new ≡ recovered self.old) };

    /// Writes a range that a fault may leave torn. It is for bytes that nothing committed names yet.
    fn prepare(&mut self, at: usize, bytes: &[u8]) -> Result<(), StoreFault>
        requires recovered { recovered self.old ≡ true }
        requires usable { IsUsable (byte_count self.old) at (length bytes.now) }
        ensures writes { PreparesBytes stable commits at bytes.now self.old self.new result }
        ensures keeps { StaysItself byte_count store_mark stable self.old self.new }
        ensures asked { IsAsked reads recoveries self.old self.new 0 0 }
        ensures ready { OnOk result (recovered self.new ≡ true) }
        ensures cause { HasCause (meter self.old) (meter self.new) result }
        ensures off { (meter self.old).powered ≡ false →
            (result ≡ Err StoreFault.PowerLost) × (meter self.new ≡ meter self.old)
            × (stable self.new ≡ stable self.old) × (recovered self.new ≡ recovered self.old) };

    /// Ends a commit that a fault interrupted, if there is one, and makes the store ready.
    fn recover(&mut self) -> Result<(), StoreFault>
        ensures keeps { HoldsTheSame byte_count store_mark stable commits self.old self.new }
        ensures asked { IsAsked reads recoveries self.old self.new 0 1 }
        ensures ready { OnOk result (recovered self.new ≡ true) }
        ensures cause { HasCause (meter self.old) (meter self.new) result }
        ensures off { (meter self.old).powered ≡ false →
            (result ≡ Err StoreFault.PowerLost) × (meter self.new ≡ meter self.old)
            × (recovered self.new ≡ recovered self.old) };

    /// Gives its device power.
    fn power_up(&mut self)
        ensures power { meter self.new ≡ record (meter self.old) { powered = true } }
        ensures keeps { HoldsTheSame byte_count store_mark stable commits self.old self.new }
        ensures asked { IsAsked reads recoveries self.old self.new 0 0 }
        ensures ready { recovered self.new ≡ recovered self.old };

    /// Sets the plan of faults of its device.
    fn arm(&mut self, plan: Plan)
        ensures plan { meter self.new ≡ armed (meter self.old) plan }
        ensures keeps { HoldsTheSame byte_count store_mark stable commits self.old self.new }
        ensures asked { IsAsked reads recoveries self.old self.new 0 0 }
        ensures ready { recovered self.new ≡ recovered self.old };

    /// What it tells are all its bytes.
    ghost told_length: { (store : Self) →
        IfSome (stable store) (λ held. length held ≡ byte_count store) };

    /// Its own bytes are `FF` in what it tells.
    ghost own_bytes: { (store : Self) (k : ℕ) → OWN_START ≤ k → k < OWN_END → k < byte_count store →
        IfSome (stable store) (λ held. slice_index held k ≡ 255) };
}
