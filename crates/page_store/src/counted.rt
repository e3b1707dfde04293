//! What is asked of the store below.
ghost use Rattle.std.specs.Prelude.{◌≡◌, ◌+◌, ◌≤◌, ◌<◌, ℕ, Bool, List, Option, true, false, length, slice_index, slice_range, All, IfSome, OnOk, OnErr};
ghost use Rattle.uicc_types.specs.Counts.{Meter};
ghost use Rattle.store_form.specs.Faults.{HasCause};
ghost use Rattle.store_form.specs.Pieces.{IsUsable, IsUsablePiece};
ghost use Rattle.store_form.specs.StoreCalls.{CommitsPieces, HoldsTheSame, PreparesBytes, StaysItself};
ghost use Rattle.update_journal.specs.Calls.{calls_at, calls_to_commit, calls_to_recover, MadeAtMost, MakesCalls};
ghost use Rattle.update_journal.specs.Journal.{is_recovered, stable};
ghost use Rattle.update_journal.specs.Laws.{told_stable, told_own};

use eeprom_model::Eeprom;
use store_form::{Store, StoreFault, Writes};
use update_journal::Journal;

/// A store whose device counts the program calls that come to it with power, in 64 bits; at its end the count stands still. Its calls are
/// those of a store.
pub trait CountedStore {
    ghost use Rattle.store_form.specs.declared.store.TheConstants.{OWN_START, OWN_END};
    ghost use Rattle.update_journal.specs.declared.steps.TheConstants.{MOST_TO_RECOVER};

    /// How many bytes it has. That never changes.
    ghost byte_count: { Self → ℕ };

    /// The byte by which the card's layout tells the kinds of stores apart. That never changes.
    ghost store_mark: { Self → ℕ };

    /// The bytes that it holds for good, where it tells them.
    ghost stable: { Self → Option (List ℕ) };

    /// The counts of its device, and whether that has power.
    ghost meter: { Self → Meter };

    /// How many commits it answered with Ok.
    ghost commits: { Self → ℕ };

    /// No recovery is due.
    ghost recovered: { Self → Bool };

    /// The bytes of its device, where that tells them.
    ghost image: { Self → Option (List ℕ) };

    /// Reads the stable bytes from `at` on into the whole of `out`.
    fn read(&mut self, at: usize, out: &mut [u8]) -> Result<(), StoreFault>
        requires recovered { recovered self.old ≡ true }
        requires usable { IsUsable (byte_count self.old) at (length out.old) }
        ensures ok { OnOk result (IfSome (stable self.old)
            (λ held. out.new ≡ slice_range held at (at + length out.old))) }
        ensures keeps { HoldsTheSame byte_count store_mark stable commits self.old self.new }
        ensures ready { OnOk result (recovered self.new ≡ true) }
        ensures due { OnErr result (recovered self.new ≡ false) }
        ensures calls { (meter self.new).programs ≡ (meter self.old).programs }
        ensures cause { HasCause (meter self.old) (meter self.new) result }
        ensures off { (meter self.old).powered ≡ false →
            (result ≡ Err StoreFault.PowerLost) × (meter self.new ≡ meter self.old)
            × (recovered self.new ≡ recovered self.old) × (image self.new ≡ image self.old) };

    /// Writes all pieces, in order, or none.
    fn commit(&mut self, writes: &Writes) -> Result<(), StoreFault>
        requires recovered { recovered self.old ≡ true }
        requires some { 0 < length writes.now }
        requires usable { All (IsUsablePiece (byte_count self.old)) writes.now }
        ensures writes { CommitsPieces stable commits writes.now self.old self.new result }
        ensures keeps { StaysItself byte_count store_mark stable self.old self.new }
        ensures ready { OnOk result (recovered self.new ≡ true) }
        ensures due { OnErr result (recovered self.new ≡ false) }
        ensures calls { MakesCalls (calls_to_commit writes.now) (meter self.old).programs (meter self.new).programs result }
        ensures cause { HasCause (meter self.old) (meter self.new) result }
        ensures off { (meter self.old).powered ≡ false →
            (result ≡ Err StoreFault.PowerLost) × (meter self.new ≡ meter self.old)
            × (stable self.new ≡ stable self.old) × (recovered self.new ≡ recovered self.old) × (image self.new ≡ image self.old) };

    /// Writes a range that a fault may leave torn.
    fn prepare(&mut self, at: usize, bytes: &[u8]) -> Result<(), StoreFault>
        requires recovered { recovered self.old ≡ true }
        requires usable { IsUsable (byte_count self.old) at (length bytes.now) }
        ensures writes { PreparesBytes stable commits at bytes.now self.old self.new result }
        ensures keeps { StaysItself byte_count store_mark stable self.old self.new }
        ensures ready { OnOk result (recovered self.new ≡ true) }
        ensures due { OnErr result (recovered self.new ≡ false) }
        ensures calls { MakesCalls (calls_at at (length bytes.now)) (meter self.old).programs (meter self.new).programs result }
        ensures cause { HasCause (meter self.old) (meter self.new) result }
        ensures off { (meter self.old).powered ≡ false →
            (result ≡ Err StoreFault.PowerLost) × (meter self.new ≡ meter self.old)
            × (stable self.new ≡ stable self.old) × (recovered self.new ≡ recovered self.old) × (image self.new ≡ image self.old) };

    /// Ends a commit that a fault interrupted, if there is one.
    fn recover(&mut self) -> Result<(), StoreFault>
        ensures keeps { HoldsTheSame byte_count store_mark stable commits self.old self.new }
        ensures ready { OnOk result (recovered self.new ≡ true) }
        ensures due { OnErr result (recovered self.new ≡ false) }
        ensures calls { IfSome (image self.old)
            (λ bytes. MakesCalls (calls_to_recover bytes) (meter self.old).programs (meter self.new).programs result) }
        ensures few_calls { MadeAtMost MOST_TO_RECOVER (meter self.old).programs (meter self.new).programs }
        ensures cause { HasCause (meter self.old) (meter self.new) result }
        ensures off { (meter self.old).powered ≡ false →
            (result ≡ Err StoreFault.PowerLost) × (meter self.new ≡ meter self.old)
            × (recovered self.new ≡ recovered self.old) × (image self.new ≡ image self.old) };

    /// What it tells are all its bytes.
    ghost told_length: { (store : Self) →
        IfSome (stable store) (λ held. length held ≡ byte_count store) };

    /// Its own bytes are `FF` in what it tells.
    ghost own_bytes: { (store : Self) (k : ℕ) → OWN_START ≤ k → k < OWN_END → k < byte_count store →
        IfSome (stable store) (λ held. slice_index held k ≡ 255) };
}

impl<E: Eeprom> CountedStore for Journal<E> {
    ghost byte_count = { λ journal. E.byte_count journal.device };

    ghost store_mark = { λ _. 0 };

    ghost stable = { λ journal. stable (E.contents journal.device) };

    ghost meter = { λ journal. E.meter journal.device };

    ghost commits = { λ journal. journal.commits };

    ghost recovered = { λ journal. is_recovered journal.is_ready (E.contents journal.device) };

    ghost image = { λ journal. E.contents journal.device };

    ghost told_length = { λ journal.
        told_stable (E.contents journal.device) (E.byte_count journal.device) (E.told_length journal.device) };

    ghost own_bytes = { λ journal k low high there.
        told_own (E.contents journal.device) (E.byte_count journal.device) k (E.told_length journal.device) low high there };

    fn read(&mut self, at: usize, out: &mut [u8]) -> Result<(), StoreFault> {
        Store::read(self, at, out)
    }

    fn commit(&mut self, writes: &Writes) -> Result<(), StoreFault> {
        Store::commit(self, writes)
    }

    fn prepare(&mut self, at: usize, bytes: &[u8]) -> Result<(), StoreFault> {
        Store::prepare(self, at, bytes)
    }

    fn recover(&mut self) -> Result<(), StoreFault> {
        Store::recover(self)
    }
}
