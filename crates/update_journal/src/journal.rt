//! The journal as a store.
ghost use Rattle.std.specs.Prelude.{◌≡◌, ◌+◌, ◌≤◌, ◌<◌, Some, true, false, length, option_map, slice_range, All, IfSome, OnOk, OnErr};
ghost use Rattle.list_laws.specs.Patches.{patched};
ghost use Rattle.uicc_types.specs.Counts.{armed};
ghost use Rattle.store_form.specs.Faults.{HasCause};
ghost use Rattle.store_form.specs.Pieces.{IsUsable, IsUsablePiece};
ghost use Rattle.store_form.specs.StoreCalls.{CommitsPieces, HoldsTheSame, IsAsked, PreparesBytes, StaysItself};
ghost use Rattle.update_journal.specs.Calls.{calls_at, calls_to_commit, calls_to_recover, MadeAtMost, MakesCalls};
ghost use Rattle.update_journal.specs.Journal.{is_open, is_recovered, stable, committed, recovered_image};
ghost use Rattle.update_journal.specs.Laws.{told_stable, told_own};

use crate::steps::MOST_TO_RECOVER;
use crate::{device, steps};
use eeprom_model::Eeprom;
use std::marker::Model;
use store_form::{OWN_END, Store, StoreFault, Writes};
use uicc_types::Plan;

/// A store on a device of at least 832 bytes. What a contract sees of it is its device, the counts of its commits, and of the reads and
/// recoveries that were asked of it, and whether it takes no recovery to be due.
#[derive(Debug, Drop)]
pub struct Journal<E: Eeprom> {
    device: E,
    commits: u64,
    reads: u64,
    recoveries: u64,
    is_ready: bool,
}

impl<E: Eeprom> Model for Journal<E> {
    ghost use Rattle.update_journal.specs.Journal.{IsJournaled, Journaled};

    ghost Value = { Journaled E };

    ghost view = { λ journal. record {
      device = journal.device;
      commits = journal.commits;
      reads = journal.reads;
      recoveries = journal.recoveries;
      is_ready = journal.is_ready;
    } };

    ghost invariant = { λ journal.
        IsJournaled (E.byte_count journal.device) (E.meter journal.device) journal.is_ready };
}

impl<E: Eeprom> Journal<E> {
    /// A journal on this device. Whether a commit is to be ended is not known yet: a recovery is due.
    pub fn new(eeprom: E) -> Journal<E>
        requires { OWN_END ≤ E.byte_count eeprom }
        ensures { result ≡ record { device = eeprom; commits = 0; reads = 0; recoveries = 0; is_ready = false } }
    {
        Journal {
            device: eeprom,
            commits: 0,
            reads: 0,
            recoveries: 0,
            is_ready: false,
        }
    }

    /// The device, as it is.
    pub fn into_device(self) -> E
        ensures device { result ≡ self.device }
        ensures size { OWN_END ≤ E.byte_count result }
    {
        self.device
    }
}

impl<E: Eeprom> Store for Journal<E> {
    ghost byte_count = { λ journal. E.byte_count journal.device };

    ghost store_mark = { λ _. 0 };

    ghost stable = { λ journal. stable (E.contents journal.device) };

    ghost meter = { λ journal. E.meter journal.device };

    ghost commits = { λ journal. journal.commits };

    ghost reads = { λ journal. journal.reads };

    ghost recoveries = { λ journal. journal.recoveries };

    ghost recovered = { λ journal. is_recovered journal.is_ready (E.contents journal.device) };

    ghost told_length = { λ journal.
        told_stable (E.contents journal.device) (E.byte_count journal.device) (E.told_length journal.device) };

    ghost own_bytes = { λ journal k low high there.
        told_own (E.contents journal.device) (E.byte_count journal.device) k (E.told_length journal.device) low high there };

    #[tactic(auto, using(crate::proofs::AreBytesLemmas::told_bytes))]
    fn mark(&self) -> u8 {
        // What the device tells are bytes, which it says with its size.
        let _size = self.device.size();
        0
    }

    fn read(&mut self, at: usize, out: &mut [u8]) -> Result<(), StoreFault>
        requires recovered { is_recovered self.old.is_ready (E.contents self.old.device) ≡ true }
        requires usable { IsUsable (E.byte_count self.old.device) at (length out.old) }
        ensures ok { OnOk result (IfSome (stable (E.contents self.old.device))
            (λ held. out.new ≡ slice_range held at (at + length out.old))) }
        ensures keeps { HoldsTheSame (λ journal. E.byte_count journal.device) (λ _. 0) (λ journal. stable (E.contents journal.device)) (λ journal. journal.commits) self.old self.new }
        ensures asked { IsAsked (λ journal. journal.reads) (λ journal. journal.recoveries) self.old self.new 1 0 }
        ensures ready { OnOk result (is_recovered self.new.is_ready (E.contents self.new.device) ≡ true) }
        ensures cause { HasCause (E.meter self.old.device) (E.meter self.new.device) result }
        ensures off { (E.meter self.old.device).powered ≡ false →
            (result ≡ Err StoreFault.PowerLost) × (E.meter self.new.device ≡ E.meter self.old.device)
            × (is_recovered self.new.is_ready (E.contents self.new.device) ≡ is_recovered self.old.is_ready (E.contents self.old.device))
            × (E.contents self.new.device ≡ E.contents self.old.device) }
        // After a fault a recovery is due.
        ensures due { OnErr result (is_recovered self.new.is_ready (E.contents self.new.device) ≡ false) }
        // Nothing is programmed.
        ensures calls { (E.meter self.new.device).programs ≡ (E.meter self.old.device).programs }
        ensures left { E.contents self.new.device ≡ E.contents self.old.device }
    {
        self.reads = self.reads.saturating_add(1);
        match device::read(&mut self.device, at, out) {
            Ok(()) => Ok(()),
            Err(fault) => {
                self.is_ready = false;
                Err(fault)
            }
        }
    }

    fn commit(&mut self, writes: &Writes) -> Result<(), StoreFault>
        requires recovered { is_recovered self.old.is_ready (E.contents self.old.device) ≡ true }
        requires some { 0 < length writes.now }
        requires usable { All (IsUsablePiece (E.byte_count self.old.device)) writes.now }
        ensures writes { CommitsPieces (λ journal. stable (E.contents journal.device)) (λ journal. journal.commits) writes.now self.old self.new result }
        ensures keeps { StaysItself (λ journal. E.byte_count journal.device) (λ _. 0) (λ journal. stable (E.contents journal.device)) self.old self.new }
        ensures asked { IsAsked (λ journal. journal.reads) (λ journal. journal.recoveries) self.old self.new 0 0 }
        ensures ready { OnOk result (is_recovered self.new.is_ready (E.contents self.new.device) ≡ true) }
        ensures cause { HasCause (E.meter self.old.device) (E.meter self.new.device) result }
        ensures off { (E.meter self.old.device).powered ≡ false →
            (result ≡ Err StoreFault.PowerLost) × (E.meter self.new.device ≡ E.meter self.old.device)
            × (stable (E.contents self.new.device) ≡ stable (E.contents self.old.device)) × (is_recovered self.new.is_ready (E.contents self.new.device) ≡ is_recovered self.old.is_ready (E.contents self.old.device))
            × (E.contents self.new.device ≡ E.contents self.old.device) }
        // After a fault a recovery is due.
        ensures due { OnErr result (is_recovered self.new.is_ready (E.contents self.new.device) ≡ false) }
        // A call for each page of the entries and of the pieces, and two for the gate.
        ensures calls { MakesCalls (calls_to_commit writes.now) (E.meter self.old.device).programs (E.meter self.new.device).programs result }
        // Each byte of the device, also of the journal's own.
        ensures left { OnOk result (E.contents self.new.device ≡ option_map (committed writes.now) (E.contents self.old.device)) }
    {
        self.is_ready = false;
        steps::commit(&mut self.device, writes)?;
        self.is_ready = true;
        self.commits = self.commits.saturating_add(1);
        Ok(())
    }

    fn prepare(&mut self, at: usize, bytes: &[u8]) -> Result<(), StoreFault>
        requires recovered { is_recovered self.old.is_ready (E.contents self.old.device) ≡ true }
        requires usable { IsUsable (E.byte_count self.old.device) at (length bytes.now) }
        ensures writes { PreparesBytes (λ journal. stable (E.contents journal.device)) (λ journal. journal.commits) at bytes.now self.old self.new result }
        ensures keeps { StaysItself (λ journal. E.byte_count journal.device) (λ _. 0) (λ journal. stable (E.contents journal.device)) self.old self.new }
        ensures asked { IsAsked (λ journal. journal.reads) (λ journal. journal.recoveries) self.old self.new 0 0 }
        ensures ready { OnOk result (is_recovered self.new.is_ready (E.contents self.new.device) ≡ true) }
        ensures cause { HasCause (E.meter self.old.device) (E.meter self.new.device) result }
        ensures off { (E.meter self.old.device).powered ≡ false →
            (result ≡ Err StoreFault.PowerLost) × (E.meter self.new.device ≡ E.meter self.old.device)
            × (stable (E.contents self.new.device) ≡ stable (E.contents self.old.device)) × (is_recovered self.new.is_ready (E.contents self.new.device) ≡ is_recovered self.old.is_ready (E.contents self.old.device))
            × (E.contents self.new.device ≡ E.contents self.old.device) }
        // After a fault a recovery is due.
        ensures due { OnErr result (is_recovered self.new.is_ready (E.contents self.new.device) ≡ false) }
        // A call for each page of the range.
        ensures calls { MakesCalls (calls_at at (length bytes.now)) (E.meter self.old.device).programs (E.meter self.new.device).programs result }
        // Each byte of the device, also of the journal's own.
        ensures left { OnOk result (E.contents self.new.device ≡ option_map (patched at bytes.now) (E.contents self.old.device)) }
    {
        self.is_ready = false;
        steps::prepare(&mut self.device, at, bytes)?;
        self.is_ready = true;
        Ok(())
    }

    fn recover(&mut self) -> Result<(), StoreFault>
        ensures keeps { HoldsTheSame (λ journal. E.byte_count journal.device) (λ _. 0) (λ journal. stable (E.contents journal.device)) (λ journal. journal.commits) self.old self.new }
        ensures asked { IsAsked (λ journal. journal.reads) (λ journal. journal.recoveries) self.old self.new 0 1 }
        ensures ready { OnOk result (is_recovered self.new.is_ready (E.contents self.new.device) ≡ true) }
        ensures cause { HasCause (E.meter self.old.device) (E.meter self.new.device) result }
        ensures off { (E.meter self.old.device).powered ≡ false →
            (result ≡ Err StoreFault.PowerLost) × (E.meter self.new.device ≡ E.meter self.old.device)
            × (is_recovered self.new.is_ready (E.contents self.new.device) ≡ is_recovered self.old.is_ready (E.contents self.old.device))
            × (E.contents self.new.device ≡ E.contents self.old.device) }
        // Where the gate isn't open no byte changes, also where it fails.
        ensures untouched { IfSome (E.contents self.old.device)
            (λ image. is_open image ≡ false → E.contents self.new.device ≡ Some image) }
        // After a fault a recovery is due still.
        ensures due { OnErr result (is_recovered self.new.is_ready (E.contents self.new.device) ≡ false) }
        // A call for each page of the pieces that are to be written, and one for the gate; none where the gate isn't open.
        ensures calls { IfSome (E.contents self.old.device)
            (λ image. MakesCalls (calls_to_recover image) (E.meter self.old.device).programs (E.meter self.new.device).programs result) }
        // At most 18 calls, also where the device tells nothing.
        ensures few_calls { MadeAtMost MOST_TO_RECOVER (E.meter self.old.device).programs (E.meter self.new.device).programs }
        // Each byte of the device, also of the journal's own.
        ensures left { OnOk result (E.contents self.new.device ≡ option_map recovered_image (E.contents self.old.device)) }
    {
        self.recoveries = self.recoveries.saturating_add(1);
        self.is_ready = false;
        steps::recover(&mut self.device)?;
        self.is_ready = true;
        Ok(())
    }

    fn power_up(&mut self)
        // Nothing is programmed: the count of program calls stays too.
        ensures power { E.meter self.new.device ≡ record (E.meter self.old.device) { powered = true } }
        ensures keeps { HoldsTheSame (λ journal. E.byte_count journal.device) (λ _. 0) (λ journal. stable (E.contents journal.device)) (λ journal. journal.commits) self.old self.new }
        ensures asked { IsAsked (λ journal. journal.reads) (λ journal. journal.recoveries) self.old self.new 0 0 }
        ensures ready { is_recovered self.new.is_ready (E.contents self.new.device) ≡ is_recovered self.old.is_ready (E.contents self.old.device) }
        ensures left { E.contents self.new.device ≡ E.contents self.old.device }
    {
        self.device.power_up();
    }

    fn arm(&mut self, plan: Plan)
        // Program calls are counted from 0 again.
        ensures plan { E.meter self.new.device ≡ armed (E.meter self.old.device) plan }
        ensures keeps { HoldsTheSame (λ journal. E.byte_count journal.device) (λ _. 0) (λ journal. stable (E.contents journal.device)) (λ journal. journal.commits) self.old self.new }
        ensures asked { IsAsked (λ journal. journal.reads) (λ journal. journal.recoveries) self.old self.new 0 0 }
        ensures ready { is_recovered self.new.is_ready (E.contents self.new.device) ≡ is_recovered self.old.is_ready (E.contents self.old.device) }
        ensures left { E.contents self.new.device ≡ E.contents self.old.device }
    {
        self.device.arm(plan);
    }
}
