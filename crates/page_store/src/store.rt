//! The store of pages that move.
ghost use Rattle.std.specs.Prelude.{◌≡◌, ◌+◌, ◌<◌, true, false, length, slice_range, All, IfSome, OnOk, OnErr};
ghost use Rattle.uicc_types.specs.Counts.{armed};
ghost use Rattle.store_form.specs.Faults.{HasCause};
ghost use Rattle.store_form.specs.Pieces.{IsUsable, IsUsablePiece};
ghost use Rattle.store_form.specs.StoreCalls.{CommitsPieces, HoldsTheSame, IsAsked, PreparesBytes, StaysItself};
ghost use Rattle.update_journal.specs.Calls.{calls_at, calls_to_recover, MadeAtMost, MakesCalls};
ghost use Rattle.update_journal.specs.Journal.{stable};
ghost use Rattle.update_journal.specs.declared.steps.TheConstants.{MOST_TO_RECOVER};
ghost use Rattle.page_store.specs.Calls.{calls_to_begin, calls_to_write};
ghost use Rattle.page_store.specs.Commits.{moved_below};
ghost use Rattle.page_store.specs.Pages.{content, map_of};
ghost use Rattle.page_store.specs.Paged.{is_recovered, known_of, table_of};
ghost use Rattle.page_store.specs.Laws.{told_content, told_own};

use crate::paged;
use crate::paged::Known;
use crate::places::{CONTENT_SIZE, DEVICE_SIZE, PAGES};
use eeprom_model::Eeprom;
use std::marker::Model;
use store_form::{Store, StoreFault, Writes};
use uicc_types::Plan;
use update_journal::Journal;

/// A store of 65,536 bytes on a device of 71,680, over a journal in its first pages. What a contract sees of it is its
/// device, what it knows of the map, the counts of its commits, and of the reads and recoveries that were asked of it, and whether
/// the journal takes no recovery to be due.
#[derive(Debug, Drop)]
pub struct PageStore<E: Eeprom> {
    journal: Journal<E>,
    known: Known,
    commits: u64,
    reads: u64,
    recoveries: u64,
}

impl<E: Eeprom> Model for PageStore<E> {
    ghost use Rattle.update_journal.specs.Journal.{stable};
    ghost use Rattle.page_store.specs.Paged.{Paged, IsPaged};

    ghost Value = { Paged E };

    ghost view = { λ store. record {
      device = store.journal.device;
      known = store.known;
      commits = store.commits;
      reads = store.reads;
      recoveries = store.recoveries;
      is_ready = store.journal.is_ready;
    } };

    ghost invariant = { λ store.
        IsPaged (E.byte_count store.journal.device) store.known (stable (E.contents store.journal.device)) };
}

impl<E: Eeprom> PageStore<E> {
    /// A store on this device of 71,680 bytes. A recovery is due.
    pub fn new(eeprom: E) -> PageStore<E>
        requires { E.byte_count eeprom ≡ DEVICE_SIZE }
        ensures { result ≡ record { device = eeprom; known = Known.Nothing; commits = 0; reads = 0; recoveries = 0; is_ready = false } }
    {
        PageStore {
            journal: Journal::new(eeprom),
            known: Known::Nothing,
            commits: 0,
            reads: 0,
            recoveries: 0,
        }
    }

    /// The device, as it is.
    pub fn into_device(self) -> E
        ensures device { result ≡ self.device }
        ensures size { E.byte_count result ≡ DEVICE_SIZE }
    {
        self.journal.into_device()
    }
}

impl<E: Eeprom> Store for PageStore<E> {
    ghost use Rattle.page_store.specs.declared.places.TheConstants.{CONTENT_SIZE};

    ghost byte_count = { λ _. CONTENT_SIZE };

    ghost store_mark = { λ _. 1 };

    ghost stable = { λ store. content (stable (E.contents store.device)) };

    ghost meter = { λ store. E.meter store.device };

    ghost commits = { λ store. store.commits };

    ghost reads = { λ store. store.reads };

    ghost recoveries = { λ store. store.recoveries };

    ghost recovered = { λ store. is_recovered store.known store.is_ready (E.contents store.device) };

    ghost told_length = { λ store. told_content (stable (E.contents store.device)) };

    ghost own_bytes = { λ store k low high _.
        told_own (E.contents store.device) k low high };

    #[tactic(auto, using(crate::proofs::KnownOfLemmas::told_bytes))]
    fn mark(&self) -> u8 {
        // What the journal tells are bytes, which it says with its mark.
        let _mark = self.journal.mark();
        1
    }

    fn read(&mut self, at: usize, out: &mut [u8]) -> Result<(), StoreFault>
        requires recovered { is_recovered self.old.known self.old.is_ready (E.contents self.old.device) ≡ true }
        requires usable { IsUsable CONTENT_SIZE at (length out.old) }
        ensures ok { OnOk result (IfSome (content (stable (E.contents self.old.device)))
            (λ held. out.new ≡ slice_range held at (at + length out.old))) }
        ensures keeps { HoldsTheSame (λ _. CONTENT_SIZE) (λ _. 1) (λ store. content (stable (E.contents store.device))) (λ store. store.commits) self.old self.new }
        ensures asked { IsAsked (λ store. store.reads) (λ store. store.recoveries) self.old self.new 1 0 }
        ensures ready { OnOk result (is_recovered self.new.known self.new.is_ready (E.contents self.new.device) ≡ true) }
        ensures cause { HasCause (E.meter self.old.device) (E.meter self.new.device) result }
        ensures off { (E.meter self.old.device).powered ≡ false →
            (result ≡ Err StoreFault.PowerLost) × (E.meter self.new.device ≡ E.meter self.old.device)
            × (is_recovered self.new.known self.new.is_ready (E.contents self.new.device) ≡ is_recovered self.old.known self.old.is_ready (E.contents self.old.device))
            × (E.contents self.new.device ≡ E.contents self.old.device) }
        // After a fault a recovery is due.
        ensures due { OnErr result (is_recovered self.new.known self.new.is_ready (E.contents self.new.device) ≡ false) }
        // Nothing is programmed, and no page moves.
        ensures calls { (E.meter self.new.device).programs ≡ (E.meter self.old.device).programs }
        ensures pages { self.new.known ≡ self.old.known }
    {
        self.reads = self.reads.saturating_add(1);
        paged::read(&mut self.journal, &self.known, at, out)
    }

    fn commit(&mut self, writes: &Writes) -> Result<(), StoreFault>
        requires recovered { is_recovered self.old.known self.old.is_ready (E.contents self.old.device) ≡ true }
        requires some { 0 < length writes.now }
        requires usable { All (IsUsablePiece CONTENT_SIZE) writes.now }
        ensures writes { CommitsPieces (λ store. content (stable (E.contents store.device))) (λ store. store.commits) writes.now self.old self.new result }
        ensures keeps { StaysItself (λ _. CONTENT_SIZE) (λ _. 1) (λ store. content (stable (E.contents store.device))) self.old self.new }
        ensures asked { IsAsked (λ store. store.reads) (λ store. store.recoveries) self.old self.new 0 0 }
        ensures ready { OnOk result (is_recovered self.new.known self.new.is_ready (E.contents self.new.device) ≡ true) }
        ensures cause { HasCause (E.meter self.old.device) (E.meter self.new.device) result }
        ensures off { (E.meter self.old.device).powered ≡ false →
            (result ≡ Err StoreFault.PowerLost) × (E.meter self.new.device ≡ E.meter self.old.device)
            × (content (stable (E.contents self.new.device)) ≡ content (stable (E.contents self.old.device))) × (is_recovered self.new.known self.new.is_ready (E.contents self.new.device) ≡ is_recovered self.old.known self.old.is_ready (E.contents self.old.device))
            × (E.contents self.new.device ≡ E.contents self.old.device) }
        // After a fault a recovery is due.
        ensures due { OnErr result (is_recovered self.new.known self.new.is_ready (E.contents self.new.device) ≡ false) }
        // A call for each page that is touched, and those of one commit below; where there was no map, those that make one before.
        ensures calls { MakesCalls (calls_to_write self.old.known writes.now) (E.meter self.old.device).programs (E.meter self.new.device).programs result }
        // Each page that is touched lies where it has been free longest, the lowest first. The one that it lay in has been free
        // shortest then.
        ensures pages { OnOk result (self.new.known ≡ Known.Mapped (moved_below writes.now PAGES (table_of self.old.known))) }
        // The map of the device says so.
        ensures map { OnOk result (IfSome (stable (E.contents self.new.device))
            (λ image. map_of image ≡ (moved_below writes.now PAGES (table_of self.old.known)).entries)) }
    {
        paged::commit(&mut self.journal, &mut self.known, writes)?;
        self.commits = self.commits.saturating_add(1);
        Ok(())
    }

    fn prepare(&mut self, at: usize, bytes: &[u8]) -> Result<(), StoreFault>
        requires recovered { is_recovered self.old.known self.old.is_ready (E.contents self.old.device) ≡ true }
        requires usable { IsUsable CONTENT_SIZE at (length bytes.now) }
        ensures writes { PreparesBytes (λ store. content (stable (E.contents store.device))) (λ store. store.commits) at bytes.now self.old self.new result }
        ensures keeps { StaysItself (λ _. CONTENT_SIZE) (λ _. 1) (λ store. content (stable (E.contents store.device))) self.old self.new }
        ensures asked { IsAsked (λ store. store.reads) (λ store. store.recoveries) self.old self.new 0 0 }
        ensures ready { OnOk result (is_recovered self.new.known self.new.is_ready (E.contents self.new.device) ≡ true) }
        ensures cause { HasCause (E.meter self.old.device) (E.meter self.new.device) result }
        ensures off { (E.meter self.old.device).powered ≡ false →
            (result ≡ Err StoreFault.PowerLost) × (E.meter self.new.device ≡ E.meter self.old.device)
            × (content (stable (E.contents self.new.device)) ≡ content (stable (E.contents self.old.device))) × (is_recovered self.new.known self.new.is_ready (E.contents self.new.device) ≡ is_recovered self.old.known self.old.is_ready (E.contents self.old.device))
            × (E.contents self.new.device ≡ E.contents self.old.device) }
        // After a fault a recovery is due.
        ensures due { OnErr result (is_recovered self.new.known self.new.is_ready (E.contents self.new.device) ≡ false) }
        // A call for each page of the range; where there was no map, those that make one before.
        ensures calls { MakesCalls (calls_to_begin self.old.known + calls_at at (length bytes.now)) (E.meter self.old.device).programs (E.meter self.new.device).programs result }
        // No page moves.
        ensures pages { OnOk result (self.new.known ≡ Known.Mapped (table_of self.old.known)) }
    {
        paged::prepare(&mut self.journal, &mut self.known, at, bytes)
    }

    fn recover(&mut self) -> Result<(), StoreFault>
        ensures keeps { HoldsTheSame (λ _. CONTENT_SIZE) (λ _. 1) (λ store. content (stable (E.contents store.device))) (λ store. store.commits) self.old self.new }
        ensures asked { IsAsked (λ store. store.reads) (λ store. store.recoveries) self.old self.new 0 1 }
        ensures ready { OnOk result (is_recovered self.new.known self.new.is_ready (E.contents self.new.device) ≡ true) }
        ensures cause { HasCause (E.meter self.old.device) (E.meter self.new.device) result }
        ensures off { (E.meter self.old.device).powered ≡ false →
            (result ≡ Err StoreFault.PowerLost) × (E.meter self.new.device ≡ E.meter self.old.device)
            × (is_recovered self.new.known self.new.is_ready (E.contents self.new.device) ≡ is_recovered self.old.known self.old.is_ready (E.contents self.old.device))
            × (E.contents self.new.device ≡ E.contents self.old.device) }
        // After a fault a recovery is due still.
        ensures due { OnErr result (is_recovered self.new.known self.new.is_ready (E.contents self.new.device) ≡ false) }
        // Those of a recovery of the journal, at most 18, also where the device tells nothing.
        ensures calls { IfSome (E.contents self.old.device)
            (λ image. MakesCalls (calls_to_recover image) (E.meter self.old.device).programs (E.meter self.new.device).programs result) }
        ensures few_calls { MadeAtMost MOST_TO_RECOVER (E.meter self.old.device).programs (E.meter self.new.device).programs }
        // The map that is known is that of the device, and the free pages stand in ascending order.
        ensures pages { OnOk result (IfSome (stable (E.contents self.new.device)) (λ image. self.new.known ≡ known_of (map_of image))) }
    {
        self.recoveries = self.recoveries.saturating_add(1);
        paged::recover(&mut self.journal, &mut self.known)
    }

    fn power_up(&mut self)
        // Nothing is programmed: the count of program calls stays too.
        ensures power { E.meter self.new.device ≡ record (E.meter self.old.device) { powered = true } }
        ensures keeps { HoldsTheSame (λ _. CONTENT_SIZE) (λ _. 1) (λ store. content (stable (E.contents store.device))) (λ store. store.commits) self.old self.new }
        ensures asked { IsAsked (λ store. store.reads) (λ store. store.recoveries) self.old self.new 0 0 }
        ensures ready { is_recovered self.new.known self.new.is_ready (E.contents self.new.device) ≡ is_recovered self.old.known self.old.is_ready (E.contents self.old.device) }
        // No page moves.
        ensures pages { self.new.known ≡ self.old.known }
    {
        self.journal.power_up();
    }

    fn arm(&mut self, plan: Plan)
        // Program calls are counted from 0 again.
        ensures plan { E.meter self.new.device ≡ armed (E.meter self.old.device) plan }
        ensures keeps { HoldsTheSame (λ _. CONTENT_SIZE) (λ _. 1) (λ store. content (stable (E.contents store.device))) (λ store. store.commits) self.old self.new }
        ensures asked { IsAsked (λ store. store.reads) (λ store. store.recoveries) self.old self.new 0 0 }
        ensures ready { is_recovered self.new.known self.new.is_ready (E.contents self.new.device) ≡ is_recovered self.old.known self.old.is_ready (E.contents self.old.device) }
        // No page moves.
        ensures pages { self.new.known ≡ self.old.known }
    {
        self.journal.arm(plan);
    }
}
