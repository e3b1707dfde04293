//! A device of the bench: a vector in which faults are planned.
ghost use Rattle.std.specs.Prelude.{◌≡◌, refl, ◌+◌, ◌≤◌, IsTrue, Some, true, false, length, replicate, option_map, slice_range, IfOk, IfSome, OnOk, OnErr, IsErrOf};
ghost use Rattle.list_laws.specs.Patches.{patched, Torn};
ghost use Rattle.uicc_types.specs.Counts.{raised};
ghost use Rattle.uicc_types.specs.Told.{Becomes};
ghost use Rattle.eeprom_model.specs.Faults.{HasCause};
ghost use Rattle.eeprom_model.specs.Ranges.{IsPageWrite};
ghost use Rattle.eeprom_model.specs.Bench.{new_bench, planned_for, cut_bytes, program_outcome, read_outcome, given_plan};

use crate::device::{Eeprom, EepromFault};
use std::alloc::Global;
use std::marker::Model;
use uicc_types::{CutAt, FailAt, OutOfMemory, Plan, are_bytes};

/// A memory of bytes in a vector. It fails and loses power exactly where its plan says.
#[derive(Debug, Drop)]
pub struct BenchEeprom {
    bytes: Vec<u8>,
    powered: bool,
    faults: u64,
    cuts: u64,
    plans: u64,
    latest: Plan,
    plan: Plan,
    settings: u64,
    is_idle: bool,
    programs: u64,
    reads: u64,
    is_fresh: bool,
}

impl Model for BenchEeprom {
    ghost use Rattle.eeprom_model.specs.Faults.{HasCause};
    ghost use Rattle.eeprom_model.specs.Bench.{Bench};

    ghost Value = { Bench };

    ghost view = { λ bench. record {
      bytes = bench.bytes.items;
      meter = record { faults = bench.faults; cuts = bench.cuts; powered = bench.powered; plans = bench.plans; latest = bench.latest; plan = bench.plan; settings = bench.settings; is_idle = bench.is_idle; programs = bench.programs };
      reads = bench.reads;
      is_fresh = bench.is_fresh;
    } };
}

impl BenchEeprom {
    /// A device of `size` bytes `FF` that has power, without a plan. It is the only call that takes memory.
    pub fn new(alloc: Global, size: usize) -> Result<BenchEeprom, OutOfMemory>
        ensures { IfOk result (λ bench. bench ≡ new_bench size) }
    {
        match vec![in alloc; 0xFFu8; size] {
            Ok(bytes) => Ok(BenchEeprom {
                bytes,
                powered: true,
                faults: 0,
                cuts: 0,
                plans: 0,
                latest: Plan::NONE,
                plan: Plan::NONE,
                settings: 0,
                is_idle: true,
                programs: 0,
                reads: 0,
                is_fresh: true,
            }),
            Err(_) => Err(OutOfMemory),
        }
    }
}

// The cut that is planned for the program call of this number.
fn planned_cut(plan: &Plan, number: u64) -> Option<CutAt>
    ensures { result ≡ planned_for (λ cut. cut.call) number plan.now.cut }
{
    plan.cut.filter(|cut| u64::from(cut.call) == number)
}

// The failure that is planned for the program call of this number.
fn planned_failure(plan: &Plan, number: u64) -> Option<FailAt>
    ensures { result ≡ planned_for (λ fail. fail.call) number plan.now.fail }
{
    plan.fail.filter(|fail| u64::from(fail.call) == number)
}

// The failure that is planned for the read call of this number.
fn planned_read_failure(plan: &Plan, number: u64) -> Option<u32>
    ensures { result ≡ planned_for (λ call. call) number plan.now.read_fail }
{
    plan.read_fail.filter(|call| u64::from(*call) == number)
}

#[tactic(auto, unfolding(list_laws::specs::Patches::patched))]
// Puts these bytes in, from `at` on.
fn overwrite(memory: &mut [u8], at: usize, bytes: &[u8])
    requires { at + length bytes.now ≤ length memory.old }
    ensures { memory.new ≡ patched at bytes.now memory.old }
{
    memory[at..at + bytes.len()].copy_from_slice(bytes);
}

#[tactic(auto, unfolding(list_laws::specs::Patches::patched))]
// Puts one byte into `count` places, from `at` on. Faults are rare, and this is out of the way of a call without one.
#[inline(never)]
fn fill(memory: &mut [u8], at: usize, count: usize, byte: u8)
    requires { at + count ≤ length memory.old }
    ensures { memory.new ≡ patched at (replicate count byte) memory.old }
{
    memory[at..at + count].fill(byte);
}

// Puts the first of these bytes in, as many as the cut keeps, and its byte in place of each other.
#[inline(never)]
fn overwrite_in_part(memory: &mut [u8], at: usize, bytes: &[u8], cut: CutAt)
    requires { at + length bytes.now ≤ length memory.old }
    ensures { memory.new ≡ patched at (cut_bytes cut bytes.now) memory.old }
{
    let kept = bytes.len().min(usize::from(cut.kept));
    overwrite(memory, at, &bytes[..kept]);
    fill(memory, at + kept, bytes.len() - kept, cut.rest);
}

impl Eeprom for BenchEeprom {
    ghost byte_count = { λ bench. length bench.bytes };

    ghost contents = { λ bench. Some bench.bytes };

    ghost meter = { λ bench. bench.meter };

    ghost is_fresh = { λ bench. bench.is_fresh };

    ghost told_length = { λ bench. refl };

    fn size(&self) -> usize {
        are_bytes(&self.bytes);
        self.bytes.len()
    }

    #[tactic(auto, unfolding(crate::specs::Bench::read_outcome))]
    fn read(&mut self, at: usize, out: &mut [u8]) -> Result<(), EepromFault>
        requires { at + length out.old ≤ length self.old.bytes }
        ensures ok { OnOk result (out.new ≡ slice_range self.old.bytes at (at + length out.old)) }
        ensures contents { self.new.bytes ≡ self.old.bytes }
        ensures cause { HasCause self.old.meter self.new.meter result }
        ensures off { self.old.meter.powered ≡ false →
            (result ≡ Err EepromFault.PowerLost) × (self.new ≡ self.old) }
        ensures used { self.old.meter.powered ≡ true →
            (self.new.is_fresh ≡ false) × (self.new.meter.is_idle ≡ false) }
        ensures calls { self.new.meter.programs ≡ self.old.meter.programs }
        ensures outcome { read_outcome self.old ≡ record { answer = result; left = self.new } }
    {
        if !self.powered {
            return Err(EepromFault::PowerLost);
        }
        self.is_fresh = false;
        self.is_idle = false;
        self.reads = self.reads.saturating_add(1);
        if planned_read_failure(&self.plan, self.reads).is_some() {
            self.faults = self.faults.saturating_add(1);
            return Err(EepromFault::Failed);
        }
        out.copy_from_slice(&self.bytes[at..at + out.len()]);
        Ok(())
    }

    #[tactic(auto, unfolding(crate::specs::Bench::program_outcome))]
    fn program(&mut self, at: usize, bytes: &[u8]) -> Result<(), EepromFault>
        requires { IsPageWrite (length self.old.bytes) at (length bytes.now) }
        ensures ok { OnOk result (self.new.bytes ≡ patched at bytes.now self.old.bytes) }
        ensures torn { OnErr result (Torn at (length bytes.now) self.old.bytes self.new.bytes) }
        ensures size { length self.new.bytes ≡ length self.old.bytes }
        ensures cause { HasCause self.old.meter self.new.meter result }
        ensures off { self.old.meter.powered ≡ false →
            (result ≡ Err EepromFault.PowerLost) × (self.new ≡ self.old) }
        ensures used { self.old.meter.powered ≡ true →
            (self.new.is_fresh ≡ false) × (self.new.meter.is_idle ≡ false) }
        ensures calls { self.old.meter.powered ≡ true → self.new.meter.programs ≡ raised self.old.meter.programs }
        ensures outcome { program_outcome at bytes.now self.old ≡ record { answer = result; left = self.new } }
    {
        if !self.powered {
            return Err(EepromFault::PowerLost);
        }
        self.is_fresh = false;
        self.is_idle = false;
        self.programs = self.programs.saturating_add(1);
        if let Some(cut) = planned_cut(&self.plan, self.programs) {
            overwrite_in_part(&mut self.bytes, at, bytes, cut);
            self.cuts = self.cuts.saturating_add(1);
            self.powered = false;
            return Err(EepromFault::PowerLost);
        }
        if let Some(fail) = planned_failure(&self.plan, self.programs) {
            fill(&mut self.bytes, at, bytes.len(), fail.rest);
            self.faults = self.faults.saturating_add(1);
            return Err(EepromFault::Failed);
        }
        overwrite(&mut self.bytes, at, bytes);
        Ok(())
    }

    fn power_up(&mut self)
        ensures { self.new ≡ record self.old { meter = record self.old.meter { powered = true } } }
    {
        self.powered = true;
    }

    fn arm(&mut self, plan: Plan)
        ensures { self.new ≡ given_plan plan self.old }
    {
        if plan.names_fault() {
            self.plans = self.plans.saturating_add(1);
            self.latest = plan;
        }
        self.plan = plan;
        self.settings = self.settings.saturating_add(1);
        self.is_idle = true;
        self.programs = 0;
        self.reads = 0;
        self.is_fresh = false;
    }
}
