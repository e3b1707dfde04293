//! The device over a file.
ghost use Rattle.std.specs.Prelude.{◌≡◌, ◌≤◌, length, is_some};
ghost use Rattle.eeprom_model.specs.Adapter.{is_planned as planned_for};

use crate::device::{Eeprom, EepromFault, PAGE_LENGTH};
use std::fs::File;
use std::io;
use std::io::{Read, Seek, SeekFrom, Write};
use std::marker::Model;
use uicc_types::{CutAt, FailAt, Plan};

/// The first `size` bytes of a file as a memory. Each write is handed on to the disk before the call returns. It fails
/// where the file does, and each call of one without a file is a fault. Besides, it fails and loses power where its plan
/// says. It tells no contents.
#[derive(Debug, Drop)]
pub struct FileEeprom {
    file: Option<File>,
    size: usize,
    powered: bool,
    faults: u64,
    cuts: u64,
    plans: u64,
    latest: Plan,
    plan: Plan,
    settings: u64,
    is_idle: bool,
    programs: u64,
    reads: u64,
    is_fresh: bool,
}

impl Model for FileEeprom {
    ghost use Rattle.std.specs.Prelude.{is_some};
    ghost use Rattle.eeprom_model.specs.Adapter.{Adapter};

    ghost Value = { Adapter };

    ghost view = { λ device. record {
      has_file = is_some device.file;
      size = device.size;
      meter = record { faults = device.faults; cuts = device.cuts; powered = device.powered; plans = device.plans; latest = device.latest; plan = device.plan; settings = device.settings; is_idle = device.is_idle; programs = device.programs };
      reads = device.reads;
      is_fresh = device.is_fresh;
    } };
}

impl FileEeprom {
    ghost use Rattle.std.specs.Prelude.{is_some};
    ghost use Rattle.eeprom_model.specs.Adapter.{new_adapter};

    /// A device over a file of at least `size` bytes, or over none. It has power, and no plan.
    pub fn new(file: Option<File>, size: usize) -> FileEeprom
        ensures { result ≡ new_adapter (is_some file) size }
    {
        FileEeprom {
            file,
            size,
            powered: true,
            faults: 0,
            cuts: 0,
            plans: 0,
            latest: Plan::NONE,
            plan: Plan::NONE,
            settings: 0,
            is_idle: true,
            programs: 0,
            reads: 0,
            is_fresh: true,
        }
    }
}

/// Whether a fault is planned for the call of this number.
fn is_planned(planned: Option<u32>, number: u64) -> bool
    ensures { result ≡ planned_for planned number }
{
    planned.is_some_and(|call| u64::from(call) == number)
}

/// Reads from a place of the file on into the whole of `out`.
fn read_at(file: &mut File, at: usize, out: &mut [u8]) -> io::Result<()> {
    file.seek(SeekFrom::Start(at as u64))?;
    file.read_exact(out)
}

/// Writes to a place of the file, and hands it on to the disk.
fn write_at(file: &mut File, at: usize, bytes: &[u8]) -> io::Result<()> {
    file.seek(SeekFrom::Start(at as u64))?;
    file.write_all(bytes)?;
    file.sync_data()
}

/// Writes what a cut leaves of these bytes: the first of them, as many as it keeps, and its byte in place of each other.
/// The power goes whether or not the file takes it.
fn write_cut(file: &mut Option<File>, at: usize, bytes: &[u8], cut: CutAt)
    requires { length bytes.now ≤ PAGE_LENGTH }
    ensures { is_some file.new ≡ is_some file.old }
{
    let mut page = [cut.rest; PAGE_LENGTH];
    let kept = bytes.len().min(usize::from(cut.kept));
    page[..kept].copy_from_slice(&bytes[..kept]);
    if let Some(file) = file {
        let _written = write_at(file, at, &page[..bytes.len()]);
    }
}

/// Writes what a failure leaves of so many bytes: its byte in place of each.
fn write_failure(file: &mut Option<File>, at: usize, count: usize, fail: FailAt)
    requires { count ≤ PAGE_LENGTH }
    ensures { is_some file.new ≡ is_some file.old }
{
    if let Some(file) = file {
        let _written = write_at(file, at, &[fail.rest; PAGE_LENGTH][..count]);
    }
}

impl FileEeprom {
    ghost use Rattle.std.specs.Prelude.{◌≡◌, ◌≢◌, ◌↔◌, true, Err, IsOk, IsSomeAnd};
    ghost use Rattle.eeprom_model.specs.Faults.{HasCause};
    ghost use Rattle.eeprom_model.specs.Adapter.{left_by};

    /// Counts a failure, where this is one.
    fn told(&mut self, outcome: Option<io::Result<()>>) -> Result<(), EepromFault>
        ensures left { self.new ≡ left_by result self.old }
        ensures fresh { self.new.is_fresh ≡ self.old.is_fresh }
        ensures never_cut { result ≢ Err EepromFault.PowerLost }
        ensures ok { IsOk result ↔ IsSomeAnd outcome (λ done. IsOk done) }
        ensures cause { HasCause self.old.meter self.new.meter result }
    {
        match outcome {
            Some(Ok(())) => Ok(()),
            Some(Err(_)) | None => self.failed(),
        }
    }

    fn failed(&mut self) -> Result<(), EepromFault>
        ensures answer { result ≡ Err EepromFault.Failed }
        ensures left { self.new ≡ left_by result self.old }
        ensures fresh { self.new.is_fresh ≡ self.old.is_fresh }
        ensures cause { HasCause self.old.meter self.new.meter result }
    {
        self.faults = self.faults.saturating_add(1);
        Err(EepromFault::Failed)
    }

    fn lost(&mut self) -> Result<(), EepromFault>
        requires { self.old.meter.powered ≡ true }
        ensures answer { result ≡ Err EepromFault.PowerLost }
        ensures left { self.new ≡ left_by result self.old }
        ensures fresh { self.new.is_fresh ≡ self.old.is_fresh }
        ensures cause { HasCause self.old.meter self.new.meter result }
    {
        self.cuts = self.cuts.saturating_add(1);
        self.powered = false;
        Err(EepromFault::PowerLost)
    }
}

impl Eeprom for FileEeprom {
    ghost use Rattle.std.specs.Prelude.{◌≡◌, ◌≢◌, ◌+◌, ◌≤◌, ◌⊎◌, ◌↔◌, None, true, false, length};
    ghost use Rattle.uicc_types.specs.Counts.{raised};
    ghost use Rattle.eeprom_model.specs.Faults.{HasCause};
    ghost use Rattle.eeprom_model.specs.Ranges.{IsPageWrite};
    ghost use Rattle.eeprom_model.specs.Adapter.{after_read, after_program, left_by, fails_to_read, is_cut_off, fails_to_program, given_plan};

    ghost byte_count = { λ device. device.size };

    ghost contents = { λ device. None };

    ghost meter = { λ device. device.meter };

    ghost is_fresh = { λ device. device.is_fresh };

    ghost told_length = { λ device. tt };

    fn size(&self) -> usize {
        self.size
    }

    fn read(&mut self, at: usize, out: &mut [u8]) -> Result<(), EepromFault>
        requires { at + length out.old ≤ self.old.size }
        ensures size { self.new.size ≡ self.old.size }
        ensures cause { HasCause self.old.meter self.new.meter result }
        ensures off { self.old.meter.powered ≡ false →
            (result ≡ Err EepromFault.PowerLost) × (self.new ≡ self.old) }
        ensures used { self.old.meter.powered ≡ true →
            (self.new.is_fresh ≡ false) × (self.new.meter.is_idle ≡ false) }
        ensures calls { self.new.meter.programs ≡ self.old.meter.programs }
        ensures left { self.old.meter.powered ≡ true → self.new ≡ left_by result (after_read self.old) }
        ensures never_cut { self.old.meter.powered ≡ true → result ≢ Err EepromFault.PowerLost }
        ensures fails { self.old.meter.powered ≡ true
            → (fails_to_read (after_read self.old) ≡ true) ⊎ (self.old.has_file ≡ false)
            → result ≡ Err EepromFault.Failed }
    {
        if !self.powered {
            return Err(EepromFault::PowerLost);
        }
        self.is_fresh = false;
        self.is_idle = false;
        self.reads = self.reads.saturating_add(1);
        if is_planned(self.plan.read_fail, self.reads) {
            return self.failed();
        }
        let outcome = self.file.as_mut().map(|file| read_at(file, at, out));
        self.told(outcome)
    }

    fn program(&mut self, at: usize, bytes: &[u8]) -> Result<(), EepromFault>
        requires { IsPageWrite self.old.size at (length bytes.now) }
        ensures size { self.new.size ≡ self.old.size }
        ensures cause { HasCause self.old.meter self.new.meter result }
        ensures off { self.old.meter.powered ≡ false →
            (result ≡ Err EepromFault.PowerLost) × (self.new ≡ self.old) }
        ensures used { self.old.meter.powered ≡ true →
            (self.new.is_fresh ≡ false) × (self.new.meter.is_idle ≡ false) }
        ensures calls { self.old.meter.powered ≡ true → self.new.meter.programs ≡ raised self.old.meter.programs }
        ensures left { self.old.meter.powered ≡ true → self.new ≡ left_by result (after_program self.old) }
        ensures cut { self.old.meter.powered ≡ true → (result ≡ Err EepromFault.PowerLost) ↔
            (is_cut_off (after_program self.old) ≡ true) }
        ensures fails { self.old.meter.powered ≡ true → is_cut_off (after_program self.old) ≡ false
            → (fails_to_program (after_program self.old) ≡ true) ⊎ (self.old.has_file ≡ false)
            → result ≡ Err EepromFault.Failed }
    {
        if !self.powered {
            return Err(EepromFault::PowerLost);
        }
        self.is_fresh = false;
        self.is_idle = false;
        self.programs = self.programs.saturating_add(1);
        if let Some(cut) = self.plan.cut
            && is_planned(Some(cut.call), self.programs)
        {
            write_cut(&mut self.file, at, bytes, cut);
            return self.lost();
        }
        if let Some(fail) = self.plan.fail
            && is_planned(Some(fail.call), self.programs)
        {
            write_failure(&mut self.file, at, bytes.len(), fail);
            return self.failed();
        }
        let outcome = self.file.as_mut().map(|file| write_at(file, at, bytes));
        self.told(outcome)
    }

    fn power_up(&mut self)
        ensures { self.new ≡ record self.old { meter = record self.old.meter { powered = true } } }
    {
        self.powered = true;
    }

    fn arm(&mut self, plan: Plan)
        ensures { self.new ≡ given_plan plan self.old }
    {
        if plan.names_fault() {
            self.plans = self.plans.saturating_add(1);
            self.latest = plan;
        }
        self.plan = plan;
        self.settings = self.settings.saturating_add(1);
        self.is_idle = true;
        self.programs = 0;
        self.reads = 0;
        self.is_fresh = false;
    }
}
