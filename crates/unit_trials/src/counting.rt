//! A device that notes its calls.
ghost use Rattle.std.specs.Prelude.{◌≡◌};

use eeprom_model::{Eeprom, EepromFault};
use std::alloc::Global;
use std::marker::Model;
use uicc_types::Plan;

/// What a device was asked for.
#[derive(Drop)]
pub struct Calls {
    /// The places of its program calls, in order.
    pub programs: Vec<usize>,
    /// The places of its read calls, in order.
    pub reads: Vec<usize>,
    /// How many plans it was given.
    pub plans: usize,
}

/// A device, and what it was asked for. What a contract sees of it is the device.
#[derive(Drop)]
pub struct Counting<E: Eeprom> {
    device: E,
    calls: Calls,
}

impl<E: Eeprom> Model for Counting<E> {
    ghost Value = { E };

    ghost view = { λ counting. counting.device };
}

impl<E: Eeprom> Counting<E> {
    pub fn new(alloc: Global, device: E) -> Counting<E>
        ensures { result ≡ device }
    {
        Counting {
            device,
            calls: Calls {
                programs: Vec::new(alloc),
                reads: Vec::new(alloc),
                plans: 0,
            },
        }
    }

    /// The calls since the last time that they were forgotten.
    pub fn calls(&self) -> &Calls {
        &self.calls
    }

    pub fn forget_calls(&mut self)
        ensures { self.new ≡ self.old }
    {
        self.calls.programs.clear();
        self.calls.reads.clear();
        self.calls.plans = 0;
    }
}

// Where there is no memory for a note the note is missing, and a row differs.
impl<E: Eeprom> Eeprom for Counting<E> {
    ghost byte_count = { λ counting. E.byte_count counting };

    ghost contents = { λ counting. E.contents counting };

    ghost meter = { λ counting. E.meter counting };

    ghost is_fresh = { λ counting. E.is_fresh counting };

    ghost told_length = { λ counting. E.told_length counting };

    fn size(&self) -> usize {
        self.device.size()
    }

    fn read(&mut self, at: usize, out: &mut [u8]) -> Result<(), EepromFault> {
        let _noted = self.calls.reads.push(at);
        self.device.read(at, out)
    }

    fn program(&mut self, at: usize, bytes: &[u8]) -> Result<(), EepromFault> {
        let _noted = self.calls.programs.push(at);
        self.device.program(at, bytes)
    }

    fn power_up(&mut self) {
        self.device.power_up();
    }

    fn arm(&mut self, plan: Plan) {
        self.calls.plans = self.calls.plans.saturating_add(1);
        self.device.arm(plan);
    }
}
