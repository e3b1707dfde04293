//! A device for trials: it shows the bytes of another one while it is told to. No proof can see which.
ghost use Rattle.std.specs.Prelude.{◌≡◌, None};

use crate::device::{Eeprom, EepromFault};
use std::cell::Cell;
use std::marker::Model;
use uicc_types::Plan;

/// A memory that shows the bytes of another one of its size while a flag is set. It takes each write for itself, its faults and its
/// power are its own, and it tells no contents.
#[derive(Drop)]
pub struct SwitchedEeprom<'a, E: Eeprom + Drop> {
    own: E,
    other: E,
    shows_other: &'a Cell<bool>,
}

/// What a contract sees of it is its own device.
impl<'a, E: Eeprom + Drop> Model for SwitchedEeprom<'a, E> {
    ghost Value = { E };

    ghost view = { λ switched. switched.own };
}

impl<'a, E: Eeprom + Drop> SwitchedEeprom<'a, E> {
    /// A memory over its own device, which shows the other one's bytes while the flag is set.
    pub fn new(own: E, other: E, shows_other: &'a Cell<bool>) -> SwitchedEeprom<'a, E>
        ensures { result ≡ own }
    {
        SwitchedEeprom {
            own,
            other,
            shows_other,
        }
    }
}

impl<E: Eeprom + Drop> Eeprom for SwitchedEeprom<'_, E> {
    ghost byte_count = { λ switched. E.byte_count switched };

    ghost contents = { λ switched. None };

    ghost meter = { λ switched. E.meter switched };

    ghost is_fresh = { λ switched. E.is_fresh switched };

    ghost told_length = { λ switched. tt };

    fn size(&self) -> usize {
        self.own.size()
    }

    fn read(&mut self, at: usize, out: &mut [u8]) -> Result<(), EepromFault> {
        self.own.read(at, out)?;
        if self.shows_other.get() && self.other.size() == self.own.size() {
            let _shown = self.other.read(at, out);
        }
        Ok(())
    }

    fn program(&mut self, at: usize, bytes: &[u8]) -> Result<(), EepromFault> {
        self.own.program(at, bytes)
    }

    fn power_up(&mut self) {
        self.own.power_up();
    }

    fn arm(&mut self, plan: Plan) {
        self.own.arm(plan);
    }
}
