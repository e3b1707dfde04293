//! The PINs of a section.
ghost use Rattle.std.specs.Prelude.{◌≡◌, ℕ, ◌*◌, ◌<◌, [], length, false, MatchOption, slice_index_or};
ghost use Rattle.card_state.specs.Blank.{absent_pin};
ghost use Rattle.card_state.specs.Decoding.{bytes_at};
ghost use Rattle.layout_entries.specs.Spelling.{pin_spelled};
ghost use Rattle.layout_section.specs.PinSlots.{SpellsPins};
ghost use Rattle.layout_section.specs.Adding.{AddsPin, new_pin, may_have_pin, IsSlotFor};

use crate::bytes::put;
use card_state::places::{PINS, ROWS};
use card_state::sizes::{PIN_COUNT, PIN_WIDTH, TRIES, UNBLOCK_TRIES};
use card_state::{PinSlot, SectionFault};
use layout_entries::spell_pin;
use std::marker::Model;
use uicc_types::Pin8;
use uicc_types::keys::{ADM_1, PIN_1, PIN_2};

/// How many bytes there are for the PIN slots, before the rows.
pub const PINS_LENGTH: usize = ROWS as usize - PINS as usize;

/// The PINs with the keys `01`, `81` and `0A`, so far as they are there. A contract sees those in this order.
#[derive(Drop)]
pub struct Pins {
    slots: [PinSlot; PIN_COUNT],
}

impl Model for Pins {
    ghost use Rattle.std.specs.Prelude.{List};
    ghost use Rattle.card_state.specs.Persistent.{Pin};

    ghost Value = { List Pin };

    ghost use Rattle.layout_section.specs.PinSlots.{pins_of, AreSlots};

    ghost view = { pins_of };

    ghost invariant = { AreSlots };
}

// The slot of this key, if a PIN may have it; that of an administrator is enabled.
fn slot_for(key: u8, enabled: bool) -> Option<usize>
    ensures { MatchOption result (may_have_pin key enabled ≡ false) (IsSlotFor key enabled) }
{
    match key {
        PIN_1 => Some(0),
        PIN_2 => Some(1),
        ADM_1 if enabled => Some(2),
        _ => None,
    }
}

// The slots as they are spelled, one after the other.
fn spell_slots(slots: &[PinSlot]) -> [u8; PINS_LENGTH]
    requires { length slots.now ≡ PIN_COUNT }
    ensures { (k : ℕ) → k < PIN_COUNT →
        bytes_at result (PIN_WIDTH * k) PIN_WIDTH ≡ pin_spelled (slice_index_or slots.now k absent_pin) }
{
    let mut bytes = [0; PINS_LENGTH];
    for slot in 0..PIN_COUNT {
        put(
            &mut bytes,
            PIN_WIDTH * slot,
            spell_pin(&slots[slot]).as_slice(),
        );
    }
    bytes
}

impl Pins {
    /// No PIN.
    pub fn new() -> Pins
        ensures { result ≡ [] }
    {
        Pins {
            slots: [PinSlot::ABSENT; PIN_COUNT],
        }
    }

    /// Adds the PIN of this key, with 3 tries and 10 for its UNBLOCK PIN. `Bad`, with no change, where the key is none
    /// of the three, is there already, or is `0A` and not enabled.
    pub fn add(
        &mut self,
        key: u8,
        value: Pin8,
        enabled: bool,
        unblock: Pin8,
    ) -> Result<(), SectionFault>
        ensures { AddsPin (new_pin key value.0 enabled unblock.0) self.old result self.new }
    {
        let Some(slot) = slot_for(key, enabled) else {
            return Err(SectionFault::Bad);
        };
        if self.slots[slot].key != 0 {
            return Err(SectionFault::Bad);
        }
        self.slots[slot] = PinSlot {
            key,
            enabled,
            tries: TRIES,
            unblock_tries: UNBLOCK_TRIES,
            value,
            unblock,
        };
        Ok(())
    }

    /// The three slots as they are spelled, one after the other.
    pub fn spelled(&self) -> [u8; PINS_LENGTH]
        ensures { SpellsPins self.now result }
    {
        spell_slots(&self.slots)
    }
}
