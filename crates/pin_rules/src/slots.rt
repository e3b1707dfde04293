//! The PIN that a key names.
ghost use Rattle.std.specs.Prelude.{◌≡◌, ◌==◌, ◌&&◌, not, IfSome, option_map};
ghost use Rattle.std.specs.List.{position_from};
ghost use Rattle.card_state.specs.States.{pins_of, pin_state};
ghost use Rattle.file_model.specs.Pins.{pin_found};
ghost use Rattle.pin_rules.specs.Trials.{IsHeld};

use card_state::{Loaded, PinSlot};

/// A PIN, and the slot that holds it.
#[derive(Clone, Copy)]
pub struct Held {
    pub slot: u8,
    pub pin: PinSlot,
}

// The first slot with this key.
fn slot_of(pins: &[PinSlot], key: u8) -> Option<usize>
    ensures { result ≡ position_from (λ pin. not (pin.key == 0) && pin.key == key) 0 pins.now }
{
    pins.iter().position(|pin| pin.key != 0 && pin.key == key)
}

/// The PIN with this key, if it is there.
pub fn find_pin(loaded: &Loaded, key: u8) -> Option<Held>
    ensures value { option_map (λ held. pin_state held.pin) result ≡ pin_found (pins_of loaded.now) key }
    ensures held { IfSome result (IsHeld loaded.now) }
    ensures key { IfSome result (λ held. held.pin.key ≡ key) }
{
    let pins = loaded.all_pins();
    match slot_of(pins, key) {
        Some(slot) => Some(Held {
            slot: slot as u8,
            pin: pins[slot],
        }),
        None => None,
    }
}
