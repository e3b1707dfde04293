//! The keys whose conditions are satisfied.
ghost use Rattle.std.specs.Prelude.{◌≡◌, ◌&&◌, ◌||◌, ◌==◌, not};
ghost use Rattle.card_state.specs.States.{pins_of};
ghost use Rattle.card_state.specs.Used.{HasOwnKeys};
ghost use Rattle.file_model.specs.Access.{keys_seen};

use access_rules::Verified;
use card_state::{Loaded, PinSlot};

// Whether the condition of a slot's key is satisfied: there is a PIN, which is verified or disabled.
fn is_met(slot: &PinSlot, is_verified: bool) -> bool
    ensures { result ≡ (not (slot.now.key == 0) && (is_verified || not slot.now.enabled)) }
{
    // All three are read, since that takes less than a branch for each.
    (slot.key != 0) & (is_verified | !slot.enabled)
}

/// The keys whose conditions are satisfied where these are verified. Each PIN is in the slot of its key.
pub fn keys_seen(loaded: &Loaded, verified: &Verified) -> Verified
    requires own { HasOwnKeys loaded.now }
    ensures { result ≡ keys_seen (pins_of loaded.now) verified.now }
{
    let [first, second, third] = loaded.all_pins() else {
        unreachable!()
    };
    let pin1 = is_met(first, verified.pin1);
    let pin2 = is_met(second, verified.pin2);
    let adm1 = is_met(third, verified.adm1);
    Verified { pin1, pin2, adm1 }
}
