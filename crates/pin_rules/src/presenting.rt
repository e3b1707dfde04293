//! A value is presented (ETSI TS 102 221, 11.1.9 to 11.1.13). That a try is taken and committed before the value is compared is this card's own rule.
ghost use Rattle.std.specs.Prelude.{◌≡◌, ◌≤◌, length};
ghost use Rattle.card_state.specs.Changes.{OfTries, OfUnblockTries, OfUnblocking};
ghost use Rattle.card_state.specs.Memory.{IsMounted, memory};
ghost use Rattle.card_state.specs.States.{pins_of};
ghost use Rattle.file_model.specs.Pins.{marked, pins_put};
ghost use Rattle.card_commits.specs.Pins.{fields_of};
ghost use Rattle.card_commits.specs.Performing.{WritesAll};
ghost use Rattle.pin_rules.specs.Outcomes.{IsTried, ChangesPins};
ghost use Rattle.pin_rules.specs.Trials.{IsHeld, GivesTries, pin_trial, unblock_trial};

use crate::comparing::is_value;
use crate::marks::{marked, tries_left};
use crate::slots::Held;
use access_rules::Verified;
use card_commits::{PinChange, change_pin, tables_tell_states};
use card_state::Loaded;
use layout_laws::cards_are_known;
use store_form::{Store, StoreFault};
use uicc_types::{Pin8, StatusWord};

/// Presents a value against a PIN that has a try. A wrong one takes the key's mark away; a right one brings this change, which
/// gives all tries again, and these marks.
pub fn present_pin<S: Store>(
    store: &mut S,
    loaded: &mut Loaded,
    verified: &mut Verified,
    held: &Held,
    value: &[u8],
    change: PinChange,
    right: Verified,
) -> Result<StatusWord, StoreFault>
    requires mounted { IsMounted (memory S.Store store.old loaded.old) }
    requires held { IsHeld loaded.old held.now }
    requires some { 1 ≤ held.now.pin.tries }
    requires long { length value.now ≡ 8 }
    requires gives { GivesTries change }
    ensures tried { IsTried (pin_trial (pins_of loaded.old) verified.old held.now value.now change right)
        (memory S.Store store.old loaded.old) (memory S.Store store.new loaded.new) verified.old verified.new result }
    ensures writes { WritesAll result (memory S.Store store.old loaded.old) (memory S.Store store.new loaded.new)
        (λ state. pins_put OfTries (fields_of change) held.now.pin.key
        (pin_trial (pins_of loaded.old) verified.old held.now value.now change right).passed) }
    ensures ends { ChangesPins (memory S.Store store.old loaded.old) (memory S.Store store.new loaded.new) result }
{
    // These calls are laws, and do nothing.
    tables_tell_states();
    cards_are_known();
    let tries = held.pin.tries - 1;
    change_pin(store, loaded, held.slot, PinChange::Tries(tries))?;
    if !is_value(value, &held.pin.value) {
        *verified = marked(*verified, held.pin.key, false);
        return Ok(tries_left(tries));
    }
    change_pin(store, loaded, held.slot, change)?;
    *verified = right;
    Ok(StatusWord::DONE)
}

/// Presents a value against the UNBLOCK PIN of a PIN, where that has a try. A wrong one takes the key's mark away; a right one
/// brings the new value of the PIN, which is enabled and verified then, and all tries of both.
pub fn present_unblock<S: Store>(
    store: &mut S,
    loaded: &mut Loaded,
    verified: &mut Verified,
    held: &Held,
    value: &[u8],
    new: Pin8,
) -> Result<StatusWord, StoreFault>
    requires mounted { IsMounted (memory S.Store store.old loaded.old) }
    requires held { IsHeld loaded.old held.now }
    requires some { 1 ≤ held.now.pin.unblock_tries }
    requires long { length value.now ≡ 8 }
    ensures tried { IsTried (unblock_trial (pins_of loaded.old) verified.old held.now value.now new.0)
        (memory S.Store store.old loaded.old) (memory S.Store store.new loaded.new) verified.old verified.new result }
    ensures writes { WritesAll result (memory S.Store store.old loaded.old) (memory S.Store store.new loaded.new)
        (λ state. pins_put OfUnblockTries OfUnblocking held.now.pin.key
        (unblock_trial (pins_of loaded.old) verified.old held.now value.now new.0).passed) }
    ensures ends { ChangesPins (memory S.Store store.old loaded.old) (memory S.Store store.new loaded.new) result }
{
    // These calls are laws, and do nothing.
    tables_tell_states();
    cards_are_known();
    let tries = held.pin.unblock_tries - 1;
    change_pin(store, loaded, held.slot, PinChange::UnblockTries(tries))?;
    if !is_value(value, &held.pin.unblock) {
        *verified = marked(*verified, held.pin.key, false);
        return Ok(tries_left(tries));
    }
    change_pin(store, loaded, held.slot, PinChange::Unblocked(new))?;
    *verified = marked(*verified, held.pin.key, true);
    Ok(StatusWord::DONE)
}
