//! The commits of a PIN.
ghost use Rattle.std.specs.Prelude.{◌≡◌, ◌<◌, OnOk, OnErr};
ghost use Rattle.card_state.specs.States.{pins_of, pin_state};
ghost use Rattle.card_state.specs.Used.{HasPin};
ghost use Rattle.card_state.specs.Memory.{Committed, IsMounted, memory};
ghost use Rattle.file_model.specs.Pins.{with_pin};
ghost use Rattle.card_commits.specs.Entries.{HasPinIn, pin_at, with_pin_at};
ghost use Rattle.card_commits.specs.Pins.{changed_pin, HasFewTries, span_of, with_pin_changed, put_pin};
ghost use Rattle.card_commits.specs.Writing.{WritesChange};

use crate::commits::commit;
use crate::pieces::pin_piece;
use card_state::sizes::{PIN_COUNT, TRIES, UNBLOCK_TRIES};
use card_state::{Loaded, PinSlot, pin_ranges};
use layout_laws::{cards_are_known, pins_stand};
use store_form::{Store, StoreFault, Writes};
use uicc_types::Pin8;

/// What a commit sets of a PIN (ETSI TS 102 221, 9.5).
#[derive(Clone, Copy, Debug)]
pub enum PinChange {
    /// How many tries there are, at most 3.
    Tries(u8),
    /// How many tries there are for the UNBLOCK PIN, at most 10.
    UnblockTries(u8),
    /// A new value, and all tries.
    Value(Pin8),
    /// Whether it is enabled, and all tries.
    Enabled(bool),
    /// A new value, enabled, with all tries of both.
    Unblocked(Pin8),
}

impl PinChange {
    // The first of the bytes of an entry that are set, and the one after the last.
    fn span(self) -> (u8, u8)
        ensures { result ≡ span_of self }
    {
        match self {
            PinChange::Tries(_) => (2, 3),
            PinChange::UnblockTries(_) => (3, 4),
            PinChange::Value(_) => (2, 12),
            PinChange::Enabled(_) => (1, 3),
            PinChange::Unblocked(_) => (1, 12),
        }
    }

    // The PIN with this change.
    #[tactic(auto, unfolding(crate::specs::Pins::changed_pin))]
    fn applied(self, pin: PinSlot) -> PinSlot
        ensures { result ≡ changed_pin self pin }
    {
        match self {
            PinChange::Tries(tries) => PinSlot { tries, ..pin },
            PinChange::UnblockTries(unblock_tries) => PinSlot {
                unblock_tries,
                ..pin
            },
            PinChange::Value(value) => PinSlot {
                tries: TRIES,
                value,
                ..pin
            },
            PinChange::Enabled(enabled) => PinSlot {
                enabled,
                tries: TRIES,
                ..pin
            },
            PinChange::Unblocked(value) => PinSlot {
                enabled: true,
                tries: TRIES,
                unblock_tries: UNBLOCK_TRIES,
                value,
                ..pin
            },
        }
    }
}

// The PIN in this slot.
fn pin_of(loaded: &Loaded, slot: u8) -> PinSlot
    requires { HasPinIn loaded.now slot }
    ensures value { result ≡ pin_at loaded.now slot }
    ensures there { HasPin loaded.now slot result }
    ensures low { slot < PIN_COUNT }
{
    loaded.all_pins()[usize::from(slot)]
}

/// Commits a change of the PIN in this slot, and then has it in the table. After a fault the table is as it was.
pub fn change_pin<S: Store>(
    store: &mut S,
    loaded: &mut Loaded,
    slot: u8,
    change: PinChange,
) -> Result<(), StoreFault>
    requires mounted { IsMounted (memory S.Store store.old loaded.old) }
    requires pin { HasPinIn loaded.old slot }
    requires tries { HasFewTries change }
    ensures committed { Committed (memory S.Store store.old loaded.old) (memory S.Store store.new loaded.new) result
        (with_pin_changed change (pin_at loaded.old slot)) }
    ensures writes { WritesChange (memory S.Store store.old loaded.old) (memory S.Store store.new loaded.new) result
        (put_pin change (pins_of loaded.old) (pin_at loaded.old slot)) }
    ensures table { OnOk result
        (loaded.new ≡ with_pin_at loaded.old slot (changed_pin change (pin_at loaded.old slot))) }
    ensures pins { OnOk result
        (pins_of loaded.new ≡ with_pin (pins_of loaded.old) (pin_state (changed_pin change (pin_at loaded.old slot)))) }
    ensures kept { OnErr result (loaded.new ≡ loaded.old) }
{
    // These calls are laws, and do nothing.
    cards_are_known();
    pins_stand();
    let (from, to) = change.span();
    let pin = change.applied(pin_of(loaded, slot));
    pin_ranges(&pin);
    let mut writes = Writes::new();
    pin_piece(slot, &pin, from, to, &mut writes);
    commit(store, loaded, &writes)?;
    loaded.pins[usize::from(slot)] = pin;
    Ok(())
}
