//! The events that a row is registered for.
ghost use Rattle.std.specs.Prelude.{◌≡◌, ◌↔◌, false, IsSome, IfOk};
ghost use Rattle.card_state.specs.States.{rows_of};
ghost use Rattle.toolkit_model.specs.Registry.{row_on, is_registered, registers, deregisters, with_code, without_code};

use crate::rows::{is_answered, row_on};
use card_state::events::{has_event, is_event};
use card_state::{Loaded, event_bits_are_codes, states_are_of_entries};
use toolkit_model::RowFault;
use uicc_types::Shelf;
use uicc_types::events::CALL_CONTROL;

fn is_registered(loaded: &Loaded, shelf: Shelf, code: u8) -> bool
    ensures { result ≡ is_registered (rows_of loaded.now) shelf.0 code }
{
    match row_on(loaded, shelf) {
        Some(row) => has_event(row.events, code),
        None => false,
    }
}

/// Whether the codes of the row on this shelf change, and so are to be committed, where it registers for the event of this code.
/// `BadData` where the code is none that an applet may be registered for, then `Taken` where it is that of call control and
/// another row answers that.
pub fn register(loaded: &Loaded, shelf: Shelf, code: u8) -> Result<bool, RowFault>
    requires row { IsSome (row_on (rows_of loaded.now) shelf.0) }
    ensures answer { result ≡ registers (rows_of loaded.now) shelf.0 code }
    ensures change { IfOk result (λ changes. (changes ≡ false) ↔
        (with_code (rows_of loaded.now) shelf.0 code ≡ rows_of loaded.now)) }
{
    // These calls are laws, and do nothing.
    states_are_of_entries();
    event_bits_are_codes();
    if !is_event(code) {
        Err(RowFault::BadData)
    } else if code == CALL_CONTROL && is_answered(loaded, shelf) {
        Err(RowFault::Taken)
    } else {
        Ok(!is_registered(loaded, shelf, code))
    }
}

/// Whether the codes of the row on this shelf change, and so are to be committed, where it is registered for the event of this
/// code no longer. `BadData` where the code is none that an applet may be registered for.
pub fn deregister(loaded: &Loaded, shelf: Shelf, code: u8) -> Result<bool, RowFault>
    requires row { IsSome (row_on (rows_of loaded.now) shelf.0) }
    ensures answer { result ≡ deregisters (rows_of loaded.now) shelf.0 code }
    ensures change { IfOk result (λ changes. (changes ≡ false) ↔
        (without_code (rows_of loaded.now) shelf.0 code ≡ rows_of loaded.now)) }
{
    // This call is a law, and does nothing.
    states_are_of_entries();
    if is_event(code) {
        Ok(is_registered(loaded, shelf, code))
    } else {
        Err(RowFault::BadData)
    }
}
