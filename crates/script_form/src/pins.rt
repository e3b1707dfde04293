//! How a script line says what a PIN is, each value in one word.
ghost use Rattle.script_form.specs.Reads.{Reads};
ghost use Rattle.script_form.specs.Values.{IsPinKey, IsPinValue, IsSwitch};

use crate::values::{byte_of, sized_of};
use uicc_types::{Pin8, keys};

/// The reference of a PIN that a card may have.
pub fn key_of(word: &[u8]) -> Option<u8>
    ensures { Reads (IsPinKey word.now) result }
{
    let key = byte_of(word)?;
    match key {
        keys::PIN_1 | keys::PIN_2 | keys::ADM_1 => Some(key),
        _ => None,
    }
}

/// The eight bytes of a PIN, or of its unblock value.
pub fn pin_of(word: &[u8]) -> Option<Pin8>
    ensures { Reads (IsPinValue word.now) result }
{
    let bytes = sized_of::<8>(word)?;
    Some(Pin8(bytes))
}

/// Whether the PIN is enabled, which that of the administrative key always is.
pub fn switch_of(word: &[u8], key: u8) -> Option<bool>
    ensures { Reads (IsSwitch key word.now) result }
{
    match word {
        b"on" => Some(true),
        b"off" if key != keys::ADM_1 => Some(false),
        _ => None,
    }
}
