//! The calls of a device with the faults of a store, and writes of any length.
ghost use Rattle.std.specs.Prelude.{◌≡◌, ◌+◌, ◌≤◌, ◌<◌, false, true, length, option_map, slice_range, IfSome, OnOk, OnErr};
ghost use Rattle.list_laws.specs.Patches.{patched, Torn};
ghost use Rattle.uicc_types.specs.Told.{Becomes};
ghost use Rattle.eeprom_model.specs.Ranges.{IsPageWrite};
ghost use Rattle.store_form.specs.Faults.{HasCause};
ghost use Rattle.update_journal.specs.Calls.{calls_at, MakesCalls};

use eeprom_model::{Eeprom, EepromFault, PAGE_LENGTH};
use store_form::StoreFault;

/// Reads the bytes from `at` on into the whole of `out`.
pub fn read<E: Eeprom>(device: &mut E, at: usize, out: &mut [u8]) -> Result<(), StoreFault>
    requires { at + length out.old ≤ E.byte_count device.old }
    ensures ok { OnOk result (IfSome (E.contents device.old)
        (λ held. out.new ≡ slice_range held at (at + length out.old))) }
    ensures contents { E.contents device.new ≡ E.contents device.old }
    ensures size { E.byte_count device.new ≡ E.byte_count device.old }
    ensures cause { HasCause (E.meter device.old) (E.meter device.new) result }
    ensures off { (E.meter device.old).powered ≡ false →
        (result ≡ Err StoreFault.PowerLost) × (E.meter device.new ≡ E.meter device.old) }
    ensures calls { (E.meter device.new).programs ≡ (E.meter device.old).programs }
{
    match device.read(at, out) {
        Ok(()) => Ok(()),
        Err(EepromFault::Failed) => Err(StoreFault::Failed),
        Err(EepromFault::PowerLost) => Err(StoreFault::PowerLost),
    }
}

/// Writes bytes into one page, at least one.
pub fn program<E: Eeprom>(device: &mut E, at: usize, bytes: &[u8]) -> Result<(), StoreFault>
    requires { IsPageWrite (E.byte_count device.old) at (length bytes.now) }
    ensures ok { OnOk result
        (E.contents device.new ≡ option_map (patched at bytes.now) (E.contents device.old)) }
    ensures torn { OnErr result
        (Becomes (Torn at (length bytes.now)) (E.contents device.old) (E.contents device.new)) }
    ensures size { E.byte_count device.new ≡ E.byte_count device.old }
    ensures cause { HasCause (E.meter device.old) (E.meter device.new) result }
    ensures off { (E.meter device.old).powered ≡ false →
        (result ≡ Err StoreFault.PowerLost) × (E.meter device.new ≡ E.meter device.old)
        × (E.contents device.new ≡ E.contents device.old) }
    ensures calls { MakesCalls 1 (E.meter device.old).programs (E.meter device.new).programs result }
{
    match device.program(at, bytes) {
        Ok(()) => Ok(()),
        Err(EepromFault::Failed) => Err(StoreFault::Failed),
        Err(EepromFault::PowerLost) => Err(StoreFault::PowerLost),
    }
}

/// Writes a range, in order, cut at the ends of pages. Of no bytes it makes no call.
pub fn write<E: Eeprom>(device: &mut E, at: usize, bytes: &[u8]) -> Result<(), StoreFault>
    requires { at + length bytes.now ≤ E.byte_count device.old }
    ensures ok { OnOk result
        (E.contents device.new ≡ option_map (patched at bytes.now) (E.contents device.old)) }
    ensures torn { OnErr result
        (Becomes (Torn at (length bytes.now)) (E.contents device.old) (E.contents device.new)) }
    ensures size { E.byte_count device.new ≡ E.byte_count device.old }
    ensures cause { HasCause (E.meter device.old) (E.meter device.new) result }
    ensures off { 0 < length bytes.now → (E.meter device.old).powered ≡ false →
        (result ≡ Err StoreFault.PowerLost) × (E.meter device.new ≡ E.meter device.old)
        × (E.contents device.new ≡ E.contents device.old) }
    ensures calls { MakesCalls (calls_at at (length bytes.now)) (E.meter device.old).programs (E.meter device.new).programs result }
{
    let size = device.size();
    prove!(at <= size && bytes.len() <= size - at);
    let mut place = at;
    let mut rest = bytes;
    while !rest.is_empty() {
        let (front, behind) = rest.split_at(rest.len().min(PAGE_LENGTH - place % PAGE_LENGTH));
        program(device, place, front)?;
        place += front.len();
        rest = behind;
    }
    Ok(())
}
