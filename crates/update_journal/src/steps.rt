//! The calls of the store as steps on its device.
ghost use Rattle.std.specs.Prelude.{◌≡◌, ◌⊎◌, Some, ◌+◌, ◌≤◌, ◌<◌, true, false, length, option_map, slice_range, All, IfSome, OnOk, OnErr};
ghost use Rattle.list_laws.specs.Patches.{patched, Torn};
ghost use Rattle.uicc_types.specs.Told.{Becomes};
ghost use Rattle.store_form.specs.Faults.{HasCause};
ghost use Rattle.store_form.specs.Pieces.{applied, IsUsable, IsUsablePiece, IsWithinBounds};
ghost use Rattle.store_form.specs.Spared.{Rewritten};
ghost use Rattle.update_journal.specs.Entries.{entries};
ghost use Rattle.update_journal.specs.Calls.{calls_at, calls_of, calls_to_commit, calls_to_recover, MadeAtMost, MakesCalls};
ghost use Rattle.update_journal.specs.Journal.{is_open, stable, is_settled, IsUnderWay, IsWhole, ended, committed, recovered_image};

use crate::device::{program, read, write};
use crate::entries::{MOST_ENTRY_BYTES, read_entries, spell};
use eeprom_model::{Eeprom, PAGE_LENGTH};
use store_form::{OWN_END, OWN_START, StoreFault, Writes};
use uicc_types::{ByteList, Full};

/// The place of the gate, which has a page of its own.
pub const GATE: usize = OWN_START;

/// The place of the entries. They end at most where the store's own bytes do.
pub const ENTRIES: usize = 128;

/// A gate with this byte is open.
pub const OPEN: u8 = 0x5A;

/// A gate with this byte is closed, as one with any other but `OPEN` is.
pub const CLOSED: u8 = 0;

/// A recovery makes at most so many program calls: for the pages in which up to 640 bytes in up to four pieces lie, and for the gate.
pub const MOST_TO_RECOVER: usize = 18;

// Writes all pieces into their places, in order.
fn write_pieces<E: Eeprom>(device: &mut E, writes: &Writes) -> Result<(), StoreFault>
    requires { All (IsUsablePiece (E.byte_count device.old)) writes.now }
    ensures ok { OnOk result
        (E.contents device.new ≡ option_map (applied writes.now) (E.contents device.old)) }
    ensures rewritten { OnErr result
        (Becomes (Rewritten writes.now) (E.contents device.old) (E.contents device.new)) }
    ensures size { E.byte_count device.new ≡ E.byte_count device.old }
    ensures cause { HasCause (E.meter device.old) (E.meter device.new) result }
    ensures calls { MakesCalls (calls_of writes.now) (E.meter device.old).programs (E.meter device.new).programs result }
    ensures bounds { IsWithinBounds writes.now }
{
    for at in 0..writes.len() {
        let (place, bytes) = writes.piece(at);
        write(device, usize::from(place), bytes)?;
    }
    Ok(())
}

// Ends the commit of these pieces, whose gate is open: writes them, and closes it.
fn carry_out<E: Eeprom>(device: &mut E, writes: &Writes) -> Result<(), StoreFault>
    requires roomy { OWN_END ≤ E.byte_count device.old }
    requires usable { All (IsUsablePiece (E.byte_count device.old)) writes.now }
    requires under_way { IfSome (E.contents device.old) (IsUnderWay writes.now) }
    ensures stable { stable (E.contents device.new) ≡ stable (E.contents device.old) }
    ensures closed { OnOk result (is_settled (E.contents device.new) ≡ true) }
    ensures size { E.byte_count device.new ≡ E.byte_count device.old }
    ensures cause { HasCause (E.meter device.old) (E.meter device.new) result }
    ensures left { OnOk result
        (E.contents device.new ≡ option_map (ended writes.now) (E.contents device.old)) }
    ensures calls { MakesCalls (calls_of writes.now + 1) (E.meter device.old).programs (E.meter device.new).programs result }
    ensures bounds { IsWithinBounds writes.now }
{
    write_pieces(device, writes)?;
    program(device, GATE, &[CLOSED])
}

// Writes the entries of these pieces into their place. Those of most commits are short, and are spelled in little room.
fn write_entries<E: Eeprom>(device: &mut E, writes: &Writes) -> Result<(), StoreFault>
    requires { OWN_END ≤ E.byte_count device.old }
    ensures ok { OnOk result
        (E.contents device.new ≡ option_map (patched ENTRIES (entries writes.now)) (E.contents device.old)) }
    ensures torn { OnErr result
        (Becomes (Torn ENTRIES (length (entries writes.now))) (E.contents device.old) (E.contents device.new)) }
    ensures size { E.byte_count device.new ≡ E.byte_count device.old }
    ensures cause { HasCause (E.meter device.old) (E.meter device.new) result }
    ensures off { (E.meter device.old).powered ≡ false →
        (result ≡ Err StoreFault.PowerLost) × (E.meter device.new ≡ E.meter device.old)
        × (E.contents device.new ≡ E.contents device.old) }
    ensures bounds { IsWithinBounds writes.now }
    ensures calls { MakesCalls (calls_at ENTRIES (length (entries writes.now))) (E.meter device.old).programs (E.meter device.new).programs result }
{
    let mut entries = ByteList::<PAGE_LENGTH>::new();
    match spell(writes, &mut entries) {
        Ok(()) => write(device, ENTRIES, entries.as_slice()),
        Err(Full) => write_long_entries(device, writes),
    }
}

// Writes the entries of any pieces into their place.
fn write_long_entries<E: Eeprom>(device: &mut E, writes: &Writes) -> Result<(), StoreFault>
    requires { OWN_END ≤ E.byte_count device.old }
    ensures ok { OnOk result
        (E.contents device.new ≡ option_map (patched ENTRIES (entries writes.now)) (E.contents device.old)) }
    ensures torn { OnErr result
        (Becomes (Torn ENTRIES (length (entries writes.now))) (E.contents device.old) (E.contents device.new)) }
    ensures size { E.byte_count device.new ≡ E.byte_count device.old }
    ensures cause { HasCause (E.meter device.old) (E.meter device.new) result }
    ensures off { (E.meter device.old).powered ≡ false →
        (result ≡ Err StoreFault.PowerLost) × (E.meter device.new ≡ E.meter device.old)
        × (E.contents device.new ≡ E.contents device.old) }
    ensures calls { MakesCalls (calls_at ENTRIES (length (entries writes.now))) (E.meter device.old).programs (E.meter device.new).programs result }
{
    let mut entries = ByteList::<MOST_ENTRY_BYTES>::new();
    match spell(writes, &mut entries) {
        Ok(()) => write(device, ENTRIES, entries.as_slice()),
        Err(Full) => unreachable!(),
    }
}

/// Writes the entries, opens the gate, and ends the commit.
pub fn commit<E: Eeprom>(device: &mut E, writes: &Writes) -> Result<(), StoreFault>
    requires roomy { OWN_END ≤ E.byte_count device.old }
    requires settled { is_settled (E.contents device.old) ≡ true }
    requires some { 0 < length writes.now }
    requires usable { All (IsUsablePiece (E.byte_count device.old)) writes.now }
    ensures ok { OnOk result
        (stable (E.contents device.new) ≡ option_map (applied writes.now) (stable (E.contents device.old))) }
    ensures whole { OnErr result (IsWhole writes.now (E.contents device.old) (E.contents device.new)) }
    ensures closed { OnOk result (is_settled (E.contents device.new) ≡ true) }
    ensures size { E.byte_count device.new ≡ E.byte_count device.old }
    ensures cause { HasCause (E.meter device.old) (E.meter device.new) result }
    ensures off { (E.meter device.old).powered ≡ false →
        (result ≡ Err StoreFault.PowerLost) × (E.meter device.new ≡ E.meter device.old)
        × (E.contents device.new ≡ E.contents device.old) }
    ensures left { OnOk result
        (E.contents device.new ≡ option_map (committed writes.now) (E.contents device.old)) }
    ensures calls { MakesCalls (calls_to_commit writes.now) (E.meter device.old).programs (E.meter device.new).programs result }
{
    write_entries(device, writes)?;
    program(device, GATE, &[OPEN])?;
    carry_out(device, writes)
}

/// Ends the commit that the gate and the entries tell of, if they do, and closes the gate. A gate that isn't open stays
/// as it is, and so does every other byte.
pub fn recover<E: Eeprom>(device: &mut E) -> Result<(), StoreFault>
    requires { OWN_END ≤ E.byte_count device.old }
    ensures untouched { IfSome (E.contents device.old)
        (λ image. is_open image ≡ false → E.contents device.new ≡ Some image) }
    ensures stable { stable (E.contents device.new) ≡ stable (E.contents device.old) }
    ensures closed { OnOk result (is_settled (E.contents device.new) ≡ true) }
    ensures size { E.byte_count device.new ≡ E.byte_count device.old }
    ensures cause { HasCause (E.meter device.old) (E.meter device.new) result }
    ensures off { (E.meter device.old).powered ≡ false →
        (result ≡ Err StoreFault.PowerLost) × (E.meter device.new ≡ E.meter device.old)
        × (E.contents device.new ≡ E.contents device.old) }
    ensures left { OnOk result
        (E.contents device.new ≡ option_map recovered_image (E.contents device.old)) }
    ensures calls { IfSome (E.contents device.old)
        (λ image. MakesCalls (calls_to_recover image) (E.meter device.old).programs (E.meter device.new).programs result) }
    ensures few_calls { MadeAtMost MOST_TO_RECOVER (E.meter device.old).programs (E.meter device.new).programs }
{
    let mut gate = [CLOSED; 1];
    read(device, GATE, &mut gate)?;
    if gate[0] != OPEN {
        return Ok(());
    }
    let mut area = [0u8; OWN_END - ENTRIES];
    read(device, ENTRIES, &mut area)?;
    match read_entries(&area, device.size()) {
        Some(writes) => carry_out(device, &writes),
        None => carry_out(device, &Writes::new()),
    }
}

/// Writes a range in place. Of no bytes it makes a read of none, which tells whether there is power.
pub fn prepare<E: Eeprom>(device: &mut E, at: usize, bytes: &[u8]) -> Result<(), StoreFault>
    requires settled { is_settled (E.contents device.old) ≡ true }
    requires usable { IsUsable (E.byte_count device.old) at (length bytes.now) }
    ensures ok { OnOk result
        (stable (E.contents device.new) ≡ option_map (patched at bytes.now) (stable (E.contents device.old))) }
    ensures torn { OnErr result (Becomes (Torn at (length bytes.now))
        (stable (E.contents device.old)) (stable (E.contents device.new))) }
    ensures closed { OnOk result (is_settled (E.contents device.new) ≡ true) }
    ensures size { E.byte_count device.new ≡ E.byte_count device.old }
    ensures cause { HasCause (E.meter device.old) (E.meter device.new) result }
    ensures off { (E.meter device.old).powered ≡ false →
        (result ≡ Err StoreFault.PowerLost) × (E.meter device.new ≡ E.meter device.old)
        × (E.contents device.new ≡ E.contents device.old) }
    ensures left { OnOk result
        (E.contents device.new ≡ option_map (patched at bytes.now) (E.contents device.old)) }
    ensures calls { MakesCalls (calls_at at (length bytes.now)) (E.meter device.old).programs (E.meter device.new).programs result }
{
    if bytes.is_empty() {
        read(device, at, &mut [])
    } else {
        write(device, at, bytes)
    }
}
