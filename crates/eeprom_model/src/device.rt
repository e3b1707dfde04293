//! What is asked of an EEPROM, and what can go wrong in it.
ghost use Rattle.std.specs.Prelude.{◌≡◌, ◌+◌, ◌≤◌, ℕ, Bool, List, Option, false, true, length, option_map, slice_range, IfSome, OnOk, OnErr};
ghost use Rattle.list_laws.specs.Patches.{patched, Torn};
ghost use Rattle.uicc_types.specs.Counts.{Meter, armed, raised};
ghost use Rattle.uicc_types.specs.Told.{AreBytes, Becomes};
ghost use Rattle.eeprom_model.specs.Faults.{HasCause};
ghost use Rattle.eeprom_model.specs.Ranges.{IsPageWrite};

use uicc_types::Plan;

/// A page has so many bytes. A write stays in one page.
pub const PAGE_LENGTH: usize = 64;

/// Why a call of a device was not carried out.
#[derive(Clone, Copy, Debug, PartialEq, Eq)]
pub enum EepromFault {
    /// The memory failed.
    Failed,
    /// Power was lost, or was not there.
    PowerLost,
}

/// A memory of bytes in pages. A write that is cut short or fails leaves any bytes in its range.
pub trait Eeprom {
    /// How many bytes it has. That never changes.
    ghost byte_count: { Self → ℕ };

    /// The bytes that it holds, where it tells them.
    ghost contents: { Self → Option (List ℕ) };

    /// Its counts of failures and losses of power, whether it has power, and what it knows of plans and of the calls since one was set.
    ghost meter: { Self → Meter };

    /// No byte of it was read or written, and no plan was set, since it was made.
    ghost is_fresh: { Self → Bool };

    /// How many bytes it has.
    fn size(&self) -> usize
        ensures size { result ≡ byte_count self.now }
        // What it tells are bytes.
        ensures told { IfSome (contents self.now) AreBytes };

    /// Reads the bytes from `at` on into the whole of `out`. After a fault `out` holds any bytes.
    fn read(&mut self, at: usize, out: &mut [u8]) -> Result<(), EepromFault>
        requires { at + length out.old ≤ byte_count self.old }
        ensures ok { OnOk result (IfSome (contents self.old)
            (λ held. out.new ≡ slice_range held at (at + length out.old))) }
        ensures contents { contents self.new ≡ contents self.old }
        ensures size { byte_count self.new ≡ byte_count self.old }
        ensures cause { HasCause (meter self.old) (meter self.new) result }
        ensures off { (meter self.old).powered ≡ false →
            (result ≡ Err EepromFault.PowerLost) × (meter self.new ≡ meter self.old) }
        ensures used { (meter self.old).powered ≡ true →
            (is_fresh self.new ≡ false) × ((meter self.new).is_idle ≡ false) }
        ensures calls { (meter self.new).programs ≡ (meter self.old).programs };

    /// Writes bytes into one page, at least one. After a fault their range holds any bytes, unless there was no power.
    fn program(&mut self, at: usize, bytes: &[u8]) -> Result<(), EepromFault>
        requires { IsPageWrite (byte_count self.old) at (length bytes.now) }
        ensures ok { OnOk result
            (contents self.new ≡ option_map (patched at bytes.now) (contents self.old)) }
        ensures torn { OnErr result
            (Becomes (Torn at (length bytes.now)) (contents self.old) (contents self.new)) }
        ensures size { byte_count self.new ≡ byte_count self.old }
        ensures cause { HasCause (meter self.old) (meter self.new) result }
        ensures off { (meter self.old).powered ≡ false →
            (result ≡ Err EepromFault.PowerLost) × (meter self.new ≡ meter self.old)
            × (contents self.new ≡ contents self.old) }
        ensures used { (meter self.old).powered ≡ true →
            (is_fresh self.new ≡ false) × ((meter self.new).is_idle ≡ false) }
        ensures calls { (meter self.old).powered ≡ true → (meter self.new).programs ≡ raised (meter self.old).programs };

    /// Gives it power.
    fn power_up(&mut self)
        ensures power { meter self.new ≡ record (meter self.old) { powered = true } }
        ensures contents { contents self.new ≡ contents self.old }
        ensures size { byte_count self.new ≡ byte_count self.old }
        ensures fresh { is_fresh self.new ≡ is_fresh self.old };

    /// Sets the plan of faults and its counters of calls to zero. The clause has the count of program calls; that of read calls is the
    /// device's own.
    fn arm(&mut self, plan: Plan)
        ensures plan { meter self.new ≡ armed (meter self.old) plan }
        ensures contents { contents self.new ≡ contents self.old }
        ensures size { byte_count self.new ≡ byte_count self.old }
        ensures used { is_fresh self.new ≡ false };

    /// What it tells are all its bytes.
    ghost told_length: { (device : Self) →
        IfSome (contents device) (λ held. length held ≡ byte_count device) };
}
