//! What stands at the card's end of the link.
ghost use Rattle.std.specs.Prelude.{◌≡◌, ◌↔◌, ℕ, Bool, false, List, [], IsErrOf, OnErr};
ghost use Rattle.uicc_types.specs.Counts.{CountsFailure};
ghost use Rattle.t0_link.specs.Transmitting.{Transmits};

use uicc_types::Answer;

/// Why a command was not answered.
#[derive(Clone, Copy, Debug, PartialEq, Eq)]
pub enum LinkFault {
    /// Power was lost while the command was carried out.
    PowerLost,
    /// The card was off.
    NoPower,
}

/// A card that is passed one APDU at a time. It is its own state; what an exchange and a loss of power make of it, it says itself.
pub trait Endpoint {
    ghost use Rattle.uicc_types.specs.declared.answers.Answer.{Answer};

    /// It is on.
    ghost is_on: { Self → Bool };

    /// How often it lost power. The count never falls, and stands still at 2^64 - 1.
    ghost losses: { Self → ℕ };

    /// It answers this APDU so: the card before, the APDU, the answer, and the card after.
    ghost step: { Self → List ℕ → Answer → Self → Type 0 };

    /// It loses power in this APDU: the card before, the APDU, and the card after.
    ghost lost: { Self → List ℕ → Self → Type 0 };

    /// Carries out a command and puts its answer into `out`. `NoPower`, and no change, exactly where it is off. After `PowerLost` it is
    /// off. After either `out` has no data.
    fn transmit(&mut self, apdu: &[u8], out: &mut Answer) -> Result<(), LinkFault>
        ensures moves { Transmits is_on step lost self.old self.new apdu.now result out.new }
        ensures off { (result ≡ Err LinkFault.NoPower) ↔ (is_on self.old ≡ false) }
        ensures count { CountsFailure (losses self.old) (losses self.new) (IsErrOf result LinkFault.PowerLost) }
        ensures empty { OnErr result (out.new.body ≡ []) };
}
