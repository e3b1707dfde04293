//! The marks of the keys that are verified, and the answer that tells how many tries are left.
ghost use Rattle.std.specs.Prelude.{◌≡◌, ◌≢◌};
ghost use Rattle.file_model.specs.Pins.{marked, tries_left};

use access_rules::Verified;
use uicc_types::StatusWord;
use uicc_types::keys::{ADM_1, PIN_1, PIN_2};

/// The marks with this truth for one key's.
pub fn marked(verified: Verified, key: u8, truth: bool) -> Verified
    ensures { result ≡ marked verified key truth }
{
    Verified {
        pin1: if key == PIN_1 { truth } else { verified.pin1 },
        pin2: if key == PIN_2 { truth } else { verified.pin2 },
        adm1: if key == ADM_1 { truth } else { verified.adm1 },
    }
}

/// `63CX`: so many tries are left.
pub fn tries_left(tries: u8) -> StatusWord
    ensures value { result ≡ tries_left tries }
    ensures usual { result.0 ≢ StatusWord.MEMORY_PROBLEM.0 }
{
    StatusWord(0x63C0 + u16::from(tries))
}
