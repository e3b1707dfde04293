//! A command that is spelled already, with another number.
ghost use Rattle.std.specs.Prelude.{◌≡◌, ◌≤◌, ◌+◌, ◌∷◌, ◌++◌, ℕ, length, take, drop, Ok};
ghost use Rattle.toolkit_commands.specs.Table.{details_of, spelled};
ghost use Rattle.toolkit_commands.specs.Reading.{proactive_of};
ghost use Rattle.toolkit_commands.specs.Numbering.{place_of_number};
ghost use Rattle.toolkit_commands.specs.declared.commands.Proactive.{Proactive as ACommand};

use crate::commands::Details;
use uicc_types::{Full, Octets};

/// What comes before a length of one byte that is no length by itself.
const LONG_LENGTH: u8 = 0x81;

/// Where the number stands.
fn place_of_number(bytes: &[u8]) -> usize
    requires { 2 ≤ length bytes.now }
    ensures { result ≡ place_of_number bytes.now }
{
    if bytes[1] == LONG_LENGTH { 5 } else { 4 }
}

/// Writes the bytes with another one at a place.
fn write_changed(bytes: &[u8], place: usize, number: u8, changed: &mut Octets)
    requires inside { place + 1 ≤ length bytes.now }
    requires fits { length bytes.now ≤ 255 }
    ensures { changed.new ≡ take place bytes.now ++ number ∷ drop (place + 1) bytes.now }
{
    *changed = Octets::from_slice(&bytes[..place]);
    match changed.push(number) {
        Ok(()) => {}
        Err(Full) => unreachable!(),
    }
    match changed.append(&bytes[place + 1..]) {
        Ok(()) => {}
        Err(Full) => unreachable!(),
    }
}

/// Writes the bytes of a spelled command with another number, and answers the details that it has then.
pub fn renumber(bytes: &[u8], number: u8, changed: &mut Octets) -> Details
    requires whole { 8 ≤ length bytes.now }
    requires fits { length bytes.now ≤ 255 }
    ensures spelled { (command : ACommand) (old : ℕ) → bytes.now ≡ spelled command old
        → changed.new ≡ spelled command number }
    ensures details { (command : ACommand) (old : ℕ) → bytes.now ≡ spelled command old
        → result ≡ details_of command number }
    ensures read { (command : ACommand) (old : ℕ) → bytes.now ≡ spelled command old
        → proactive_of bytes.now ≡ Ok (details_of command old, command)
        → proactive_of changed.new ≡ Ok (details_of command number, command) }
{
    let place = place_of_number(bytes);
    write_changed(bytes, place, number, changed);
    Details {
        number,
        kind: bytes[place + 1],
        qualifier: bytes[place + 2],
    }
}
