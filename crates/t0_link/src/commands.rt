//! The commands that the link carries, and the TPDU of each.
ghost use Rattle.std.specs.Prelude.{◌≡◌, ◌≤◌, length};
ghost use Rattle.t0_link.specs.Carrying.{carried, is_carried_by, p3_for, tpdu_of};

use crate::instructions::STATUS;
use crate::tpdus::Transfer;
use apdu_form::{Command, WrongLength, read_command};
use uicc_types::{ApduBytes, Full};

/// Whether these bytes are a command that the link carries: one that reads has no data and has Le, which STATUS alone may lack; any
/// other one may have both; and GET RESPONSE is the link's own.
pub fn is_carried(apdu: &[u8]) -> bool
    ensures { result ≡ carried apdu.now }
{
    match read_command(apdu) {
        Ok(command) => fits(Transfer::of(command.ins, command.p1), &command),
        Err(WrongLength) => false,
    }
}

// Whether a command whose data go this way is carried.
fn fits(transfer: Transfer, command: &Command<'_>) -> bool
    ensures { result ≡ is_carried_by transfer command.now }
{
    match transfer {
        Transfer::GetResponse => false,
        Transfer::Outgoing => {
            command.body.is_empty() && (command.expected.is_some() || command.ins == STATUS)
        }
        Transfer::Incoming => true,
    }
}

// P3: the count of the data that go to the card, or Le.
fn p3_for(transfer: Transfer, command: &Command<'_>) -> u8
    requires { length command.now.body ≤ 255 }
    ensures { result ≡ p3_for transfer command.now }
{
    match transfer {
        Transfer::GetResponse | Transfer::Outgoing => {
            (command.expected.unwrap_or(0) % 256) as u8
        }
        Transfer::Incoming => command.body.len() as u8,
    }
}

/// The TPDU that carries a command.
pub fn tpdu_of(command: &Command<'_>) -> ApduBytes
    requires { length command.now.body ≤ 255 }
    ensures { result ≡ tpdu_of command.now }
{
    let p3 = p3_for(Transfer::of(command.ins, command.p1), command);
    let mut tpdu = ApduBytes::from_slice(&[command.class, command.ins, command.p1, command.p2, p3]);
    match tpdu.append(command.body) {
        Ok(()) => tpdu,
        Err(Full) => unreachable!(),
    }
}
