//! Command TPDUs, by the way of their data.
ghost use Rattle.std.specs.Prelude.{◌≡◌, ◌≤◌, length, OnSome};
ghost use Rattle.t0_link.specs.Tpdus.{data_count, apdu_of, is_outgoing, is_passed, transfer_of, transfer_in};

use crate::instructions::{FETCH, GET_RESPONSE, MANAGE_CHANNEL, READ_BINARY, READ_RECORD, STATUS};

/// The way of a command's data.
#[derive(Clone, Copy, Debug, PartialEq, Eq)]
pub enum Transfer {
    /// From the link itself.
    GetResponse,
    /// From the card.
    Outgoing,
    /// To the card, if there are any.
    Incoming,
}

// The data go from the card.
fn is_outgoing(ins: u8, p1: u8) -> bool
    ensures { result ≡ is_outgoing ins p1 }
{
    ins == READ_BINARY
        || ins == READ_RECORD
        || ins == FETCH
        || ins == STATUS
        || (ins == MANAGE_CHANNEL && p1 == 0)
}

impl Transfer {
    /// The way of the data of a command with these INS and P1.
    pub fn of(ins: u8, p1: u8) -> Transfer
        ensures { result ≡ transfer_of ins p1 }
    {
        if ins == GET_RESPONSE {
            Transfer::GetResponse
        } else if is_outgoing(ins, p1) {
            Transfer::Outgoing
        } else {
            Transfer::Incoming
        }
    }

    // How many bytes of data follow a header with this P3.
    fn data_count(self, p3: u8) -> usize
        ensures { result ≡ data_count self p3 }
    {
        match self {
            Transfer::GetResponse | Transfer::Outgoing => 0,
            Transfer::Incoming => usize::from(p3),
        }
    }
}

/// The way of the data of a TPDU. None where the bytes are no TPDU: fewer than a header, or more or fewer data than follow it.
#[tactic(auto, unfolding(crate::specs::Tpdus::transfer_in))]
pub fn read_transfer(tpdu: &[u8]) -> Option<Transfer>
    ensures value { result ≡ transfer_in tpdu.now }
    ensures header { OnSome result (5 ≤ length tpdu.now) }
{
    let [_, ins, p1, _, p3, body @ ..] = tpdu else {
        return None;
    };
    let transfer = Transfer::of(*ins, *p1);
    if body.len() == transfer.data_count(*p3) {
        Some(transfer)
    } else {
        None
    }
}

/// Whether the link passes an APDU for these bytes, and does not answer them by itself.
pub fn is_passed(tpdu: &[u8]) -> bool
    ensures { result ≡ is_passed tpdu.now }
{
    match read_transfer(tpdu) {
        None | Some(Transfer::GetResponse) => false,
        Some(Transfer::Outgoing | Transfer::Incoming) => true,
    }
}

/// The APDU of a TPDU whose data go to the card: the header alone where there are none.
pub fn apdu_of(tpdu: &[u8]) -> &[u8]
    requires { 5 ≤ length tpdu.now }
    ensures { result.now ≡ apdu_of tpdu.now }
{
    if tpdu[4] == 0 { &tpdu[..4] } else { tpdu }
}
