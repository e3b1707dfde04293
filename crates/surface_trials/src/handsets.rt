//! What happens at a handset, the commands on a terminal's channels, and the link.
ghost use Rattle.std.specs.Prelude.{◌≤◌, length};

use bip_channels::{Bip, BipCommand, read_bip};
use script_form::ScriptLine;
use std::alloc::Global;
use t0_link::{Link, LinkFault};
use terminal_side::{Phone, PhoneStep};
use toolkit_commands::{Details, ProactiveFault};
use uicc_types::{ApduBytes, Octets, OutOfMemory};

/// The command that a handset sends next.
fn asked(phone: &mut Phone) -> Option<ApduBytes> {
    match phone.next() {
        Some(PhoneStep::Send(apdu)) => Some(apdu),
        Some(PhoneStep::Reset | PhoneStep::Note(_)) | None => None,
    }
}

/// A handset polls, where its clock is not too far, and its card loses power.
fn poll(phone: &mut Phone) {
    if phone.clock() < 1000 {
        phone.input(&ScriptLine::NetPoll);
    }
    phone.lost_power();
}

fn channels_of_a_terminal(alloc: Global) -> Result<Bip, OutOfMemory> {
    Bip::new(alloc)
}

/// The response to a command on a channel, and whether data came or the link was there to be cut.
fn served(bip: &mut Bip, command: &[u8]) -> (Octets, bool)
    requires { length command.now ≤ 255 }
{
    let response: Octets = bip.command(command);
    let event: Option<Octets> = bip.echo(1, 2);
    let cut: Option<Octets> = bip.cut_link(1);
    (response, event.is_some() || cut.is_some())
}

fn bip_in(bytes: &[u8]) -> Result<(Details, BipCommand), ProactiveFault>
    requires { length bytes.now ≤ 255 }
{
    read_bip(bytes)
}

/// How many bytes a command asks for or sends.
fn count_of(command: BipCommand) -> u16 {
    match command {
        BipCommand::OpenChannel { size } => size,
        BipCommand::CloseChannel { channel: _ } => 0,
        BipCommand::ReceiveBytes { channel: _, count } => u16::from(count),
        BipCommand::SendBytes {
            channel: _,
            bytes,
            now: _,
        } => bytes.as_slice().len() as u16,
        BipCommand::ChannelStatus => 0,
    }
}

fn forget(link: &mut Link) {
    link.clear();
}

fn had_power(fault: LinkFault) -> bool {
    match fault {
        LinkFault::PowerLost => true,
        LinkFault::NoPower => false,
    }
}
