//! All channels of the terminal.
ghost use Rattle.std.specs.Prelude.{◌≡◌, ◌+◌, ◌*◌, ◌≤◌, ◌<◌, [], ◌∷◌, ◌++◌, List, Option, length, position, IfOk, IfSome};
ghost use Rattle.comprehension_tlv.specs.Writing.{spellings};
ghost use Rattle.toolkit_commands.specs.Reading.{details_found};
ghost use Rattle.toolkit_commands.specs.Responses.{result_object};
ghost use Rattle.bip_channels.specs.Commands.{IsProper};
ghost use Rattle.bip_channels.specs.Channels.{BipChannel, none_open, answered, echoed, cut};
ghost use Rattle.bip_channels.specs.Kept.{IsKept, is_closed, listed, kept_statuses, kept_opening, kept_carried, kept_echoed, kept_cut};
ghost use Rattle.bip_channels.specs.Replies.{performed, or_none, response, misread};

use crate::channels::{Channel, Link, MOST_SIZE};
use crate::codes::{NONE_AVAILABLE, SIZE_NOT_AVAILABLE};
use crate::commands::BipCommand;
use crate::reading::read_bip;
use crate::responses::{
    headed, misread, put_error, put_no_channel, put_opened, put_result, put_status,
};
use crate::serving::{close, cut, echo, receive, send};
use comprehension_tlv::TlvWriter;
use std::alloc::Global;
use std::marker::Model;
use toolkit_commands::results::PERFORMED;
use toolkit_commands::{Details, ProactiveFault, found_details};
use uicc_types::{Octets, OutOfMemory};

/// How many channels there can be.
const CHANNELS: usize = 7;

/// The terminal's channels 1 to 7. What they are is told by all that happened on them since they were opened; what is kept
/// of that is the bytes that the card hasn't taken yet.
#[derive(Drop)]
pub struct Bip {
    channels: Vec<Channel>,
}

impl Model for Bip {
    ghost use Rattle.std.specs.Prelude.{◌≡◌, List, length};
    ghost use Rattle.bip_channels.specs.Kept.{Held};

    ghost Value = { List Held };

    ghost view = { λ bip. bip.channels.items };

    ghost invariant = { λ bip. length bip.channels.items ≡ 7 };
}

/// The place of the first channel that isn't open.
#[tactic(auto, using(crate::proofs::SetLemmas::found_below))]
fn first_closed(channels: &[Channel]) -> Option<usize>
    ensures value { result ≡ position is_closed channels.now }
    ensures below { IfSome result (λ place. place < length channels.now) }
{
    channels.iter().position(|channel| channel.is_closed())
}

/// The status of a channel, if it is open. How many objects that is, is told.
fn put_listed(objects: &mut TlvWriter, number: u8, channel: &Channel) -> usize
    requires number { number ≤ 7 }
    requires room { length objects.old ≤ 200 }
    ensures put { objects.new ≡ objects.old ++ spellings (listed number channel.now) }
    ensures size { length objects.new ≤ length objects.old + 4 }
    ensures count { result ≡ length (listed number channel.now) }
    ensures one { result ≤ 1 }
{
    match channel.link() {
        Link::Closed => 0,
        Link::Dropped => {
            put_status(objects, number, true);
            1
        }
        Link::Up => {
            put_status(objects, number, false);
            1
        }
    }
}

/// The status of each open channel, of which the first has this number. How many objects that is, is told.
fn put_statuses(objects: &mut TlvWriter, number: u8, channels: &[Channel]) -> usize
    requires numbers { number + length channels.now ≤ 8 }
    requires room { length objects.old + 4 * length channels.now ≤ 200 }
    ensures put { objects.new ≡ objects.old ++ spellings (kept_statuses number channels.now) }
    ensures count { result ≡ length (kept_statuses number channels.now) }
    ensures few { result ≤ length channels.now }
    ensures size { length objects.new ≤ length objects.old + 4 * length channels.now }
{
    match channels {
        [] => 0,
        [first, others @ ..] => {
            let count = put_listed(objects, number, first);
            count + put_statuses(objects, number + 1, others)
        }
    }
}

/// GET CHANNEL STATUS.
fn tell_statuses(objects: &mut TlvWriter, channels: &[Channel])
    requires seven { length channels.now ≡ 7 }
    requires room { length objects.old ≤ 9 }
    ensures { objects.new ≡ objects.old ++ spellings (performed (or_none (kept_statuses 1 channels.now))) }
{
    put_result(objects, PERFORMED);
    if put_statuses(objects, 1, channels) == 0 {
        put_no_channel(objects)
    }
}

impl Bip {
    /// Channels of which none is open. It takes the memory of all their bytes, and no other call takes any.
    pub fn new(alloc: Global) -> Result<Bip, OutOfMemory>
        ensures { IfOk result (IsKept none_open) }
    {
        let Ok(mut channels) = Vec::with_capacity(alloc, CHANNELS) else {
            return Err(OutOfMemory);
        };
        while channels.len() < CHANNELS {
            let channel = Channel::new(alloc)?;
            channels.push_reserved(channel);
        }
        Ok(Bip { channels })
    }

    /// OPEN CHANNEL.
    fn open_channel(&mut self, size: u16, objects: &mut TlvWriter)
        requires { length objects.old ≤ 9 }
        ensures after { self.new ≡ (kept_opening size self.old).channels }
        ensures put { objects.new ≡ objects.old ++ spellings (kept_opening size self.old).reply }
    {
        let wanted = usize::from(size);
        if wanted < 1 || wanted > MOST_SIZE {
            return put_error(objects, SIZE_NOT_AVAILABLE);
        }
        match first_closed(self.channels.as_slice()) {
            Some(place) => {
                self.channels[place].reset(Link::Up, wanted);
                put_opened(objects, place as u8 + 1, size)
            }
            None => put_error(objects, NONE_AVAILABLE),
        }
    }

    /// Carries a command out, and puts the result and the objects after it into the response.
    #[tactic(auto, unfolding(crate::specs::Kept::kept_carried))]
    fn carry_out(&mut self, command: &BipCommand, objects: &mut TlvWriter)
        requires room { length objects.old ≤ 9 }
        requires proper { IsProper command.now }
        ensures after { self.new ≡ (kept_carried command.now self.old).channels }
        ensures put { objects.new ≡ objects.old ++ spellings (kept_carried command.now self.old).reply }
    {
        match command {
            BipCommand::OpenChannel { size } => self.open_channel(*size, objects),
            BipCommand::CloseChannel { channel } => {
                close(&mut self.channels[usize::from(*channel) - 1], objects)
            }
            BipCommand::ReceiveBytes { channel, count } => receive(
                &mut self.channels[usize::from(*channel) - 1],
                *count,
                objects,
            ),
            BipCommand::SendBytes {
                channel,
                bytes,
                now,
            } => send(
                &mut self.channels[usize::from(*channel) - 1],
                bytes.as_slice(),
                *now,
                objects,
            ),
            BipCommand::ChannelStatus => tell_statuses(objects, self.channels.as_slice()),
        }
    }

    /// The response to a command.
    fn answer(&mut self, details: &Details, command: &BipCommand) -> Octets
        requires { IsProper command.now }
        ensures after { self.new ≡ (kept_carried command.now self.old).channels }
        ensures response { result ≡ response details.now (kept_carried command.now self.old).reply }
    {
        let mut objects = headed(details);
        self.carry_out(command, &mut objects);
        objects.finish_list()
    }

    /// The terminal response to a proactive command, whose bytes these are: details, devices, result and objects. A command
    /// that can't be read changes nothing.
    pub fn command(&mut self, bytes: &[u8]) -> Octets
        requires { length bytes.now ≤ 255 }
        ensures answer { (channels : List (Option BipChannel)) → IsKept channels self.old
            → result ≡ (answered bytes.now channels).response }
        ensures after { (channels : List (Option BipChannel)) → IsKept channels self.old
            → IsKept (answered bytes.now channels).channels self.new }
    {
        match read_bip(bytes) {
            Ok((details, command)) => self.answer(&details, &command),
            Err(fault) => refusal(bytes, fault),
        }
    }

    /// The far end of a channel gives back so many bytes.
    #[tactic(auto, unfolding(crate::specs::Kept::kept_echoed))]
    fn bring_back(&mut self, number: u8, count: u16) -> Option<Octets>
        ensures after { self.new ≡ (kept_echoed number count self.old).channels }
        ensures event { result ≡ (kept_echoed number count self.old).event }
    {
        match number {
            1..=7 => echo(&mut self.channels[usize::from(number) - 1], number, count),
            _ => None,
        }
    }

    /// The link of a channel is dropped.
    #[tactic(auto, unfolding(crate::specs::Kept::kept_cut))]
    fn drop_link(&mut self, number: u8) -> Option<Octets>
        ensures after { self.new ≡ (kept_cut number self.old).channels }
        ensures event { result ≡ (kept_cut number self.old).event }
    {
        match number {
            1..=7 => cut(&mut self.channels[usize::from(number) - 1], number),
            _ => None,
        }
    }

    /// The far end of a channel gives back `count` of the bytes that it was sent, or as many as there are and the channel
    /// has room for. The envelope tells the card how many wait then. None, and no change, exactly where no byte comes
    /// back, or the channel isn't open with its link up.
    pub fn echo(&mut self, channel: u8, count: u16) -> Option<Octets>
        ensures event { (channels : List (Option BipChannel)) → IsKept channels self.old
            → result ≡ (echoed channel count channels).event }
        ensures after { (channels : List (Option BipChannel)) → IsKept channels self.old
            → IsKept (echoed channel count channels).channels self.new }
    {
        self.bring_back(channel, count)
    }

    /// The network drops the link of a channel, which stays open until it is closed. The envelope tells the card. None, and
    /// no change, exactly where the channel isn't open with its link up.
    pub fn cut_link(&mut self, channel: u8) -> Option<Octets>
        ensures event { (channels : List (Option BipChannel)) → IsKept channels self.old
            → result ≡ (cut channel channels).event }
        ensures after { (channels : List (Option BipChannel)) → IsKept channels self.old
            → IsKept (cut channel channels).channels self.new }
    {
        self.drop_link(channel)
    }
}

/// The response to a command that can't be read.
fn refusal(bytes: &[u8], fault: ProactiveFault) -> Octets
    ensures { result ≡ response (details_found bytes.now) (result_object (misread fault) ∷ []) }
{
    let mut objects = headed(&found_details(bytes));
    put_result(&mut objects, misread(fault));
    objects.finish_list()
}
