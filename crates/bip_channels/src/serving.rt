//! What a command does to one channel, and what the terminal then replies.
ghost use Rattle.std.specs.Prelude.{◌≡◌, ◌+◌, ◌≤◌, ◌++◌, length, true, if◌then◌else◌};
ghost use Rattle.comprehension_tlv.specs.Writing.{spellings};
ghost use Rattle.bip_channels.specs.Channels.{Outcome, Noted};
ghost use Rattle.bip_channels.specs.Kept.{kept_closing, if_up, kept_receiving, kept_taking, kept_sending, kept_accepting, if_up_noted, kept_echoing, kept_coming, kept_dropping};
ghost use Rattle.bip_channels.specs.Replies.{taken_bytes};
ghost use Rattle.bip_channels.specs.Rules.{fits, received, is_short};

use crate::channels::{Channel, Link, MOST_RECEIVED};
use crate::codes::{CHANNEL_CLOSED, MISSING_INFORMATION, NOT_VALID};
use crate::responses::{
    bytes_available, link_lost, put_bytes, put_count, put_error, put_result, put_unable,
};
use comprehension_tlv::TlvWriter;
use toolkit_commands::results::PERFORMED;
use uicc_types::Octets;

/// CLOSE CHANNEL.
pub fn close(channel: &mut Channel, objects: &mut TlvWriter)
    requires { length objects.old ≤ 9 }
    ensures after { channel.new ≡ (kept_closing channel.old).channel }
    ensures put { objects.new ≡ objects.old ++ spellings (kept_closing channel.old).reply }
{
    match channel.link() {
        Link::Closed => put_error(objects, NOT_VALID),
        Link::Up | Link::Dropped => {
            channel.reset(Link::Closed, 0);
            put_result(objects, PERFORMED)
        }
    }
}

/// Takes so many of the bytes that wait, of which `asked` were asked for.
fn take(channel: &mut Channel, asked: usize, count: usize, objects: &mut TlvWriter)
    requires room { length objects.old ≤ 9 }
    requires few { count ≤ MOST_RECEIVED }
    requires there { count ≤ channel.old.waiting }
    ensures after { channel.new ≡ (kept_taking asked count channel.old).channel }
    ensures put { objects.new ≡ objects.old ++ spellings (kept_taking asked count channel.old).reply }
{
    let mut buffer = [0; MOST_RECEIVED];
    let bytes = &mut buffer[..count];
    channel.take(bytes);
    put_result(objects, result_of(count, asked));
    put_bytes(objects, bytes);
    put_count(objects, channel.waiting())
}

/// The result of a RECEIVE DATA: less was there than was asked for, or not.
fn result_of(count: usize, asked: usize) -> u8
    ensures { result ≡ (if is_short count asked then MISSING_INFORMATION else PERFORMED) }
{
    if count < asked && count < MOST_RECEIVED {
        MISSING_INFORMATION
    } else {
        PERFORMED
    }
}

/// RECEIVE DATA.
pub fn receive(channel: &mut Channel, asked: u8, objects: &mut TlvWriter)
    requires { length objects.old ≤ 9 }
    ensures after { channel.new ≡ (if_up (kept_receiving asked) channel.old).channel }
    ensures put { objects.new ≡ objects.old ++ spellings (if_up (kept_receiving asked) channel.old).reply }
{
    match channel.link() {
        Link::Closed => put_error(objects, NOT_VALID),
        Link::Dropped => put_error(objects, CHANNEL_CLOSED),
        Link::Up => {
            let asked = usize::from(asked);
            let count = asked.min(channel.waiting().min(MOST_RECEIVED));
            take(channel, asked, count, objects)
        }
    }
}

/// Takes bytes in that fit.
fn accept(channel: &mut Channel, bytes: &[u8], now: bool, objects: &mut TlvWriter)
    requires room { length objects.old ≤ 9 }
    requires fits { fits channel.old.size channel.old.outgoing channel.old.stored (length bytes.now) now ≡ true }
    ensures after { channel.new ≡ (kept_accepting bytes.now now channel.old).channel }
    ensures put { objects.new ≡ objects.old ++ spellings (kept_accepting bytes.now now channel.old).reply }
{
    if now {
        channel.send(bytes);
        put_result(objects, PERFORMED);
        put_count(objects, channel.free())
    } else {
        channel.store(bytes);
        put_result(objects, PERFORMED);
        put_count(objects, channel.free())
    }
}

/// SEND DATA.
pub fn send(channel: &mut Channel, bytes: &[u8], now: bool, objects: &mut TlvWriter)
    requires room { length objects.old ≤ 9 }
    requires short { length bytes.now ≤ 255 }
    ensures after { channel.new ≡ (if_up (kept_sending bytes.now now) channel.old).channel }
    ensures put { objects.new ≡ objects.old ++ spellings (if_up (kept_sending bytes.now now) channel.old).reply }
{
    match channel.link() {
        Link::Closed => put_error(objects, NOT_VALID),
        Link::Dropped => put_error(objects, CHANNEL_CLOSED),
        Link::Up => {
            if channel.fits(bytes.len(), now) {
                accept(channel, bytes, now, objects)
            } else {
                put_unable(objects)
            }
        }
    }
}

/// So many bytes come back, if there are any.
fn come_back(channel: &mut Channel, number: u8, count: usize) -> Option<Octets>
    requires number { number ≤ 7 }
    requires outgoing { count ≤ channel.old.outgoing }
    requires room { channel.old.waiting + count ≤ channel.old.size }
    ensures after { channel.new ≡ (kept_coming number count channel.old).channel }
    ensures event { result ≡ (kept_coming number count channel.old).event }
{
    if count == 0 {
        return None;
    }
    channel.come_back(count);
    Some(bytes_available(number, channel.waiting()))
}

/// The far end gives back so many bytes, or as many as it has and there is room for. None where it gives none.
pub fn echo(channel: &mut Channel, number: u8, count: u16) -> Option<Octets>
    requires { number ≤ 7 }
    ensures after { channel.new ≡ (if_up_noted (kept_echoing number count) channel.old).channel }
    ensures event { result ≡ (if_up_noted (kept_echoing number count) channel.old).event }
{
    match channel.link() {
        Link::Closed | Link::Dropped => None,
        Link::Up => {
            let count = channel.moved(usize::from(count));
            come_back(channel, number, count)
        }
    }
}

/// The link is dropped, if it is up.
pub fn cut(channel: &mut Channel, number: u8) -> Option<Octets>
    requires { number ≤ 7 }
    ensures after { channel.new ≡ (if_up_noted (kept_dropping number) channel.old).channel }
    ensures event { result ≡ (if_up_noted (kept_dropping number) channel.old).event }
{
    match channel.link() {
        Link::Closed | Link::Dropped => None,
        Link::Up => {
            channel.drop_link();
            Some(link_lost(number))
        }
    }
}
