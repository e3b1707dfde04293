//! Commands of applets that wait to be sent.
ghost use Rattle.std.specs.Prelude.{◌≡◌, ℕ, ◌≤◌, ◌<◌, List, [], ◌∷◌, ◌++◌, Some, Ok, length, slice_get, slice_index_or, ◌==◌, All};
ghost use Rattle.std.specs.List.{list_any};
ghost use Rattle.toolkit_commands.specs.Table.{spelled, details_of};
ghost use Rattle.toolkit_commands.specs.Reading.{proactive_of};
ghost use Rattle.frame_store.specs.Model.{Frames};
ghost use Rattle.toolkit_model.specs.Orderly.{CanBeSent};
ghost use Rattle.event_dispatch.specs.declared.waiting.TheConstants.Waiting.{MOST, ROOM};
ghost use Rattle.event_dispatch.specs.WaitingCommands.{IsCommandFrame, command_of, sent};

use frame_store::FrameStore;
use std::marker::Model;
use toolkit_commands::{Details, Proactive, read_proactive, renumber, spell};
use uicc_types::{ByteList, Full, Octets, Shelf};

/// Commands in the order in which they were sent, at most 32, each spelled with the number 1.
#[derive(Drop)]
pub struct Waiting {
    frames: FrameStore,
}

impl Model for Waiting {
    ghost use Rattle.std.specs.Prelude.{◌≡◌, ◌≤◌, List, length, map, All};
    ghost use Rattle.toolkit_model.specs.Sessions.{Sent};
    ghost use Rattle.event_dispatch.specs.declared.waiting.TheConstants.Waiting.{MOST, ROOM};
    ghost use Rattle.event_dispatch.specs.WaitingCommands.{IsCommandFrame, sent_in};

    ghost Value = { List Sent };

    ghost view = { λ s. map sent_in s.frames.parts };

    ghost invariant = { λ s. (s.frames.most ≡ MOST) × (s.frames.room ≡ ROOM) × All IsCommandFrame s.frames.parts };
}

impl Waiting {
    /// The most commands.
    pub const MOST: usize = 32;

    /// The bytes of all of them: a shelf and a command of at most 255 bytes each.
    pub const ROOM: usize = 8192;

    /// No command, kept in these frames.
    pub fn new(frames: FrameStore) -> Waiting
        requires { frames ≡ record { parts = []; most = MOST; room = ROOM } }
        ensures { result ≡ [] }
    {
        Waiting { frames }
    }

    /// How many there are.
    pub fn len(&self) -> usize
        ensures { result ≡ length self.now }
    {
        self.frames.len()
    }

    /// Whether one of them is of the applet on this shelf.
    #[tactic(auto, using(crate::proofs::FramesLemmas::any_map))]
    pub fn has(&self, shelf: Shelf) -> bool
        ensures { result ≡ list_any (λ sent. sent.shelf == shelf.0) self.now }
    {
        some_begins(&self.frames, shelf)
    }

    /// Takes all of them out.
    pub fn clear(&mut self)
        ensures { self.new ≡ [] }
    {
        self.frames.clear();
    }

    /// The first, where there is one.
    pub fn first(&self) -> (Shelf, Proactive)
        requires { 0 < length self.now }
        ensures { slice_get self.now 0 ≡ Some (sent result.0 result.1) }
    {
        let frame = self.frames.get(0);
        match read_proactive(&frame[1..]) {
            Ok((_, command)) => (Shelf(frame[0]), command),
            Err(_) => unreachable!(),
        }
    }

    /// Writes the bytes of the first with this number, where there is one, and answers its shelf and its details.
    fn first_spelled(&self, number: u8, bytes: &mut Octets) -> (Shelf, Details)
        requires { 0 < length self.now }
        ensures first { slice_get self.now 0 ≡ Some (sent result.0 (command_of bytes.new)) }
        ensures spelled { bytes.new ≡ spelled (command_of bytes.new) number }
        ensures details { result.1 ≡ details_of (command_of bytes.new) number }
    {
        let frame = self.frames.get(0);
        let details = renumber(&frame[1..], number, bytes);
        (Shelf(frame[0]), details)
    }

    /// Takes the first out as it is spelled with this number: writes its bytes, and answers its shelf and its details.
    pub fn take_spelled(&mut self, number: u8, bytes: &mut Octets) -> (Shelf, Details)
        requires { 0 < length self.old }
        ensures first { self.old ≡ sent result.0 (command_of bytes.new) ∷ self.new }
        ensures spelled { bytes.new ≡ spelled (command_of bytes.new) number }
        ensures details { result.1 ≡ details_of (command_of bytes.new) number }
    {
        let first = self.first_spelled(number, bytes);
        self.frames.remove(0);
        first
    }

    /// Puts a command that can be sent after the others, where there are fewer than 32.
    pub fn push(&mut self, shelf: Shelf, command: &Proactive)
        requires room { length self.old < MOST }
        requires sendable { CanBeSent command.now }
        ensures { self.new ≡ self.old ++ sent shelf command.now ∷ [] }
    {
        match self.frames.push(frame_of(shelf, command).as_slice()) {
            Ok(()) => {}
            Err(Full) => unreachable!(),
        }
    }
}

/// Whether the frame of a command begins with this shelf.
fn some_begins(frames: &FrameStore, shelf: Shelf) -> bool
    requires { All IsCommandFrame frames.now.parts }
    ensures { result ≡ list_any (λ part. slice_index_or part 0 0 == shelf.0) frames.now.parts }
{
    for at in 0..frames.len() {
        if frames.get(at)[0] == shelf.0 {
            return true;
        }
    }
    false
}

/// The bytes of a command.
fn frame_of(shelf: Shelf, command: &Proactive) -> ByteList<256>
    requires { CanBeSent command.now }
    ensures value { result ≡ shelf.0 ∷ spelled command.now 1 }
    ensures read { proactive_of (spelled command.now 1) ≡ Ok (details_of command.now 1, command.now) }
{
    match spell(command, 1) {
        Ok(bytes) => {
            let mut frame = ByteList::from_slice(&[shelf.0]);
            match frame.append(bytes.as_slice()) {
                Ok(()) => {}
                Err(Full) => unreachable!(),
            }
            frame
        }
        Err(_) => unreachable!(),
    }
}
