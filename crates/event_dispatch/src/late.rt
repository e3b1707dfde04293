//! Events that came for an applet while it waited for an answer.
ghost use Rattle.std.specs.Prelude.{◌≡◌, ℕ, ◌+◌, ◌-◌, ◌≤◌, ◌<◌, List, [], ◌∷◌, ◌++◌, Some, length, option_map, remove, slice_get};
ghost use Rattle.frame_store.specs.Model.{Frames};
ghost use Rattle.event_dispatch.specs.declared.late.TheConstants.Late.{MOST, ROOM};
ghost use Rattle.event_dispatch.specs.Frames.{kept};

use frame_store::FrameStore;
use std::marker::Model;
use uicc_types::{ByteList, Full, Octets, Shelf};

/// An event for the applet of a shelf: its code, and its body.
#[derive(Debug, Drop)]
pub struct KeptTrigger {
    pub shelf: Shelf,
    pub code: u8,
    pub body: Octets,
}

/// Late triggers in the order in which they came, at most 16.
#[derive(Drop)]
pub struct Late {
    frames: FrameStore,
}

impl Model for Late {
    ghost use Rattle.std.specs.Prelude.{◌≡◌, ◌≤◌, List, length, map, All};
    ghost use Rattle.toolkit_model.specs.Sessions.{LateTrigger};
    ghost use Rattle.event_dispatch.specs.declared.late.TheConstants.Late.{MOST, ROOM};
    ghost use Rattle.event_dispatch.specs.Frames.{IsTriggerFrame, trigger_in};

    ghost Value = { List LateTrigger };

    ghost view = { λ s. map trigger_in s.frames.parts };

    ghost invariant = { λ s. (s.frames.most ≡ MOST) × (s.frames.room ≡ ROOM) × All IsTriggerFrame s.frames.parts };
}

impl Late {
    /// The most late triggers.
    pub const MOST: usize = 16;

    /// The bytes of all of them: a shelf, a code and a body of at most 255 bytes each.
    pub const ROOM: usize = 4112;

    /// No late trigger, kept in these frames.
    pub fn new(frames: FrameStore) -> Late
        requires { frames ≡ record { parts = []; most = MOST; room = ROOM } }
        ensures { result ≡ [] }
    {
        Late { frames }
    }

    /// How many there are.
    pub fn len(&self) -> usize
        ensures { result ≡ length self.now }
    {
        self.frames.len()
    }

    /// The trigger at a place below `len`.
    pub fn get(&self, at: usize) -> KeptTrigger
        requires { at < length self.now }
        ensures { slice_get self.now at ≡ Some (kept result) }
    {
        let frame = self.frames.get(at);
        KeptTrigger {
            shelf: Shelf(frame[0]),
            code: frame[1],
            body: Octets::from_slice(&frame[2..]),
        }
    }

    /// The shelf of the trigger at a place below `len`.
    pub fn shelf(&self, at: usize) -> Shelf
        requires { at < length self.now }
        ensures { option_map (λ trigger. trigger.shelf) (slice_get self.now at) ≡ Some result.0 }
    {
        Shelf(self.frames.get(at)[0])
    }

    /// Puts a trigger after the others, where there are fewer than 16.
    pub fn push(&mut self, shelf: Shelf, code: u8, body: &Octets)
        requires { length self.old < MOST }
        ensures { self.new ≡ self.old ++ record { shelf = shelf.0; code = code; body = body.now } ∷ [] }
    {
        match self.frames.push(frame_of(shelf, code, body).as_slice()) {
            Ok(()) => {}
            Err(Full) => unreachable!(),
        }
    }

    /// Takes the trigger at a place below `len` out.
    pub fn take(&mut self, at: usize) -> KeptTrigger
        requires { at < length self.old }
        ensures value { slice_get self.old at ≡ Some (kept result) }
        ensures others { self.new ≡ remove self.old at }
    {
        let trigger = self.get(at);
        self.frames.remove(at);
        trigger
    }

    /// Takes all of them out.
    pub fn clear(&mut self)
        ensures { self.new ≡ [] }
    {
        self.frames.clear();
    }
}

/// The bytes of a trigger.
fn frame_of(shelf: Shelf, code: u8, body: &Octets) -> ByteList<257>
    ensures { result ≡ shelf.0 ∷ code ∷ body.now }
{
    let mut frame = ByteList::from_slice(&[shelf.0, code]);
    match frame.append(body.as_slice()) {
        Ok(()) => {}
        Err(Full) => unreachable!(),
    }
    frame
}
