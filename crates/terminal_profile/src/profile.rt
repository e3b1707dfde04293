//! A terminal profile, and what it allows.
ghost use Rattle.std.specs.Prelude.{◌≡◌, ◌<◌, ◌≤◌, ℕ, false, slice_index};
ghost use Rattle.toolkit_commands.specs.declared.commands.Proactive.{Proactive as ACommand};

use crate::profile_places::{Place, command_place, event_place};
use std::marker::Model;
use toolkit_commands::Proactive;

/// How many bytes of a profile are looked at.
const CONSULTED: usize = 8;

/// What a terminal can do. Bytes that it didn't send are 0.
#[derive(Clone, Copy, Debug)]
pub struct Profile {
    bytes: [u8; CONSULTED],
}

impl Model for Profile {
    ghost use Rattle.std.specs.Prelude.{List, ℕ, ◌≡◌, length};

    ghost Value = { List ℕ };

    ghost view = { λ profile. profile.bytes };

    ghost inverse = { λ bytes. record { bytes = bytes } };
}

impl Profile {
    ghost use Rattle.std.specs.Prelude.{[]};
    ghost use Rattle.terminal_profile.specs.Profiles.{allowed, allowed_event, consulted, has};

    /// The profile that allows nothing: that of no bytes.
    pub fn none() -> Profile
        ensures value { result ≡ consulted [] }
        ensures commands { (command : ACommand) → allowed result command ≡ false }
        ensures events { (code : ℕ) → allowed_event result code ≡ false }
    {
        Profile {
            bytes: [0; CONSULTED],
        }
    }

    /// The profile that the data of a TERMINAL PROFILE say. Bytes after the eighth are not looked at.
    pub fn read(bytes: &[u8]) -> Profile
        ensures value { result ≡ consulted bytes.now }
        ensures commands { (command : ACommand)
            → allowed result command ≡ allowed bytes.now command }
        ensures events { (code : ℕ)
            → allowed_event result code ≡ allowed_event bytes.now code }
    {
        Profile {
            bytes: first_bytes(bytes),
        }
    }

    /// Whether the terminal can carry the command out.
    #[tactic(auto, unfolding(crate::specs::Profiles::allowed))]
    pub fn allows(&self, command: &Proactive) -> bool
        ensures { result ≡ allowed self.now command.now }
    {
        self.has(command_place(command))
    }

    /// Whether the terminal can report the event with this code; false for a code whose bit isn't looked at.
    #[tactic(auto, unfolding(crate::specs::Profiles::allowed_event))]
    pub fn allows_event(&self, code: u8) -> bool
        ensures { result ≡ allowed_event self.now code }
    {
        match event_place(code) {
            Some(place) => self.has(place),
            None => false,
        }
    }

    fn has(&self, place: Place) -> bool
        requires byte_from_1 { 1 ≤ place.byte }
        requires byte_to_8 { place.byte ≤ 8 }
        requires bit_from_1 { 1 ≤ place.bit }
        requires bit_to_8 { place.bit ≤ 8 }
        ensures { result ≡ has self.now place }
    {
        let byte = self.bytes[usize::from(place.byte) - 1];
        (byte >> (place.bit - 1)) % 2 == 1
    }
}

/// The first bytes of a profile, and 0 for those that it doesn't have.
fn first_bytes(bytes: &[u8]) -> [u8; CONSULTED]
    ensures { (place : ℕ) → place < CONSULTED
        → slice_index result place ≡ slice_index bytes.now place }
{
    let mut first = [0; CONSULTED];
    let count = bytes.len().min(CONSULTED);
    first[..count].copy_from_slice(&bytes[..count]);
    first
}
