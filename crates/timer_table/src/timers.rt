//! The owners of the timers.
ghost use Rattle.std.specs.Prelude.{◌≡◌, ◌↔◌, None, IsNone, IfSome, map, replicate, length, position, is_none};
ghost use Rattle.timer_table.specs.Timers.{owner_of, smallest_free, IsSmallestFree, IsAllHeld, given_to, freed, without};

use std::marker::Model;
use uicc_types::Shelf;

/// Who holds each of the timers 1 to 8 (ETSI TS 102 223, 8.37).
#[derive(Drop)]
pub struct Timers {
    owners: [Option<Shelf>; 8],
}

impl Model for Timers {
    ghost use Rattle.std.specs.Prelude.{◌≡◌, length};
    ghost use Rattle.timer_table.specs.Timers.{Owners};

    ghost Value = { Owners };

    ghost view = { λ timers. timers.owners };

    ghost invariant = { λ timers. length timers.owners ≡ 8 };
}

impl Timers {
    /// Eight free timers.
    pub fn new() -> Self
        ensures { result ≡ replicate 8 None }
    {
        Timers { owners: [None; 8] }
    }

    /// Gives the smallest free timer to `owner`. `None`, and no change, exactly where all eight are held.
    pub fn take(&mut self, owner: Shelf) -> Option<u8>
        ensures value { result ≡ smallest_free self.old }
        ensures smallest { IfSome result (IsSmallestFree self.old) }
        ensures none { IsNone result ↔ IsAllHeld self.old }
        ensures after { self.new ≡ given_to owner self.old result }
    {
        match first_free(&self.owners) {
            Some(place) => {
                self.owners[place] = Some(owner);
                Some(place as u8 + 1)
            }
            None => None,
        }
    }

    /// Makes `timer` nobody's. A number outside 1 to 8 changes nothing.
    pub fn free(&mut self, timer: u8)
        ensures { self.new ≡ freed self.old timer }
    {
        if matches!(timer, 1..=8) {
            self.owners[usize::from(timer) - 1] = None;
        }
    }

    /// Who holds `timer`, if anybody does. Nobody holds a number outside 1 to 8.
    pub fn owner(&self, timer: u8) -> Option<Shelf>
        ensures value { result ≡ owner_of self.now timer }
        ensures eight { length self.now ≡ 8 }
    {
        let owners = &self.owners;
        match timer {
            1..=8 => owners[usize::from(timer) - 1],
            _ => None,
        }
    }

    /// Makes each timer of `owner` nobody's, and no other.
    pub fn free_all(&mut self, owner: Shelf)
        ensures { self.new ≡ map (without owner) self.old }
    {
        for held in self.owners.iter_mut() {
            *held = left(*held, owner);
        }
    }
}

/// The place of the first timer that nobody holds.
fn first_free(owners: &[Option<Shelf>]) -> Option<usize>
    ensures { result ≡ position is_none owners.now }
{
    owners.iter().position(|held| held.is_none())
}

/// The owner that is left once `owner` holds nothing.
fn left(held: Option<Shelf>, owner: Shelf) -> Option<Shelf>
    ensures { result ≡ without owner held }
{
    held.filter(|shelf| *shelf != owner)
}
