//! What the handset was last told for the card itself.
ghost use Rattle.std.specs.Prelude.{◌≡◌, ◌==◌, ◌<◌, ◌≤◌, ◌+◌, ◌++◌, ◌∷◌, [], if◌then◌else◌, length, not, filter};
ghost use Rattle.toolkit_model.specs.Sessions.{nothing_announced};
ghost use Rattle.toolkit_model.specs.Driving.{announcing};

use std::marker::Model;
use toolkit_commands::{Items, Proactive};
use uicc_types::{Full, Octets};

/// The events that the handset is to report, the items of the menu, and whether it is to ask for commands by itself.
#[derive(Drop)]
pub(crate) struct Announced {
    /// At most nine codes, ascending.
    events: Octets,
    menu: Items,
    polls: bool,
}

impl Model for Announced {
    ghost use Rattle.toolkit_model.specs.Sessions.{Announced as AnnouncedState};

    ghost Value = { AnnouncedState };

    ghost view = { λ s. record { events = s.events; menu = s.menu; polls = s.polls } };
}

impl Announced {
    /// No events, no menu, no polling.
    pub(crate) fn nothing() -> Self
        ensures { result ≡ nothing_announced }
    {
        Announced {
            events: Octets::new(),
            menu: Items::new(),
            polls: false,
        }
    }

    pub(crate) fn events(&self) -> &Octets
        ensures { result.now ≡ self.now.events }
    {
        &self.events
    }

    pub(crate) fn menu(&self) -> &Items
        ensures { result.now ≡ self.now.menu }
    {
        &self.menu
    }

    pub(crate) fn polls(&self) -> bool
        ensures { result ≡ self.now.polls }
    {
        self.polls
    }

    /// Takes note of what a command tells the handset.
    pub(crate) fn announce(&mut self, command: Proactive)
        ensures { self.new ≡ announcing command self.old }
    {
        match command {
            Proactive::SetUpEventList { events } => self.events = events,
            Proactive::SetUpMenu { items, .. } => self.menu = items,
            Proactive::PollInterval { .. } => self.polls = true,
            _ => {}
        }
    }

    /// An event that the handset reports no more.
    pub(crate) fn forget(&mut self, code: u8)
        ensures { self.new ≡ record self.old { events = filter (λ other. not (other == code)) self.old.events } }
    {
        self.events = without(&self.events, code);
    }
}

/// Adds a code, if it isn't this one.
fn keep(codes: &mut Octets, other: u8, code: u8)
    requires { length codes.old < 255 }
    ensures value { codes.new ≡ codes.old ++ (if not (other == code) then other ∷ [] else []) }
    ensures long { length codes.new ≤ length codes.old + 1 }
{
    if other != code {
        match codes.push(other) {
            Ok(()) => {}
            Err(Full) => unreachable!(),
        }
    }
}

/// The codes but this one.
#[tactic(auto, using(std::proofs::lemmas::List::Elements::filter_more))]
fn without(events: &Octets, code: u8) -> Octets
    ensures { result ≡ filter (λ other. not (other == code)) events.now }
{
    let mut left = Octets::new();
    let codes = events.as_slice();
    for other in codes {
        keep(&mut left, *other, code);
    }
    left
}
