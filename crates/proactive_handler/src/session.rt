//! The session, and what is asked of it or told it.
ghost use Rattle.std.specs.Prelude.{◌≡◌, ◌≤◌, ◌-◌, ◌==◌, [], true, length, map, is_some, if◌then◌else◌, IfSome, option_map, None, Some};
ghost use Rattle.std.specs.List.{list_any};
ghost use Rattle.toolkit_commands.specs.Table.{details_of};
ghost use Rattle.timer_table.specs.Timers.{owner_of, without};
ghost use Rattle.terminal_profile.specs.Profiles.{consulted};
ghost use Rattle.toolkit_model.specs.Sessions.{fresh_session};
ghost use Rattle.toolkit_model.specs.Orderly.{asks, owned};
ghost use Rattle.toolkit_model.specs.Driving.{is_idle};
ghost use Rattle.toolkit_model.specs.Commands.{is_reported_once, forgetting, late_places, unfetched, unanswered, pending, command_bytes, as_fetched};
ghost use Rattle.proactive_handler.specs.Spelled.{shelf_of};

use crate::announced::Announced;
use crate::outstanding::Outstanding;
use event_dispatch::{Late, Waiting};
use frame_store::FrameStore;
use std::marker::Model;
use terminal_profile::Profile;
use timer_table::Timers;
use toolkit_commands::Details;
use uicc_types::events::{IDLE_SCREEN, USER_ACTIVITY};
use uicc_types::{Answer, Shelf, StatusWord};

/// What a card knows of its toolkit between two commands, and loses at a reset (ETSI TS 102 223, 6 and 7).
#[derive(Drop)]
pub struct Session {
    pub(crate) profile: Option<Profile>,
    pub(crate) out: Option<Outstanding>,
    pub(crate) waiting: Waiting,
    pub(crate) late: Late,
    pub(crate) announced: Announced,
    pub(crate) timers: Timers,
    pub(crate) last_number: u8,
}

impl Model for Session {
    ghost use Rattle.toolkit_model.specs.Sessions.{SessionState};
    ghost use Rattle.proactive_handler.specs.Bounds.{AreBounded};

    ghost Value = { SessionState };

    ghost view = { λ s. record { profile = s.profile; out = s.out; waiting = s.waiting; late = s.late; announced = s.announced; timers = s.timers; last_number = s.last_number } };

    ghost invariant = { λ s. AreBounded s.waiting s.late };
}

impl Session {
    /// As it is after a reset. Late triggers and commands that wait are kept in these frames.
    pub fn new(late: FrameStore, waiting: FrameStore) -> Session
        requires late { late ≡ record { parts = []; most = Late.MOST; room = Late.ROOM } }
        requires waiting { waiting ≡ record { parts = []; most = Waiting.MOST; room = Waiting.ROOM } }
        ensures { result ≡ fresh_session }
    {
        Session {
            profile: None,
            out: None,
            waiting: Waiting::new(waiting),
            late: Late::new(late),
            announced: Announced::nothing(),
            timers: Timers::new(),
            last_number: 0,
        }
    }

    /// A reset: nothing is outstanding, waits or is late, nothing was announced, nobody holds a timer, there is no profile,
    /// and the next command has the number 1.
    pub fn clear(&mut self)
        ensures { self.new ≡ fresh_session }
    {
        self.profile = None;
        self.out = None;
        self.waiting.clear();
        self.late.clear();
        self.announced = Announced::nothing();
        self.timers = Timers::new();
        self.last_number = 0;
    }

    /// The data of a TERMINAL PROFILE, which replaces the profile before.
    pub fn set_profile(&mut self, bytes: &[u8])
        ensures { self.new ≡ record self.old { profile = Some (consulted bytes.now) } }
    {
        self.profile = Some(Profile::read(bytes));
    }

    /// The handset's last profile since the reset, if it sent one.
    pub fn profile(&self) -> Option<Profile>
        ensures { result ≡ self.now.profile }
    {
        self.profile
    }

    /// The handset reported an event. User activity and the idle screen it reports once: it has to be asked again.
    pub fn reported(&mut self, code: u8)
        ensures { self.new ≡ (if is_reported_once code then forgetting code self.old else self.old) }
    {
        if code == USER_ACTIVITY || code == IDLE_SCREEN {
            self.announced.forget(code);
        }
    }

    /// The applet on this shelf is gone: its timers are free.
    pub fn released(&mut self, shelf: Shelf)
        ensures { self.new ≡ record self.old { timers = map (without shelf) self.old.timers } }
    {
        self.timers.free_all(shelf);
    }

    /// Whether the applet on this shelf waits for no answer.
    #[tactic(auto, unfolding(toolkit_model::specs::Orderly::asks), using(crate::proofs::OutstandingLemmas::one_or_others))]
    pub fn idle(&self, shelf: Shelf) -> bool
        ensures { result ≡ is_idle (asks self.now) shelf.0 }
    {
        !sent_by(&self.out, shelf) && !self.waiting.has(shelf)
    }

    /// How many late triggers there is still room for, of 16.
    pub fn late_free(&self) -> usize
        ensures value { result ≡ late_places - length self.now.late }
        ensures few { length self.now.late ≤ late_places }
    {
        Late::MOST - self.late.len()
    }

    /// Who holds a timer, if anybody does. Nobody holds a number outside 1 to 8.
    pub fn owner(&self, timer: u8) -> Option<Shelf>
        ensures { result ≡ owner_of self.now.timers timer }
    {
        self.timers.owner(timer)
    }

    /// How many bytes the outstanding command has, where the handset didn't fetch it yet.
    #[tactic(auto, using(crate::proofs::PendingLemmas::pending_is, crate::proofs::PendingLemmas::pending_none))]
    pub fn unfetched(&self) -> Option<u8>
        ensures { result ≡ pending self.now }
    {
        match &self.out {
            Some(command) => command.unfetched(),
            None => None,
        }
    }

    /// The details of the command that the handset fetched and has to answer.
    #[tactic(auto, using(crate::proofs::PendingLemmas::details_is, crate::proofs::PendingLemmas::details_none))]
    pub fn fetched(&self) -> Option<Details>
        ensures { result ≡ option_map (λ out. details_of out.command out.number) (unanswered self.now) }
    {
        match &self.out {
            Some(command) => command.fetched(),
            None => None,
        }
    }

    /// FETCH: answers the bytes of the outstanding command with `9000`, and marks it fetched.
    pub fn fetch(&mut self, out: &mut Answer)
        requires { is_some (unfetched self.old) ≡ true }
        ensures body { IfSome (unfetched self.old) (λ command. out.new.body ≡ command_bytes command) }
        ensures status { out.new.status ≡ StatusWord.DONE }
        ensures state { IfSome (unfetched self.old) (λ command. self.new
            ≡ record self.old { out = Some (as_fetched command) }) }
    {
        match &mut self.out {
            Some(command) => command.fetch(out),
            None => unreachable!(),
        }
    }

    /// A response to the command that was fetched was accepted: nothing is outstanding any more. Answers the shelf of the
    /// applet that sent the command, which the response is for; none where the card itself did.
    pub(crate) fn answered(&mut self) -> Option<Shelf>
        requires { is_some (unanswered self.old) ≡ true }
        ensures owner { IfSome (unanswered self.old) (λ command. shelf_of result ≡ command.owner) }
        ensures state { self.new ≡ record self.old { out = None } }
    {
        match self.out.take() {
            Some(command) => command.owner(),
            None => unreachable!(),
        }
    }
}

/// Whether the applet on this shelf sent the outstanding command.
fn sent_by(out: &Option<Outstanding>, shelf: Shelf) -> bool
    ensures { result ≡ list_any (λ sent. sent.shelf == shelf.0) (owned out.now) }
{
    match out {
        Some(command) => command.is_of(shelf),
        None => false,
    }
}
