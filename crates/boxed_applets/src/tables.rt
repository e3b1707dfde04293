//! The applet that does what its kept bytes say.
ghost use Rattle.std.specs.Prelude.{◌≡◌, []};
ghost use Rattle.applet_trait.specs.Minds.{fresh};
ghost use Rattle.applet_trait.specs.Tables.{acting, next_row};
ghost use Rattle.boxed_applets.specs.Tables.{table_mind};
ghost use Rattle.boxed_applets.specs.Made.{made};

use crate::acts::{
    ask_for_information, ask_for_key, ask_for_time, be_done, deregister, play, refresh, register,
    show, show_when_idle, take_timer,
};
use crate::programs::row_from;
use crate::states::State;
use applet_trait::actions::{
    DEREGISTER, GET_KEY, MORE_TIME, PLAY_TONE, REFRESH, REGISTER, SHOW, SHOW_WHEN_IDLE, TAKE_TIMER,
    TELL_INFORMATION,
};
use applet_trait::{Act, Applet, Stimulus};
use uicc_types::Kept;

#[derive(Clone, Copy)]
enum Phase {
    /// It waits for an event. Done always leads here.
    Ready,
    Running,
}

/// Kind 7: its kept bytes are rows of three, an event, an action and its argument. At an event it does what the rows of
/// that event say, one after the other.
#[derive(Drop)]
pub struct Table {
    state: State<Phase>,
    /// The place of the row that it stands on.
    held: u8,
    /// The event whose rows it does.
    code: u8,
}

impl Table {
    /// One that keeps nothing yet.
    pub fn new() -> Self
        ensures { ⟦<Table as Applet>⟧.mind result ≡ fresh 7 [] }
    {
        Table {
            state: State::new(Phase::Ready),
            held: 0,
            code: 0,
        }
    }

    /// Does one action.
    fn perform(&mut self, action: u8, argument: u8, does: &mut Act)
        ensures { made does.new (table_mind self.new) ≡ acting (table_mind self.old) action argument }
    {
        self.state.phase = Phase::Running;
        match action {
            SHOW => show(does, &[argument]),
            PLAY_TONE => play(does, argument),
            MORE_TIME => ask_for_time(does),
            TELL_INFORMATION => ask_for_information(does, argument),
            REFRESH => refresh(does, argument),
            GET_KEY => ask_for_key(does, &[argument]),
            REGISTER => register(does, argument),
            DEREGISTER => deregister(does, argument),
            SHOW_WHEN_IDLE => show_when_idle(does, &[argument]),
            TAKE_TIMER => take_timer(does),
            _ => {
                self.state.phase = Phase::Ready;
                be_done(does);
            }
        }
    }

    /// Does the first row of the event at this place or after it.
    fn go_on(&mut self, from: usize, event: u8, does: &mut Act)
        ensures { made does.new (table_mind self.new) ≡ next_row (table_mind self.old) from event }
    {
        match row_from(self.state.kept(), from, event) {
            Some((place, row)) => {
                self.held = place;
                self.code = event;
                self.perform(row.action, row.argument, does);
            }
            None => {
                self.state.phase = Phase::Ready;
                be_done(does);
            }
        }
    }
}

#[tactic(auto, unfolding(applet_trait::specs::Turns::act))]
impl Applet for Table {
    ghost mind = { table_mind };

    fn kind(&self) -> u8 {
        7
    }

    fn wake(&mut self, kept: &Kept) {
        self.state.wake(Phase::Ready, kept);
        self.held = 0;
        self.code = 0;
    }

    fn step(&mut self, stimulus: &Stimulus) -> Act {
        let mut does = Act::Done;
        self.step_into(stimulus, &mut does);
        does
    }

    fn step_into(&mut self, stimulus: &Stimulus, does: &mut Act) {
        self.state.settle(stimulus);
        match (self.state.phase, stimulus) {
            (Phase::Ready, Stimulus::Event { code, .. }) => self.go_on(0, *code, does),
            (Phase::Ready, _) => {
                self.state.phase = Phase::Ready;
                be_done(does);
            }
            (Phase::Running, _) => self.go_on(usize::from(self.held) + 1, self.code, does),
        }
    }
}
