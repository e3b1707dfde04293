//! The applet with a timer.
ghost use Rattle.std.specs.Prelude.{◌≡◌, []};
ghost use Rattle.applet_trait.specs.Minds.{fresh};
ghost use Rattle.applet_trait.specs.Tables.{five_minutes, expired};
ghost use Rattle.boxed_applets.specs.Clocks.{clock_mind};
ghost use Rattle.boxed_applets.specs.Made.{made};

use crate::acts::{be_done, free_timer, show, start, take_timer};
use crate::states::State;
use applet_trait::numbers::MINUTES;
use applet_trait::texts::TICK;
use applet_trait::{Act, Applet, Stimulus};
use toolkit_commands::TimeValue;
use uicc_types::Kept;
use uicc_types::events::{PROFILE_DOWNLOAD, TIMER_EXPIRATION};

#[derive(Clone, Copy)]
enum Phase {
    /// It waits for an event. Done always leads here.
    Ready,
    Taking,
    Started,
    Ticking,
    Freeing,
}

/// Kind 3: it starts a timer when a terminal profile comes, shows a text when it has run down, and gives it back then.
#[derive(Drop)]
pub struct Clock {
    state: State<Phase>,
    /// The timer that has run down.
    held: u8,
}

/// Starts a timer of five minutes.
fn start_five_minutes(does: &mut Act, timer: u8)
    ensures { does.new ≡ five_minutes timer }
{
    let value = TimeValue {
        hours: 0,
        minutes: MINUTES,
        seconds: 0,
    };
    start(does, timer, value);
}

impl Clock {
    /// One that keeps nothing yet.
    pub fn new() -> Self
        ensures { ⟦<Clock as Applet>⟧.mind result ≡ fresh 3 [] }
    {
        Clock {
            state: State::new(Phase::Ready),
            held: 0,
        }
    }

    /// The timer that the body names has run down.
    fn expire(&mut self, body: &[u8], does: &mut Act)
        ensures { made does.new (clock_mind self.new) ≡ expired (clock_mind self.old) body.now }
    {
        match body {
            [timer] => {
                self.held = *timer;
                self.state.phase = Phase::Ticking;
                show(does, TICK);
            }
            _ => {
                self.state.phase = Phase::Ready;
                be_done(does);
            }
        }
    }
}

#[tactic(auto, unfolding(applet_trait::specs::Turns::act))]
impl Applet for Clock {
    ghost mind = { clock_mind };

    fn kind(&self) -> u8 {
        3
    }

    fn wake(&mut self, kept: &Kept) {
        self.state.wake(Phase::Ready, kept);
        self.held = 0;
    }

    fn step(&mut self, stimulus: &Stimulus) -> Act {
        let mut does = Act::Done;
        self.step_into(stimulus, &mut does);
        does
    }

    fn step_into(&mut self, stimulus: &Stimulus, does: &mut Act) {
        self.state.settle(stimulus);
        match (self.state.phase, stimulus) {
            (
                Phase::Ready,
                Stimulus::Event {
                    code: PROFILE_DOWNLOAD,
                    ..
                },
            ) => {
                self.state.phase = Phase::Taking;
                take_timer(does);
            }
            (
                Phase::Ready,
                Stimulus::Event {
                    code: TIMER_EXPIRATION,
                    body,
                },
            ) => self.expire(body.as_slice(), does),
            (Phase::Taking, Stimulus::Timer { timer }) => {
                self.state.phase = Phase::Started;
                start_five_minutes(does, *timer);
            }
            (Phase::Ticking, Stimulus::Response { .. } | Stimulus::Refused) => {
                self.state.phase = Phase::Freeing;
                free_timer(does, self.held);
            }
            _ => {
                self.state.phase = Phase::Ready;
                be_done(does);
            }
        }
    }
}
