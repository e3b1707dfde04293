//! The applet that greets.
ghost use Rattle.std.specs.Prelude.{◌≡◌, []};
ghost use Rattle.applet_trait.specs.Minds.{fresh};

use crate::acts::{be_done, show};
use crate::states::State;
use applet_trait::texts::GREETING;
use applet_trait::{Act, Applet, Stimulus};
use uicc_types::Kept;
use uicc_types::events::PROFILE_DOWNLOAD;

#[derive(Clone, Copy)]
enum Phase {
    /// It waits for an event. Done always leads here.
    Ready,
    Greeting,
}

/// Kind 1: it shows a text when a terminal profile comes.
#[derive(Drop)]
pub struct Greeter {
    state: State<Phase>,
}

impl Greeter {
    /// One that keeps nothing yet.
    pub fn new() -> Self
        ensures { ⟦<Greeter as Applet>⟧.mind result ≡ fresh 1 [] }
    {
        Greeter {
            state: State::new(Phase::Ready),
        }
    }
}

#[tactic(auto, unfolding(applet_trait::specs::Turns::act))]
impl Applet for Greeter {
    ghost use Rattle.boxed_applets.specs.Greeters.{greeter_mind};

    ghost mind = { greeter_mind };

    fn kind(&self) -> u8 {
        1
    }

    fn wake(&mut self, kept: &Kept) {
        self.state.wake(Phase::Ready, kept);
    }

    fn step(&mut self, stimulus: &Stimulus) -> Act {
        let mut does = Act::Done;
        self.step_into(stimulus, &mut does);
        does
    }

    fn step_into(&mut self, stimulus: &Stimulus, does: &mut Act) {
        self.state.settle(stimulus);
        match (self.state.phase, stimulus) {
            (
                Phase::Ready,
                Stimulus::Event {
                    code: PROFILE_DOWNLOAD,
                    ..
                },
            ) => {
                self.state.phase = Phase::Greeting;
                show(does, GREETING);
            }
            _ => {
                self.state.phase = Phase::Ready;
                be_done(does);
            }
        }
    }
}
