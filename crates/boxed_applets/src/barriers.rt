//! The applet that bars numbers.
ghost use Rattle.std.specs.Prelude.{◌≡◌, []};
ghost use Rattle.applet_trait.specs.Minds.{fresh};

use crate::acts::{answer, ask, be_done, kept_part};
use crate::numbers::is_barred;
use crate::states::State;
use applet_trait::numbers::{LAST_GOOD, MOST_DIGITS};
use applet_trait::texts::ASK_FOR_DIGITS;
use applet_trait::{Act, Applet, Stimulus};
use uicc_types::Kept;
use uicc_types::events::{CALL_CONTROL, MENU_SELECTION};

#[derive(Clone, Copy)]
enum Phase {
    /// It waits for an event. Done always leads here.
    Ready,
    Asking,
    Keeping,
    Answered,
}

/// Kind 5: it asks for digits, keeps them, and bars each call to a number that begins with them.
#[derive(Drop)]
pub struct Barrier {
    state: State<Phase>,
}

impl Barrier {
    /// One that keeps nothing yet.
    pub fn new() -> Self
        ensures { ⟦<Barrier as Applet>⟧.mind result ≡ fresh 5 [] }
    {
        Barrier {
            state: State::new(Phase::Ready),
        }
    }
}

#[tactic(auto, unfolding(applet_trait::specs::Turns::act))]
impl Applet for Barrier {
    ghost use Rattle.boxed_applets.specs.Barriers.{barrier_mind};

    ghost mind = { barrier_mind };

    fn kind(&self) -> u8 {
        5
    }

    fn wake(&mut self, kept: &Kept) {
        self.state.wake(Phase::Ready, kept);
    }

    fn step(&mut self, stimulus: &Stimulus) -> Act {
        let mut does = Act::Done;
        self.step_into(stimulus, &mut does);
        does
    }

    fn step_into(&mut self, stimulus: &Stimulus, does: &mut Act) {
        self.state.settle(stimulus);
        match (self.state.phase, stimulus) {
            (
                Phase::Ready,
                Stimulus::Event {
                    code: CALL_CONTROL,
                    body,
                },
            ) => {
                let barred = is_barred(self.state.kept(), body.as_slice());
                self.state.phase = Phase::Answered;
                answer(does, !barred);
            }
            (
                Phase::Ready,
                Stimulus::Event {
                    code: MENU_SELECTION,
                    ..
                },
            ) => {
                self.state.phase = Phase::Asking;
                ask(does, ASK_FOR_DIGITS, true, MOST_DIGITS);
            }
            (
                Phase::Asking,
                Stimulus::Response {
                    result: 0..=LAST_GOOD,
                    text,
                    ..
                },
            ) => self
                .state
                .keep(does, Phase::Keeping, kept_part(text.as_slice())),
            _ => {
                self.state.phase = Phase::Ready;
                be_done(does);
            }
        }
    }
}
