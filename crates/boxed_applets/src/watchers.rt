//! The applet that watches the handset.
ghost use Rattle.std.specs.Prelude.{◌≡◌, ◌≤◌, [], length, option_copied};
ghost use Rattle.toolkit_commands.specs.Envelopes.{value_in};
ghost use Rattle.applet_trait.specs.Minds.{fresh};
ghost use Rattle.applet_trait.specs.Tables.{located};
ghost use Rattle.boxed_applets.specs.Watchers.{watcher_mind};
ghost use Rattle.boxed_applets.specs.Made.{made};

use crate::acts::{be_done, show, show_when_idle};
use crate::states::State;
use applet_trait::numbers::{LOCATION_INFORMATION, MOST_KEPT};
use applet_trait::texts::{ACTIVE, IDLE, LOST, MOVED};
use applet_trait::{Act, Applet, Stimulus};
use comprehension_tlv::find;
use uicc_types::Kept;
use uicc_types::events::{IDLE_SCREEN, LOCATION_STATUS, USER_ACTIVITY};

#[derive(Clone, Copy)]
enum Phase {
    /// It waits for an event. Done always leads here.
    Ready,
    Keeping,
    Showing,
}

/// Kind 4: it keeps the location that the handset tells, and shows what it is told.
#[derive(Drop)]
pub struct Watcher {
    state: State<Phase>,
}

/// The value of the first location information, where the body is a list of objects that has one.
#[tactic(auto, unfolding(toolkit_commands::specs::Envelopes::value_in))]
fn location_in(body: &[u8]) -> Option<&[u8]>
    ensures exact { option_copied result ≡ value_in LOCATION_INFORMATION body.now }
{
    match find(body, LOCATION_INFORMATION) {
        Ok(found) => found,
        Err(_) => None,
    }
}

impl Watcher {
    /// One that keeps nothing yet.
    pub fn new() -> Self
        ensures { ⟦<Watcher as Applet>⟧.mind result ≡ fresh 4 [] }
    {
        Watcher {
            state: State::new(Phase::Ready),
        }
    }

    /// The handset told a location, or what should be one.
    fn locate(&mut self, body: &[u8], does: &mut Act)
        ensures { made does.new (watcher_mind self.new) ≡ located (watcher_mind self.old)
            (value_in LOCATION_INFORMATION body.now) }
    {
        match location_in(body) {
            Some(location) if location.len() <= MOST_KEPT => {
                self.state.keep(does, Phase::Keeping, location);
            }
            _ => {
                self.state.phase = Phase::Showing;
                show(does, LOST);
            }
        }
    }
}

#[tactic(auto, unfolding(applet_trait::specs::Turns::act))]
impl Applet for Watcher {
    ghost mind = { watcher_mind };

    fn kind(&self) -> u8 {
        4
    }

    fn wake(&mut self, kept: &Kept) {
        self.state.wake(Phase::Ready, kept);
    }

    fn step(&mut self, stimulus: &Stimulus) -> Act {
        let mut does = Act::Done;
        self.step_into(stimulus, &mut does);
        does
    }

    fn step_into(&mut self, stimulus: &Stimulus, does: &mut Act) {
        self.state.settle(stimulus);
        match (self.state.phase, stimulus) {
            (
                Phase::Ready,
                Stimulus::Event {
                    code: LOCATION_STATUS,
                    body,
                },
            ) => self.locate(body.as_slice(), does),
            (
                Phase::Ready,
                Stimulus::Event {
                    code: USER_ACTIVITY,
                    ..
                },
            ) => {
                self.state.phase = Phase::Showing;
                show(does, ACTIVE);
            }
            (
                Phase::Ready,
                Stimulus::Event {
                    code: IDLE_SCREEN,
                    ..
                },
            ) => {
                self.state.phase = Phase::Showing;
                show_when_idle(does, IDLE);
            }
            (Phase::Keeping, Stimulus::Went) => {
                self.state.phase = Phase::Showing;
                show(does, MOVED);
            }
            _ => {
                self.state.phase = Phase::Ready;
                be_done(does);
            }
        }
    }
}
