//! The applet with a note.
ghost use Rattle.std.specs.Prelude.{◌≡◌, []};
ghost use Rattle.applet_trait.specs.Minds.{fresh};
ghost use Rattle.applet_trait.specs.Tables.{ask_for_note, opened};
ghost use Rattle.boxed_applets.specs.Notebooks.{notebook_mind};
ghost use Rattle.boxed_applets.specs.Made.{made};

use crate::acts::{ask, be_done, kept_part, show};
use crate::states::State;
use applet_trait::numbers::{LAST_GOOD, LONGEST_NOTE};
use applet_trait::texts::ASK_FOR_NOTE;
use applet_trait::{Act, Applet, Stimulus};
use uicc_types::Kept;
use uicc_types::events::{MENU_SELECTION, PROFILE_DOWNLOAD};

#[derive(Clone, Copy)]
enum Phase {
    /// It waits for an event. Done always leads here.
    Ready,
    Asking,
    /// It asked to keep a note, or shows one: whatever comes, it is done then.
    KeepingOrShowing,
}

/// Kind 6: it asks for a note, keeps it, and shows it when a terminal profile comes.
#[derive(Drop)]
pub struct Notebook {
    state: State<Phase>,
}

impl Notebook {
    /// One that keeps nothing yet.
    pub fn new() -> Self
        ensures { ⟦<Notebook as Applet>⟧.mind result ≡ fresh 6 [] }
    {
        Notebook {
            state: State::new(Phase::Ready),
        }
    }

    fn ask(&mut self, does: &mut Act)
        ensures { made does.new (notebook_mind self.new) ≡ ask_for_note (notebook_mind self.old) }
    {
        self.state.phase = Phase::Asking;
        ask(does, ASK_FOR_NOTE, false, LONGEST_NOTE);
    }

    /// Shows the note, or asks for one.
    fn open(&mut self, does: &mut Act)
        ensures { made does.new (notebook_mind self.new) ≡ opened (notebook_mind self.old) self.old.state.kept }
    {
        match self.state.kept() {
            [] => self.ask(does),
            note => {
                show(does, note);
                self.state.phase = Phase::KeepingOrShowing;
            }
        }
    }
}

#[tactic(auto, unfolding(applet_trait::specs::Turns::act))]
impl Applet for Notebook {
    ghost mind = { notebook_mind };

    fn kind(&self) -> u8 {
        6
    }

    fn wake(&mut self, kept: &Kept) {
        self.state.wake(Phase::Ready, kept);
    }

    fn step(&mut self, stimulus: &Stimulus) -> Act {
        let mut does = Act::Done;
        self.step_into(stimulus, &mut does);
        does
    }

    fn step_into(&mut self, stimulus: &Stimulus, does: &mut Act) {
        self.state.settle(stimulus);
        match (self.state.phase, stimulus) {
            (
                Phase::Ready,
                Stimulus::Event {
                    code: MENU_SELECTION,
                    ..
                },
            ) => self.ask(does),
            (
                Phase::Ready,
                Stimulus::Event {
                    code: PROFILE_DOWNLOAD,
                    ..
                },
            ) => self.open(does),
            (
                Phase::Asking,
                Stimulus::Response {
                    result: 0..=LAST_GOOD,
                    text,
                    ..
                },
            ) => self
                .state
                .keep(does, Phase::KeepingOrShowing, kept_part(text.as_slice())),
            _ => {
                self.state.phase = Phase::Ready;
                be_done(does);
            }
        }
    }
}
