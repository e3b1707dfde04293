//! The applet with a menu.
ghost use Rattle.std.specs.Prelude.{◌≡◌, ◌≤◌, [], ◌∷◌, length};
ghost use Rattle.applet_trait.specs.Minds.{fresh};
ghost use Rattle.applet_trait.specs.Tables.{text_or_tone};

use crate::acts::{be_done, offer, play, show};
use crate::states::State;
use applet_trait::numbers::{GENERAL_BEEP, LAST_GOOD, TEXT, TONE};
use applet_trait::texts::{CHOICE_TITLE, TEXT_ITEM, TONE_ITEM};
use applet_trait::{Act, Applet, Stimulus};
use toolkit_commands::{Item, Items};
use uicc_types::events::MENU_SELECTION;
use uicc_types::{Full, Kept, ShortText};

#[derive(Clone, Copy)]
enum Phase {
    /// It waits for an event. Done always leads here.
    Ready,
    Offering,
    Chosen,
}

/// Kind 2: it lets the user choose between a text and a tone.
#[derive(Drop)]
pub struct Menu {
    state: State<Phase>,
}

/// An item of a text that is known to be short.
fn item_of(id: u8, text: &[u8]) -> Item
    requires { length text.now ≤ 10 }
    ensures { result ≡ record { id = id; text = text.now } }
{
    Item {
        id,
        text: ShortText::from_slice(text),
    }
}

fn pair(first: Item, second: Item) -> Items
    ensures { result ≡ first ∷ second ∷ [] }
{
    let mut items = Items::new();
    match items.push(first) {
        Ok(()) => {}
        Err(Full) => unreachable!(),
    }
    match items.push(second) {
        Ok(()) => items,
        Err(Full) => unreachable!(),
    }
}

fn offer_text_or_tone(does: &mut Act)
    ensures { does.new ≡ text_or_tone }
{
    let items = pair(item_of(TEXT, TEXT_ITEM), item_of(TONE, TONE_ITEM));
    offer(does, CHOICE_TITLE, items);
}

impl Menu {
    /// One that keeps nothing yet.
    pub fn new() -> Self
        ensures { ⟦<Menu as Applet>⟧.mind result ≡ fresh 2 [] }
    {
        Menu {
            state: State::new(Phase::Ready),
        }
    }
}

#[tactic(auto, unfolding(applet_trait::specs::Turns::act))]
impl Applet for Menu {
    ghost use Rattle.boxed_applets.specs.Menus.{menu_mind};

    ghost mind = { menu_mind };

    fn kind(&self) -> u8 {
        2
    }

    fn wake(&mut self, kept: &Kept) {
        self.state.wake(Phase::Ready, kept);
    }

    fn step(&mut self, stimulus: &Stimulus) -> Act {
        let mut does = Act::Done;
        self.step_into(stimulus, &mut does);
        does
    }

    fn step_into(&mut self, stimulus: &Stimulus, does: &mut Act) {
        self.state.settle(stimulus);
        match (self.state.phase, stimulus) {
            (
                Phase::Ready,
                Stimulus::Event {
                    code: MENU_SELECTION,
                    ..
                },
            ) => {
                self.state.phase = Phase::Offering;
                offer_text_or_tone(does);
            }
            (
                Phase::Offering,
                Stimulus::Response {
                    result: 0..=LAST_GOOD,
                    item: TEXT,
                    ..
                },
            ) => {
                self.state.phase = Phase::Chosen;
                show(does, TEXT_ITEM);
            }
            (
                Phase::Offering,
                Stimulus::Response {
                    result: 0..=LAST_GOOD,
                    item: TONE,
                    ..
                },
            ) => {
                self.state.phase = Phase::Chosen;
                play(does, GENERAL_BEEP);
            }
            _ => {
                self.state.phase = Phase::Ready;
                be_done(does);
            }
        }
    }
}
