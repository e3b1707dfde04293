//! What becomes outstanding where nothing is.
ghost use Rattle.std.specs.Prelude.{◌≡◌, ◌≤◌, true, None, length, count_by, All, IfSome};
ghost use Rattle.card_state.specs.Sections.{has_text};
ghost use Rattle.card_state.specs.States.{rows_of};
ghost use Rattle.toolkit_model.specs.Orderly.{CanBeSent};
ghost use Rattle.toolkit_model.specs.Driving.{wanted, next_out, filled};
ghost use Rattle.event_dispatch.specs.Indexes.{StandsFor};

use crate::session::Session;
use crate::wanting::{is_all_known, wanted};
use card_state::Loaded;
use card_state::sizes::MENU_LIMIT;
use event_dispatch::Index;
use toolkit_commands::Proactive;

impl Session {
    /// The first command that the card itself has to send, once there is a profile.
    #[tactic(auto, unfolding(toolkit_model::specs::Driving::wanted))]
    fn wanted(&self, loaded: &Loaded, index: &Index) -> Option<Proactive>
        requires few { count_by has_text (rows_of loaded.now) ≤ MENU_LIMIT }
        requires texts { All (λ row. length row.text ≤ 10) (rows_of loaded.now) }
        requires stands { StandsFor index.now (rows_of loaded.now) }
        ensures value { result ≡ wanted self.now.profile (rows_of loaded.now) self.now.announced }
        ensures sendable { IfSome result CanBeSent }
    {
        match self.profile {
            Some(profile) => wanted(&profile, &self.announced, loaded, index),
            None => None,
        }
    }

    /// Whether the card itself has nothing to send.
    #[tactic(auto, unfolding(toolkit_model::specs::Driving::wanted))]
    fn wants_nothing(&self, loaded: &Loaded, index: &Index) -> bool
        requires stands { StandsFor index.now (rows_of loaded.now) }
        ensures { result ≡ true → wanted self.now.profile (rows_of loaded.now) self.now.announced ≡ None }
    {
        match &self.profile {
            Some(profile) => is_all_known(profile, &self.announced, loaded, index),
            None => true,
        }
    }

    /// The command that the card itself has to send becomes outstanding, or else the first that waits.
    #[tactic(auto, using(crate::proofs::FilledLemmas::next_none))]
    fn put_next_out(&mut self, loaded: &Loaded, index: &Index)
        requires few { count_by has_text (rows_of loaded.now) ≤ MENU_LIMIT }
        requires texts { All (λ row. length row.text ≤ 10) (rows_of loaded.now) }
        requires stands { StandsFor index.now (rows_of loaded.now) }
        ensures { self.new ≡ next_out (wanted self.old.profile (rows_of loaded.now) self.old.announced) self.old }
    {
        if self.wants_nothing(loaded, index) {
            self.put_front_out();
        } else {
            self.put_wanted_out(loaded, index);
        }
    }

    /// The same, where the card itself may have something to send.
    #[tactic(auto, using(crate::proofs::FilledLemmas::next_some, crate::proofs::FilledLemmas::next_none))]
    fn put_wanted_out(&mut self, loaded: &Loaded, index: &Index)
        requires few { count_by has_text (rows_of loaded.now) ≤ MENU_LIMIT }
        requires texts { All (λ row. length row.text ≤ 10) (rows_of loaded.now) }
        requires stands { StandsFor index.now (rows_of loaded.now) }
        ensures { self.new ≡ next_out (wanted self.old.profile (rows_of loaded.now) self.old.announced) self.old }
    {
        match self.wanted(loaded, index) {
            Some(command) => self.put_own_out(command),
            None => self.put_front_out(),
        }
    }

    /// Where nothing is outstanding, the command that the card itself has to send becomes so: the list of events, the menu,
    /// or the polling, whatever the handset has to hear of first. Where the card has none, it is the first command that
    /// waits. The rows of the table have texts of at most 10 bytes, and at most 16 of them have one.
    #[tactic(auto, using(crate::proofs::FilledLemmas::filled_stays, crate::proofs::FilledLemmas::filled_next))]
    pub(crate) fn settle(&mut self, loaded: &Loaded, index: &Index)
        requires few { count_by has_text (rows_of loaded.now) ≤ MENU_LIMIT }
        requires texts { All (λ row. length row.text ≤ 10) (rows_of loaded.now) }
        requires stands { StandsFor index.now (rows_of loaded.now) }
        ensures { self.new ≡ filled self.old.out (rows_of loaded.now) self.old }
    {
        if self.out.is_none() {
            self.put_next_out(loaded, index);
        }
    }
}
