//! Late triggers whose applets wait for no answer any more.
ghost use Rattle.std.specs.Prelude.{◌≡◌, None, MatchOption};
ghost use Rattle.toolkit_model.specs.Orderly.{asks};
ghost use Rattle.toolkit_model.specs.Driving.{first_idle};
ghost use Rattle.proactive_handler.specs.Catching.{StandsFirst, Catches};

use crate::session::Session;
use event_dispatch::KeptTrigger;

impl Session {
    /// The place of the first late trigger whose applet waits for no answer.
    fn first_idle(&self) -> Option<usize>
        ensures { MatchOption result (first_idle (asks self.now) self.now.late ≡ None) (StandsFirst self.now) }
    {
        for at in 0..self.late.len() {
            if self.idle(self.late.shelf(at)) {
                return Some(at);
            }
        }
        None
    }

    /// Takes out the first late trigger whose applet waits for no answer. `None`, and no change, where there is none.
    pub(crate) fn take_late(&mut self) -> Option<KeptTrigger>
        ensures { Catches self.old self.new result }
    {
        match self.first_idle() {
            Some(at) => Some(self.late.take(at)),
            None => None,
        }
    }
}
