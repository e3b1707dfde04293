//! The timers, for the run of an applet.
use crate::session::Session;
use timer_table::Timers;

impl Session {
    ghost use Rattle.std.specs.Prelude.{◌≡◌};
    ghost use Rattle.std.specs.Borrow.{sem};
    ghost use Rattle.proactive_handler.specs.Lending.{LendsTimers};

    /// Who holds the timers, for the run of an applet that may take and free some.
    pub(crate) fn timers(&mut self) -> &mut Timers
        ensures* lends { sem 𝓛 (LendsTimers self.entry result) }
        ensures value { result.now ≡ self.old.timers }
    {
        &mut self.timers
    }
}
