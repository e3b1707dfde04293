//! What all applets have: a phase, and bytes that the card keeps for them.
ghost use Rattle.std.specs.Prelude.{◌≡◌, ◌≤◌, [], Some, None, length};
ghost use Rattle.applet_trait.specs.Minds.{kept_after};

use applet_trait::{Act, Stimulus};
use uicc_types::{Kept, Octets};

/// Where an applet stands.
#[derive(Drop)]
pub struct State<P> {
    pub phase: P,
    kept: Kept,
    /// What it asked to be kept at the last stimulus.
    asked: Option<Kept>,
}

impl<P: Copy> State<P> {
    /// One that keeps nothing yet.
    pub fn new(phase: P) -> Self
        ensures { result ≡ record { phase = phase; kept = []; asked = None } }
    {
        State {
            phase,
            kept: Kept::new(),
            asked: None,
        }
    }

    /// Begins anew with what is kept.
    pub fn wake(&mut self, phase: P, kept: &Kept)
        ensures { self.new ≡ record { phase = phase; kept = kept.now; asked = None } }
    {
        self.phase = phase;
        self.kept = kept.copy();
        self.asked = None;
    }

    /// A stimulus came: what was asked for is kept where it went into the card's memory, and forgotten otherwise.
    pub fn settle(&mut self, stimulus: &Stimulus)
        ensures { self.new ≡ record self.old {
          kept = kept_after stimulus.now self.old.asked self.old.kept;
          asked = None;
        } }
    {
        // Mostly nothing was asked for.
        if self.asked.is_some() {
            self.settle_asked(stimulus);
        }
    }

    fn settle_asked(&mut self, stimulus: &Stimulus)
        ensures { self.new ≡ record self.old {
          kept = kept_after stimulus.now self.old.asked self.old.kept;
          asked = None;
        } }
    {
        let asked = self.asked.take();
        if let (Some(bytes), Stimulus::Went) = (asked, stimulus) {
            self.kept = bytes;
        }
    }

    /// Asks to keep bytes.
    #[inline(never)]
    pub fn keep(&mut self, does: &mut Act, phase: P, bytes: &[u8])
        requires { length bytes.now ≤ 64 }
        ensures acted { does.new ≡ Act.Keep bytes.now }
        ensures moved { self.new ≡ record self.old { phase = phase; asked = Some bytes.now } }
    {
        self.phase = phase;
        self.asked = Some(Kept::from_slice(bytes));
        *does = Act::Keep(Octets::from_slice(bytes));
    }

    /// The bytes that are kept.
    pub fn kept(&self) -> &[u8]
        ensures value { result.now ≡ self.now.kept }
        ensures fits { length result.now ≤ 64 }
    {
        self.kept.as_slice()
    }
}
