//! What comes after an act, and after a run.
ghost use Rattle.std.specs.Prelude.{◌≡◌};
ghost use Rattle.proactive_handler.specs.Acts.{stimulus_of};

use applet_trait::Stimulus;

/// What an applet is told of its act.
#[derive(Clone, Copy)]
pub(crate) enum Reply {
    /// It was carried out.
    Went,
    /// It was not carried out.
    Refused,
    /// This timer is its own now.
    Timer { timer: u8 },
}

impl Reply {
    pub(crate) fn stimulus(self) -> Stimulus
        ensures { result ≡ stimulus_of self }
    {
        match self {
            Reply::Went => Stimulus::Went,
            Reply::Refused => Stimulus::Refused,
            Reply::Timer { timer } => Stimulus::Timer { timer },
        }
    }
}

/// What comes after an act.
#[derive(Clone, Copy)]
pub(crate) enum Next {
    /// The run goes on: the applet is told this.
    Told(Reply),
    /// The run ends, and the applet is idle.
    Idle,
    /// The run ends with the command of the act, which is to go to the handset.
    Sent,
}

/// What a run ended with.
#[derive(Clone, Copy)]
pub struct RunEnd {
    /// Whether the last act's command goes to the handset: then the applet waits for the answer, and otherwise it is idle.
    pub is_sent: bool,
    /// The last answer to call control that it gave, if it gave one.
    pub answer: Option<bool>,
}
