//! What the card can ask of the handset.
ghost use Rattle.std.specs.Prelude.{◌≡◌, ◌↔◌, IsTrue};

use crate::items::Items;
use uicc_types::{Octets, ShortText};

/// A span of time, as a timer is given it.
#[derive(Clone, Copy, Debug, PartialEq, Eq)]
pub struct TimeValue {
    pub hours: u8,
    pub minutes: u8,
    pub seconds: u8,
}

/// The command details (TS 102 223, 8.6): by them a response names the command that it answers.
#[derive(Clone, Copy, Debug, PartialEq, Eq)]
pub struct Details {
    pub number: u8,
    /// The type of command.
    pub kind: u8,
    pub qualifier: u8,
}

/// A proactive command (TS 102 223, 6.4) with what the handset needs to know to carry it out. Texts are passed on as
/// bytes.
#[derive(Debug, Drop)]
pub enum Proactive {
    Refresh {
        mode: u8,
    },
    MoreTime,
    PollInterval {
        seconds: u8,
    },
    /// The codes of the events that the card wants to hear of.
    SetUpEventList {
        events: Octets,
    },
    PlayTone {
        tone: u8,
    },
    DisplayText {
        text: Octets,
    },
    GetInkey {
        text: Octets,
    },
    /// A text of `min` to `max` characters, or digits alone.
    GetInput {
        text: Octets,
        digits: bool,
        min: u8,
        max: u8,
    },
    SelectItem {
        title: ShortText,
        items: Items,
    },
    /// The card's menu; without items it is taken away.
    SetUpMenu {
        title: ShortText,
        items: Items,
    },
    LocalInformation {
        what: u8,
    },
    /// Starts a timer with a value, stops it or asks for what is left of it: `action` is 0, 1 or 2.
    TimerManagement {
        action: u8,
        timer: u8,
        value: TimeValue,
    },
    IdleText {
        text: Octets,
    },
}

impl Proactive {
    /// A second command that is the same.
    pub fn copy(&self) -> Self
        ensures { result ≡ self.now }
    {
        match self {
            Self::Refresh { mode } => Self::Refresh { mode: *mode },
            Self::MoreTime => Self::MoreTime,
            Self::PollInterval { seconds } => Self::PollInterval { seconds: *seconds },
            Self::SetUpEventList { events } => Self::SetUpEventList {
                events: events.copy(),
            },
            Self::PlayTone { tone } => Self::PlayTone { tone: *tone },
            Self::DisplayText { text } => Self::DisplayText { text: text.copy() },
            Self::GetInkey { text } => Self::GetInkey { text: text.copy() },
            Self::GetInput {
                text,
                digits,
                min,
                max,
            } => Self::GetInput {
                text: text.copy(),
                digits: *digits,
                min: *min,
                max: *max,
            },
            Self::SelectItem { title, items } => Self::SelectItem {
                title: title.copy(),
                items: items.copy(),
            },
            Self::SetUpMenu { title, items } => Self::SetUpMenu {
                title: title.copy(),
                items: items.copy(),
            },
            Self::LocalInformation { what } => Self::LocalInformation { what: *what },
            Self::TimerManagement {
                action,
                timer,
                value,
            } => Self::TimerManagement {
                action: *action,
                timer: *timer,
                value: *value,
            },
            Self::IdleText { text } => Self::IdleText { text: text.copy() },
        }
    }

    /// Whether the other command is the same.
    pub fn is_same(&self, other: &Self) -> bool
        ensures { IsTrue result ↔ (self.now ≡ other.now) }
    {
        match self {
            Self::Refresh { mode } => matches!(other, Self::Refresh { mode: m } if m == mode),
            Self::MoreTime => matches!(other, Self::MoreTime),
            Self::PollInterval { seconds } => {
                matches!(other, Self::PollInterval { seconds: s } if s == seconds)
            }
            Self::SetUpEventList { events } => {
                matches!(other, Self::SetUpEventList { events: e } if equal(e, events))
            }
            Self::PlayTone { tone } => matches!(other, Self::PlayTone { tone: t } if t == tone),
            Self::DisplayText { text } => {
                matches!(other, Self::DisplayText { text: t } if equal(t, text))
            }
            Self::GetInkey { text } =>
                matches!(other, Self::GetInkey { text: t } if equal(t, text)),
            Self::GetInput {
                text,
                digits,
                min,
                max,
            } => {
                matches!(other, Self::GetInput { text: t, digits: d, min: low, max: high }
                    if equal(t, text) && (d, low, high) == (digits, min, max))
            }
            Self::SelectItem { title, items } =>
                matches!(other, Self::SelectItem { title: t, items: i }
                if t.as_slice() == title.as_slice() && i.is_same(items)),
            Self::SetUpMenu { title, items } =>
                matches!(other, Self::SetUpMenu { title: t, items: i }
                if t.as_slice() == title.as_slice() && i.is_same(items)),
            Self::LocalInformation { what } => {
                matches!(other, Self::LocalInformation { what: w } if w == what)
            }
            Self::TimerManagement {
                action,
                timer,
                value,
            } => {
                matches!(other, Self::TimerManagement { action: a, timer: t, value: v }
                    if (a, t) == (action, timer) && v == value)
            }
            Self::IdleText { text } =>
                matches!(other, Self::IdleText { text: t } if equal(t, text)),
        }
    }
}

/// Whether two lists have the same bytes.
fn equal(one: &Octets, other: &Octets) -> bool
    ensures { IsTrue result ↔ (one.now ≡ other.now) }
{
    one.as_slice() == other.as_slice()
}
