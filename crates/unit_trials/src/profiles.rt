//! Terminal profiles.

use crate::rows::Row;
use terminal_profile::Profile;
use toolkit_commands::{Items, Proactive, TimeValue};
use uicc_types::{Octets, ShortText};

/// `profile BYTES`: the commands and the events that it allows. `profile` alone is that of no terminal.
pub fn show_profile(row: &mut Row<'_>) {
    let bytes = row.all_bytes();
    let profile = if bytes.is_empty() {
        Profile::none()
    } else {
        Profile::read(bytes.as_slice())
    };
    for (name, command) in &commands() {
        if profile.allows(command) {
            row.part();
            row.show(name);
        }
    }
    for code in 0..=u8::MAX {
        if profile.allows_event(code) {
            row.part();
            row.show_byte("event ", code);
        }
    }
    row.end_list();
}

fn timer(action: u8) -> Proactive {
    let value = TimeValue {
        hours: 0,
        minutes: 0,
        seconds: 0,
    };
    Proactive::TimerManagement {
        action,
        timer: 1,
        value,
    }
}

/// One command of each name that a profile may allow.
fn commands() -> [(&'static str, Proactive); 15] {
    let text = Octets::new;
    [
        ("refresh", Proactive::Refresh { mode: 4 }),
        ("more time", Proactive::MoreTime),
        ("poll interval", Proactive::PollInterval { seconds: 30 }),
        (
            "set up event list",
            Proactive::SetUpEventList { events: text() },
        ),
        ("play tone", Proactive::PlayTone { tone: 16 }),
        ("display text", Proactive::DisplayText { text: text() }),
        ("get inkey", Proactive::GetInkey { text: text() }),
        (
            "get input",
            Proactive::GetInput {
                text: text(),
                digits: true,
                min: 0,
                max: 1,
            },
        ),
        (
            "select item",
            Proactive::SelectItem {
                title: ShortText::new(),
                items: Items::new(),
            },
        ),
        (
            "set up menu",
            Proactive::SetUpMenu {
                title: ShortText::new(),
                items: Items::new(),
            },
        ),
        ("local information", Proactive::LocalInformation { what: 0 }),
        ("start timer", timer(0)),
        ("stop timer", timer(1)),
        ("ask timer", timer(2)),
        ("idle text", Proactive::IdleText { text: text() }),
    ]
}
