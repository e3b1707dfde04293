//! How commands of the card are shown.

use crate::rows::Row;
use toolkit_commands::{Items, Proactive, TimeValue};
use uicc_types::ShortText;

/// Shows a command with all that it has.
pub fn show_proactive(command: &Proactive, row: &mut Row<'_>) {
    match command {
        Proactive::Refresh { mode } => row.show_number("refresh ", *mode),
        Proactive::MoreTime => row.show("more time"),
        Proactive::PollInterval { seconds } => {
            row.show_number("poll interval ", *seconds);
            row.show(" seconds");
        }
        Proactive::SetUpEventList { events } => {
            row.show_bytes("set up event list ", events.as_slice())
        }
        Proactive::PlayTone { tone } => row.show_byte("play tone ", *tone),
        Proactive::DisplayText { text } => row.show_text("display text ", text.as_slice()),
        Proactive::GetInkey { text } => row.show_text("get inkey ", text.as_slice()),
        Proactive::GetInput {
            text,
            digits,
            min,
            max,
        } => {
            row.show_text("get input ", text.as_slice());
            row.show_number(" ", *min);
            row.show_number(" to ", *max);
            row.show(if *digits { " digits" } else { " characters" });
        }
        Proactive::SelectItem { title, items } => show_choice("select item ", title, items, row),
        Proactive::SetUpMenu { title, items } => show_choice("set up menu ", title, items, row),
        Proactive::LocalInformation { what } => row.show_byte("local information ", *what),
        Proactive::TimerManagement {
            action,
            timer,
            value,
        } => {
            row.show_number("timer ", *timer);
            row.show_number(" action ", *action);
            show_time(value, row);
        }
        Proactive::IdleText { text } => row.show_text("idle text ", text.as_slice()),
    }
}

fn show_choice(name: &str, title: &ShortText, items: &Items, row: &mut Row<'_>) {
    row.show_text(name, title.as_slice());
    row.show(" of ");
    show_items(items, row);
}

/// Shows each item by its identifier and its text.
pub fn show_items(items: &Items, row: &mut Row<'_>) {
    let mut before = "";
    for item in items.as_slice() {
        row.show_number(before, item.id);
        row.show_text(" ", item.text.as_slice());
        before = ", ";
    }
    if before.is_empty() {
        row.show("nothing");
    }
}

fn show_time(value: &TimeValue, row: &mut Row<'_>) {
    show_two_digits(" ", value.hours, row);
    show_two_digits(":", value.minutes, row);
    show_two_digits(":", value.seconds, row);
}

fn show_two_digits(before: &str, number: u8, row: &mut Row<'_>) {
    row.show(before);
    row.show_number(if number < 10 { "0" } else { "" }, number);
}
