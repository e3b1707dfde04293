//! What an applet is told, and what it does.

use crate::rows::Row;
use crate::spelled::show_proactive;
use applet_trait::{Act, Stimulus};

/// The stimulus of a row's further words.
pub fn stimulus(row: &mut Row<'_>) -> Stimulus {
    match row.word() {
        "event" => Stimulus::Event {
            code: row.byte(),
            body: row.list(),
        },
        "response" => Stimulus::Response {
            result: row.byte(),
            item: row.small_number(),
            text: row.list(),
        },
        "timer" => Stimulus::Timer {
            timer: row.small_number(),
        },
        "went" => Stimulus::Went,
        "refused" => Stimulus::Refused,
        _ => {
            row.reject();
            Stimulus::Went
        }
    }
}

/// Shows what an applet does.
pub fn show_act(act: &Act, row: &mut Row<'_>) {
    match act {
        Act::Done => row.show("done"),
        Act::Send(command) => {
            row.show("send ");
            show_proactive(command, row);
        }
        Act::Keep(kept) => row.show_bytes("keep ", kept.as_slice()),
        Act::Register(code) => row.show_byte("register ", *code),
        Act::Deregister(code) => row.show_byte("deregister ", *code),
        Act::TakeTimer => row.show("take timer"),
        Act::FreeTimer(timer) => row.show_number("free timer ", *timer),
        Act::Answer(allowed) => row.show(if *allowed { "allow" } else { "bar" }),
    }
}
