//! Which commands of an applet are admitted.
ghost use Rattle.std.specs.Prelude.{◌≡◌, true, false};
ghost use Rattle.std.specs.Option.{option_map_or};
ghost use Rattle.toolkit_commands.specs.Table.{HasWritableTime};
ghost use Rattle.toolkit_commands.specs.Matching.{IsShort};
ghost use Rattle.terminal_profile.specs.Profiles.{allowed};
ghost use Rattle.toolkit_model.specs.Running.{is_cards_own, is_held_by, is_within_rights, is_short, is_admitted};
ghost use Rattle.proactive_handler.specs.Acts.{setting_of};

use crate::settings::Setting;
use timer_table::Timers;
use toolkit_commands::{Proactive, spell};
use uicc_types::Shelf;

/// The modes of a REFRESH that an applet may ask for: initialization of the application, and a reset of the card (ETSI TS 102
/// 223, 8.6).
const INITIALIZATION: u8 = 0x03;

const CARD_RESET: u8 = 0x04;

/// How long a text fits in each command.
const SHORT_TEXT: usize = 235;

// Whether the card alone sends such a command.
fn is_cards_own(command: &Proactive) -> bool
    ensures { result ≡ is_cards_own command.now }
{
    matches!(
        command,
        Proactive::SetUpMenu { .. }
            | Proactive::SetUpEventList { .. }
            | Proactive::PollInterval { .. }
    )
}

/// Whether the applet of a shelf holds a timer.
pub(crate) fn is_held_by(timers: &Timers, shelf: Shelf, timer: u8) -> bool
    ensures { result ≡ is_held_by timers.now shelf.0 timer }
{
    match timers.owner(timer) {
        Some(owner) => owner.0 == shelf.0,
        None => false,
    }
}

// Whether the applet of a shelf may ask for it: a REFRESH of two modes, and a timer of its own.
fn is_within_rights(timers: &Timers, shelf: Shelf, command: &Proactive) -> bool
    ensures { result ≡ is_within_rights timers.now shelf.0 command.now }
{
    match command {
        Proactive::Refresh { mode } => *mode == INITIALIZATION || *mode == CARD_RESET,
        Proactive::TimerManagement { timer, .. } => is_held_by(timers, shelf, *timer),
        _ => true,
    }
}

// Whether its text is so short that it fits, whatever the command.
fn has_short_text(command: &Proactive) -> bool
    ensures { result ≡ true → IsShort command.now }
{
    match command {
        Proactive::SetUpEventList { events } => events.as_slice().len() <= SHORT_TEXT,
        Proactive::DisplayText { text } => text.as_slice().len() <= SHORT_TEXT,
        Proactive::GetInkey { text } => text.as_slice().len() <= SHORT_TEXT,
        Proactive::GetInput { text, .. } => text.as_slice().len() <= SHORT_TEXT,
        Proactive::IdleText { text } => text.as_slice().len() <= SHORT_TEXT,
        Proactive::SelectItem { .. } | Proactive::SetUpMenu { .. } => false,
        _ => true,
    }
}

// Whether it fits the 255 bytes that a length can say, by its bytes. Few commands need it, and the places for the bytes are made here alone.
#[inline(never)]
fn is_spelled(command: &Proactive) -> bool
    requires { HasWritableTime command.now }
    ensures { result ≡ is_short command.now }
{
    spell(command, 0).is_ok()
}

// Whether it fits the 255 bytes that a length can say. Most commands do whose bytes need not be made to see it.
#[tactic(auto, using(toolkit_commands::proofs::LengthsOfCommandsLemmas::short_enough))]
fn is_short(command: &Proactive) -> bool
    requires { HasWritableTime command.now }
    ensures { result ≡ is_short command.now }
{
    has_short_text(command) || is_spelled(command)
}

// Whether the handset sent its profile and can carry the command out.
fn is_allowed(at: &Setting, command: &Proactive) -> bool
    ensures { result ≡ option_map_or (λ profile. allowed profile command.now) at.now.profile false }
{
    match &at.profile {
        Some(profile) => profile.allows(command),
        None => false,
    }
}

/// Whether a command that an applet sends is admitted: the handset sent its profile and can carry the command out, which is an
/// applet's and has at most 255 bytes, its timer is the applet's, a REFRESH has one of two modes, and call control didn't begin
/// the run. Each part of a time value is at most 99.
pub(crate) fn is_admitted(at: &Setting, timers: &Timers, command: &Proactive) -> bool
    requires { HasWritableTime command.now }
    ensures { result ≡ is_admitted (setting_of at.now) timers.now command.now }
{
    is_allowed(at, command)
        && !is_cards_own(command)
        && is_short(command)
        && is_within_rights(timers, at.shelf, command)
        && !at.in_call
}
