//! What the handset does for a line of its script.
ghost use Rattle.std.specs.Prelude.{◌≡◌, ◌≤◌, length};
ghost use Rattle.handset_model.specs.Legal.{IsBounded};
ghost use Rattle.handset_model.specs.Rules.{confirm, end_with, lists, pick_in_menu, pick_with, said, said_at, takes, tell, type_in};
ghost use Rattle.handset_model.specs.declared.known.Duty.{Duty as ADuty};
ghost use Rattle.handset_model.specs.declared.known.Duty.TheVariants.{Transmit};
ghost use Rattle.handset_model.specs.declared.commands.Command.TheVariants.{AskStatus};
ghost use Rattle.handset_model.specs.declared.commands.Report.TheVariants.{CallControl, Location};
ghost use Rattle.terminal_side.specs.Stages.{Asks};

use crate::sessions::{reset_card, respond, respond_with, settled, tell};
use crate::stages::Stage;
use handset_model::{Digits, Duty, Held, Known, Place, Reply, Report, Typed};
use script_form::HandsetLine;
use toolkit_commands::results::{BACKWARD_MOVE, NO_RESPONSE, PERFORMED, SESSION_ENDED};
use toolkit_commands::{Items, Proactive};
use uicc_types::Octets;

/// The held text was read.
fn confirm(held: &Held) -> Stage
    ensures { (duty : ADuty) → Asks result duty (confirm held.now.command held.now) }
{
    match held.command {
        Proactive::DisplayText { .. } => respond_with(held, PERFORMED),
        _ => Stage::Resting,
    }
}

/// Whether a text of so many bytes is what the command asks for.
fn takes(command: &Proactive, count: usize) -> bool
    ensures { result ≡ takes command.now count }
{
    match command {
        Proactive::GetInkey { .. } => count == 1,
        Proactive::GetInput { min, max, .. } => {
            usize::from(*min) <= count && count <= usize::from(*max)
        }
        _ => false,
    }
}

/// A text was typed.
fn type_in(text: &Octets, held: &Held, duty: &mut Duty) -> Stage
    requires { length text.now ≤ 30 }
    ensures { Asks result duty.new (type_in text.now held.now) }
{
    let bytes = text.as_slice();
    if !takes(&held.command, bytes.len()) {
        return Stage::Resting;
    }
    let text = Typed::from_slice(bytes);
    respond(held, Reply::Typed { text }, duty)
}

/// Whether an item of the list has the identifier.
fn lists(id: u8, items: &Items) -> bool
    ensures { result ≡ lists id items.now }
{
    items.as_slice().iter().any(|item| item.id == id)
}

fn pick_in_menu(id: u8, known: &Known, duty: &mut Duty) -> Stage
    ensures { Asks result duty.new (pick_in_menu id known.now) }
{
    if lists(id, &known.menu) {
        tell(Report::MenuSelection { item: id }, duty)
    } else {
        Stage::Resting
    }
}

/// An item of a held choice, or else of the menu.
fn pick(id: u8, known: &Known, duty: &mut Duty) -> Stage
    ensures { Asks result duty.new (pick_with id known.now.held known.now) }
{
    let Some(held) = &known.held else {
        return pick_in_menu(id, known, duty);
    };
    match &held.command {
        Proactive::SelectItem { items, .. } if lists(id, items) => {
            respond(held, Reply::Chosen { item: id }, duty)
        }
        Proactive::SelectItem { .. } => Stage::Resting,
        _ => pick_in_menu(id, known, duty),
    }
}

/// The user ends the held command with this result.
fn end_with(general: u8, known: &Known) -> Stage
    ensures { (duty : ADuty) → Asks result duty (end_with general known.now) }
{
    match &known.held {
        None => Stage::Resting,
        Some(held) => respond_with(held, general),
    }
}

/// The card is asked how it is.
fn ask_status() -> Stage
    ensures { (duty : ADuty) → Asks result duty (Transmit AskStatus) }
{
    Stage::Polling
}

fn tell_digits(digits: &[u8], duty: &mut Duty) -> Stage
    requires { length digits.now ≤ 20 }
    ensures { Asks result duty.new (tell (CallControl digits.now)) }
{
    let digits = Digits::from_slice(digits);
    tell(Report::CallControl { digits }, duty)
}

fn tell_place(place: &[u8], duty: &mut Duty) -> Stage
    requires { length place.now ≤ 32 }
    ensures { Asks result duty.new (tell (Location place.now)) }
{
    let place = Place::from_slice(place);
    tell(Report::Location { place }, duty)
}

/// What a line asks for. Each function here answers what it asks for, and writes the duty where only a duty says it.
fn said(line: &HandsetLine, known: &Known, duty: &mut Duty) -> Stage
    requires { IsBounded line.now }
    ensures { Asks result duty.new (said line.now known.now) }
{
    match (line, &known.held) {
        (HandsetLine::UserOk, Some(held)) => confirm(held),
        (HandsetLine::UserEnd, _) => end_with(SESSION_ENDED, known),
        (HandsetLine::UserBack, _) => end_with(BACKWARD_MOVE, known),
        (HandsetLine::UserNone, _) => end_with(NO_RESPONSE, known),
        (HandsetLine::UserType(text), Some(held)) => type_in(text, held, duty),
        (HandsetLine::UserPick(id), _) => pick(*id, known, duty),
        (HandsetLine::UserPress, _) if known.listed.activity => tell(Report::UserActivity, duty),
        (HandsetLine::UserIdle, None) if known.listed.idle => tell(Report::IdleScreen, duty),
        (HandsetLine::UserDial(digits), _) => tell_digits(digits.as_slice(), duty),
        (HandsetLine::NetPlace(place), _) if known.listed.location => {
            tell_place(place.as_slice(), duty)
        }
        (HandsetLine::NetPoll, _) => ask_status(),
        (HandsetLine::Time(_), _) => settled(known, duty),
        (HandsetLine::Reset, _) => reset_card(duty),
        _ => Stage::Resting,
    }
}

/// The same, where the handset is silent or not: then only a reset does something.
pub fn said_at(is_silent: bool, line: &HandsetLine, known: &Known, duty: &mut Duty) -> Stage
    requires { IsBounded line.now }
    ensures { Asks result duty.new (said_at is_silent line.now known.now) }
{
    if !is_silent {
        return said(line, known, duty);
    }
    match line {
        HandsetLine::Reset => reset_card(duty),
        _ => Stage::Resting,
    }
}
