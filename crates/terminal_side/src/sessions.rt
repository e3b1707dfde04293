//! What the handset does with what the card answers.
ghost use Rattle.std.specs.Prelude.{◌≡◌, Some, length};
ghost use Rattle.toolkit_commands.specs.Reading.{details_found};
ghost use Rattle.handset_model.specs.declared.known.Duty.{Duty as ADuty};
ghost use Rattle.handset_model.specs.Rules.{after_call, carried_out, fault_result, fetch_or_settle, followed, left_of, local_information, located, noted, refresh, respond, respond_done, ripe, settled, tell, timer_reply};
ghost use Rattle.handset_model.specs.declared.known.Duty.TheVariants.{ResetCard, Show, Transmit};
ghost use Rattle.handset_model.specs.declared.commands.Command.TheVariants.{Fetch, Respond};
ghost use Rattle.handset_model.specs.declared.commands.Reply.TheVariants.{Result};
ghost use Rattle.terminal_side.specs.Stages.{Asks, asked_at};

use crate::knowing::announced_by;
use crate::stages::Stage;
use crate::timers::{soonest, time_of, timer_in};
use handset_model::{Command, Due, Duty, Held, Known, Place, Reply, Report, Running};
use script_form::Note;
use toolkit_commands::qualifiers::{CARD_RESET, LOCATION, START};
use toolkit_commands::results::{
    BEYOND_CAPABILITIES, DATA_NOT_UNDERSTOOD, PERFORMED, TYPE_NOT_UNDERSTOOD, VALUES_MISSING,
};
use toolkit_commands::{Items, Proactive, ProactiveFault, found_details};
use uicc_types::Answer;

pub fn tell(report: Report, duty: &mut Duty) -> Stage
    ensures { Asks result duty.new (tell report) }
{
    *duty = Duty::Transmit(Command::Tell(report));
    Stage::Asked
}

pub fn respond(held: &Held, reply: Reply, duty: &mut Duty) -> Stage
    ensures { Asks result duty.new (respond held.now reply) }
{
    *duty = Duty::Transmit(Command::Respond {
        details: held.details,
        reply,
    });
    Stage::Asked
}

/// To respond with a result and no more.
pub fn respond_with(held: &Held, general: u8) -> Stage
    ensures { (duty : ADuty) → Asks result duty (respond held.now (Result general)) }
{
    Stage::Responding(held.details, general)
}

// ---- between two sessions

/// The timer that is to be reported, once its moment has come.
fn ripe(clock: u64, first: Option<Due>) -> Option<Due>
    ensures { result ≡ ripe clock first }
{
    first.filter(|due| due.due <= clock)
}

/// The session is over: the next timer is reported that is due in this line, or the line is done.
#[tactic(auto, unfolding(handset_model::specs::Rules::settled))]
pub fn settled(known: &Known, duty: &mut Duty) -> Stage
    ensures { Asks result duty.new (settled known.now) }
{
    if !known.is_timed {
        return Stage::Resting;
    }
    match ripe(known.clock, soonest(1, &known.timers)) {
        None => Stage::Resting,
        Some(Due { timer, due, value }) => tell(Report::Expired { timer, value, due }, duty),
    }
}

fn fetch(length: u8) -> Stage
    ensures { (duty : ADuty) → Asks result duty (Transmit (Fetch length)) }
{
    Stage::Fetching(length)
}

fn fetch_or_settle(announced: Option<u8>, known: &Known, duty: &mut Duty) -> Stage
    ensures { Asks result duty.new (fetch_or_settle announced known.now) }
{
    match announced {
        None => settled(known, duty),
        Some(length) => fetch(length),
    }
}

// ---- proactive commands

/// The card is to be reset.
pub fn reset_card(duty: &mut Duty) -> Stage
    ensures { Asks result duty.new ResetCard }
{
    *duty = Duty::ResetCard;
    Stage::Asked
}

fn located(place: &Option<Place>) -> Reply
    ensures { result ≡ located place.now }
{
    match place {
        None => Reply::Unable,
        Some(place) => Reply::Located {
            place: place.copy(),
        },
    }
}

/// What is left of a timer.
fn left_of(timer: u8, now: u64, running: Option<Running>) -> Reply
    ensures { result ≡ left_of timer now running }
{
    match running {
        None => Reply::NotRunning { timer },
        Some(running) => Reply::Left {
            timer,
            value: time_of(running.due.saturating_sub(now)),
        },
    }
}

fn timer_reply(action: u8, timer: u8, known: &Known) -> Reply
    ensures { result ≡ timer_reply action timer known.now }
{
    if action == START {
        return Reply::Started { timer };
    }
    left_of(timer, known.moment, timer_in(&known.timers, timer))
}

fn refresh(mode: u8, held: &Held, known: &Known, duty: &mut Duty) -> Stage
    ensures { Asks result duty.new (refresh mode held.now known.now) }
{
    if mode != CARD_RESET {
        respond_with(held, PERFORMED)
    } else if known.is_refreshed {
        respond(held, Reply::Unable, duty)
    } else {
        reset_card(duty)
    }
}

fn local_information(what: u8, known: &Known) -> Reply
    ensures { result ≡ local_information what known.now }
{
    if what == LOCATION {
        located(&known.place)
    } else {
        Reply::Result(BEYOND_CAPABILITIES)
    }
}

fn count_of(items: &Items) -> u8
    ensures { result ≡ length items.now }
{
    items.as_slice().len() as u8
}

fn show(note: Note, duty: &mut Duty) -> Stage
    ensures { Asks result duty.new (Show note) }
{
    *duty = Duty::Show(note);
    Stage::Asked
}

/// What becomes of a command that was fetched.
pub fn carried_out(held: &Held, known: &Known, duty: &mut Duty) -> Stage
    ensures { asked_at result duty.new (Some held.now) ≡ carried_out held.now.command held.now known.now }
{
    match &held.command {
        Proactive::DisplayText { .. }
        | Proactive::GetInkey { .. }
        | Proactive::GetInput { .. }
        | Proactive::IdleText { .. } => Stage::Showing,
        Proactive::SelectItem { items, .. } => show(Note::Choose(count_of(items)), duty),
        Proactive::SetUpMenu { items, .. } => show(Note::Menu(count_of(items)), duty),
        Proactive::SetUpEventList { .. } => respond_with(held, PERFORMED),
        Proactive::PlayTone { tone } => show(Note::Tone(*tone), duty),
        Proactive::MoreTime => respond_with(held, PERFORMED),
        Proactive::PollInterval { seconds } => {
            respond(held, Reply::Interval { seconds: *seconds }, duty)
        }
        Proactive::LocalInformation { what } => respond(
            held,
            local_information(*what, known),
            duty,
        ),
        Proactive::TimerManagement { action, timer, .. } => {
            respond(held, timer_reply(*action, *timer, known), duty)
        }
        Proactive::Refresh { mode } => refresh(*mode, held, known, duty),
    }
}

/// The result for a command that cannot be read.
fn fault_result(fault: ProactiveFault) -> u8
    ensures { result ≡ fault_result fault }
{
    match fault {
        ProactiveFault::UnknownType(_) => TYPE_NOT_UNDERSTOOD,
        ProactiveFault::Missing => VALUES_MISSING,
        ProactiveFault::Tlv | ProactiveFault::BadData => DATA_NOT_UNDERSTOOD,
    }
}

/// What becomes of a command that cannot be read.
pub fn refused(bytes: &[u8], fault: ProactiveFault) -> Stage
    ensures { (duty : ADuty) → Asks result duty
        (Transmit (Respond (details_found bytes.now) (Result (fault_result fault)))) }
{
    Stage::Responding(found_details(bytes), fault_result(fault))
}

// ---- answers

pub fn followed(answer: &Answer, known: &Known, duty: &mut Duty) -> Stage
    ensures { Asks result duty.new (followed answer.now known.now) }
{
    fetch_or_settle(announced_by(answer), known, duty)
}

/// What the card says of a call.
pub fn after_call(answer: &Answer, known: &Known, duty: &mut Duty) -> Stage
    ensures { Asks result duty.new (after_call answer.now.body (followed answer.now known.now)) }
{
    match answer.body.as_slice() {
        [0x00, 0x00] => show(Note::Call, duty),
        [0x01, 0x00] => show(Note::Barred, duty),
        _ => followed(answer, known, duty),
    }
}

// ---- notes

fn respond_done(held: &Option<Held>) -> Stage
    ensures { (duty : ADuty) → Asks result duty (respond_done held.now) }
{
    match held {
        None => Stage::Resting,
        Some(held) => respond_with(held, PERFORMED),
    }
}

/// What follows a note.
pub fn noted(note: &Note, known: &Known, duty: &mut Duty) -> Stage
    ensures { Asks result duty.new (noted note.now known.now) }
{
    match note {
        Note::Text(_) | Note::Ask(_) | Note::Choose(_) | Note::Busy => settled(known, duty),
        Note::Menu(_) | Note::Tone(_) | Note::Idle(_) => respond_done(&known.held),
        Note::Call | Note::Barred => fetch_or_settle(known.announced, known, duty),
    }
}
