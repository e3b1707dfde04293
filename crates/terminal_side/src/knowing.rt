//! What the handset knows, moved on by what happens.
ghost use Rattle.std.specs.Prelude.{◌≡◌, ◌+◌, ◌<◌, ◌^◌, Some, min, suc};
ghost use Rattle.handset_model.specs.History.{has, held_after, kind_of, kind_of_report, listed_after, listed_by, menu_by, moment_after, place_by, refreshed_by, span_of, announced_by, ends_all};
ghost use Rattle.handset_model.specs.Legal.{IsBounded};
ghost use Rattle.terminal_side.specs.Kept.{timers_after, timers_by, with_found, with_line, with_reset, with_sent, with_status};

use crate::timers::{seconds_of, set_timer};
use handset_model::{
    Command, Held, Known, LastSent, Listed, MOST_COMMANDS, Place, Report, Running,
};
use script_form::HandsetLine;
use toolkit_commands::qualifiers::{CARD_RESET, DEACTIVATE, START};
use toolkit_commands::{Items, Proactive};
use uicc_types::events::{IDLE_SCREEN, LOCATION_STATUS, USER_ACTIVITY};
use uicc_types::{Answer, StatusWord};

/// The card listed no events.
pub const NONE_LISTED: Listed = Listed {
    location: false,
    activity: false,
    idle: false,
};

// ---- lines

fn tell_place(place: &mut Option<Place>, line: &HandsetLine)
    requires { IsBounded line.now }
    ensures { place.new ≡ place_by line.now place.old }
{
    if let HandsetLine::NetPlace(told) = line {
        *place = Some(Place::from_slice(told.as_slice()));
    }
}

/// So many seconds pass by the line.
fn span_of(line: &HandsetLine) -> u32
    ensures { result ≡ span_of line.now }
{
    match line {
        HandsetLine::Time(seconds) => *seconds,
        _ => 0,
    }
}

/// A line was read.
#[tactic(auto, unfolding(crate::specs::Kept::with_line))]
pub fn hear(known: &mut Known, line: &HandsetLine)
    requires bounded { IsBounded line.now }
    requires time { known.old.clock + span_of line.now < 2 ^ 63 }
    ensures { known.new ≡ with_line line.now known.old }
{
    tell_place(&mut known.place, line);
    known.clock += u64::from(span_of(line));
    known.moment = known.clock;
    known.is_timed = matches!(line, HandsetLine::Time(_));
    known.is_refreshed = false;
    known.commands = 0;
}

// ---- commands

fn kind_of_report(report: &Report) -> LastSent
    ensures { result ≡ kind_of_report report.now }
{
    match report {
        Report::CallControl { .. } => LastSent::Calling,
        _ => LastSent::Reporting,
    }
}

fn kind_of(command: &Command) -> LastSent
    ensures { result ≡ kind_of command.now }
{
    match command {
        Command::SelectMf => LastSent::Selecting,
        Command::Fetch { .. } => LastSent::Fetching,
        Command::Tell(report) => kind_of_report(report),
        _ => LastSent::Another,
    }
}

/// An event that is reported once leaves the list.
fn strike_out(listed: &mut Listed, command: &Command)
    ensures { listed.new ≡ listed_after command.now listed.old }
{
    match command {
        Command::Tell(Report::UserActivity) => listed.activity = false,
        Command::Tell(Report::IdleScreen) => listed.idle = false,
        _ => {}
    }
}

/// The held command has its response.
fn let_go(held: &mut Option<Held>, command: &Command)
    ensures { held.new ≡ held_after command.now held.old }
{
    if let Command::Respond { .. } = command {
        *held = None;
    }
}

/// A timer that is reported stops.
fn stop_reported(timers: &mut [Option<Running>; 8], command: &Command)
    ensures { timers.new ≡ timers_after command.now timers.old }
{
    if let Command::Tell(Report::Expired { timer, .. }) = command {
        set_timer(timers, *timer, None);
    }
}

/// The moment that is lived through once the command is sent.
fn moment_after(command: &Command, clock: u64, moment: u64) -> u64
    ensures { result ≡ moment_after command.now clock moment }
{
    match command {
        Command::Tell(Report::Expired { due, .. }) => (*due).min(clock),
        _ => moment,
    }
}

/// The command was sent.
#[tactic(auto, unfolding(crate::specs::Kept::with_sent))]
pub fn send(known: &mut Known, command: &Command)
    ensures { known.new ≡ with_sent command.now known.old }
{
    strike_out(&mut known.listed, command);
    let_go(&mut known.held, command);
    stop_reported(&mut known.timers, command);
    known.moment = moment_after(command, known.clock, known.moment);
    count(known, kind_of(command));
}

/// A command of this kind was sent.
pub fn count(known: &mut Known, kind: LastSent)
    ensures { known.new ≡ record known.old { commands = min (suc known.old.commands) MOST_COMMANDS; last_sent = kind } }
{
    known.commands = known.commands.saturating_add(1);
    known.last_sent = kind;
}

// ---- answers

fn set_menu(menu: &mut Items, command: &Proactive)
    ensures { menu.new ≡ menu_by command.now menu.old }
{
    if let Proactive::SetUpMenu { items, .. } = command {
        *menu = items.copy();
    }
}

/// Whether the list has the event.
fn has(events: &[u8], code: u8) -> bool
    ensures { result ≡ has events.now code }
{
    events.iter().any(|event| *event == code)
}

fn set_events(listed: &mut Listed, command: &Proactive)
    ensures { listed.new ≡ listed_by command.now listed.old }
{
    if let Proactive::SetUpEventList { events } = command {
        let events = events.as_slice();
        *listed = Listed {
            location: has(events, LOCATION_STATUS),
            activity: has(events, USER_ACTIVITY),
            idle: has(events, IDLE_SCREEN),
        };
    }
}

fn manage_timer(timers: &mut [Option<Running>; 8], now: u64, command: &Proactive)
    requires { now < 2 ^ 63 }
    ensures { timers.new ≡ timers_by now command.now timers.old }
{
    if let Proactive::TimerManagement {
        action,
        timer,
        value,
    } = command
    {
        match *action {
            START => {
                let due = now + seconds_of(value);
                set_timer(timers, *timer, Some(Running { due, value: *value }))
            }
            DEACTIVATE => set_timer(timers, *timer, None),
            _ => {}
        }
    }
}

fn is_refreshed(command: &Proactive, before: bool) -> bool
    ensures { result ≡ refreshed_by command.now before }
{
    match command {
        Proactive::Refresh { mode } => *mode == CARD_RESET || before,
        _ => before,
    }
}

/// A command was fetched.
#[tactic(auto, unfolding(crate::specs::Kept::with_found))]
pub fn hold(known: &mut Known, held: Held)
    requires { known.old.moment < 2 ^ 63 }
    ensures { known.new ≡ with_found (Some held) known.old }
{
    set_menu(&mut known.menu, &held.command);
    set_events(&mut known.listed, &held.command);
    manage_timer(&mut known.timers, known.moment, &held.command);
    known.is_refreshed = is_refreshed(&held.command, known.is_refreshed);
    known.held = Some(held);
}

/// The length of the command that an answer announces.
pub fn announced_by(answer: &Answer) -> Option<u8>
    ensures { result ≡ announced_by answer.now }
{
    let [high, low] = answer.status.0.to_be_bytes();
    if high == 0x91 { Some(low) } else { None }
}

/// Whether the handset does nothing after the answer until the next reset.
fn ends_all(answer: &Answer, count: u16) -> bool
    ensures { result ≡ ends_all answer.now count }
{
    answer.status == StatusWord::MEMORY_PROBLEM || count == MOST_COMMANDS
}

/// The status of an answer is known.
#[tactic(auto, unfolding(crate::specs::Kept::with_status))]
pub fn take_status(known: &mut Known, answer: &Answer)
    ensures { known.new ≡ with_status answer.now known.old }
{
    known.announced = announced_by(answer);
    known.is_silent = ends_all(answer, known.commands) || known.is_silent;
}

// ---- resets

/// The card was reset: the handset forgets all but where and when it is.
#[tactic(auto, unfolding(crate::specs::Kept::with_reset))]
pub fn forget(known: &mut Known)
    ensures { known.new ≡ with_reset known.old }
{
    known.menu = Items::new();
    known.listed = NONE_LISTED;
    known.held = None;
    known.timers = [None; 8];
    known.is_silent = false;
}
