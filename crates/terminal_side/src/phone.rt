//! The handset, step by step.
ghost use Rattle.std.specs.Prelude.{◌≡◌, ◌∷◌, ◌+◌, ◌<◌, ◌≤◌, ◌^◌, List, [], length, true, ℕ, IfSome, None};
ghost use Rattle.script_form.specs.Handset.{handset_line};
ghost use Rattle.script_form.specs.declared.handset.Note.TheVariants.{Text};
ghost use Rattle.toolkit_commands.specs.Reading.{details_found, proactive_of};
ghost use Rattle.handset_model.specs.History.{Happened, Said, Answered, Restarted, PowerCut, FoundOff, span_of};
ghost use Rattle.handset_model.specs.Legal.{IsBounded, item_of, next_item};
ghost use Rattle.handset_model.specs.Sending.{apdu_of};
ghost use Rattle.handset_model.specs.declared.commands.Command.TheVariants.{AskStatus, Fetch, Respond};
ghost use Rattle.handset_model.specs.declared.commands.Reply.TheVariants.{Result};
ghost use Rattle.handset_model.specs.declared.known.Duty.TheVariants.{Transmit};
ghost use Rattle.terminal_side.specs.Kept.{after_note, doing, hearing, hearing_answer, kept, losing_power, shows, starting, taking, taking_fetched, unstarted, with_next};
ghost use Rattle.terminal_side.specs.Stages.{Asks, shown_if, step_of, text_of_held, text_shown};

use crate::knowing::{NONE_LISTED, count, forget, hear, hold, send, take_status};
use crate::reactions::said_at;
use crate::sessions::{after_call, carried_out, followed, noted, refused};
use crate::spelling::{spell_command, spell_fetch, spell_result, spell_status};
use crate::stages::Stage;
use handset_model::{Command, Duty, Held, Known, LastSent, PhoneStep};
use script_form::{HandsetLine, Note, ScriptLine, handset_line};
use std::marker::Model;
use std::mem;
use toolkit_commands::{Details, Items, Proactive, read_command};
use uicc_types::{Answer, ApduBytes, Full, Octets, StatusWord};

/// The details of a command that wasn't read yet.
const NO_DETAILS: Details = Details {
    number: 0x00,
    kind: 0x00,
    qualifier: 0x00,
};

/// A handset that serves a card. What it does is a matter of what happened at it so far, and of nothing else.
#[derive(Drop)]
pub struct Phone {
    known: Known,
    stage: Stage,
    duty: Duty,
}

/// What is to be done next for a handset.
#[derive(Clone, Copy, Debug, PartialEq, Eq)]
pub enum Next {
    /// Nothing more for this line.
    Nothing,
    /// A command is to be sent to the card, and the handset to be told what came of it.
    Send,
    /// The card is to be reset.
    Reset,
    /// A note is to be written.
    Show,
}

impl Model for Phone {
    ghost use Rattle.terminal_side.specs.Kept.{IsInTime, Kept};
    ghost use Rattle.terminal_side.specs.Stages.{asked_at};

    ghost Value = { Kept };

    ghost view = { λ phone. record { known = phone.known; asked = asked_at phone.stage phone.duty phone.known.held } };

    ghost invariant = { λ phone. IsInTime phone.known };
}

impl Phone {
    /// A handset that was not started yet.
    #[tactic(auto, unfolding(crate::specs::Kept::unstarted, handset_model::specs::History::known))]
    pub fn new() -> Self
        ensures { result ≡ unstarted }
    {
        Phone {
            known: Known {
                menu: Items::new(),
                listed: NONE_LISTED,
                held: None,
                timers: [None; 8],
                place: None,
                clock: 0,
                moment: 0,
                is_timed: false,
                is_refreshed: false,
                commands: 0,
                last_sent: LastSent::NoCommand,
                announced: None,
                is_silent: false,
            },
            stage: Stage::Resting,
            duty: Duty::Rest,
        }
    }

    /// The card was started, or reset: the handset begins anew, and keeps only where and when it is.
    pub fn start(&mut self)
        ensures first { self.old ≡ unstarted → self.new ≡ kept [] }
        ensures again { (h : List Happened) → self.old ≡ kept h → self.new ≡ kept (Restarted ∷ h) }
    {
        self.begin()
    }

    /// A line of the script was read. What it says to a handset happens, and a line of another kind does nothing. With it the
    /// spans of time of all lines are less than 2^63 seconds.
    pub fn input(&mut self, line: &ScriptLine)
        requires bounded { IfSome (handset_line line.now) IsBounded }
        requires time { IfSome (handset_line line.now) (λ said. self.old.known.clock + span_of said < 2 ^ 63) }
        ensures heard { (h : List Happened) → self.old ≡ kept h
            → IfSome (handset_line line.now) (λ said. self.new ≡ kept (Said said ∷ h)) }
        ensures others { handset_line line.now ≡ None → self.new ≡ self.old }
    {
        if let Some(said) = handset_line(line) {
            self.hear(&said);
        }
    }

    /// Something happens at the handset, as `input` has it. With it the spans of time of all lines are less than 2^63 seconds.
    pub fn hear(&mut self, line: &HandsetLine)
        requires bounded { IsBounded line.now }
        requires time { self.old.known.clock + span_of line.now < 2 ^ 63 }
        ensures { (h : List Happened) → self.old ≡ kept h → self.new ≡ kept (Said line.now ∷ h) }
    {
        self.react(line)
    }

    /// What is to be done next for this line: to send a command, to reset the card or to write a note; None where the line is
    /// done. After a command the handset wants to be told the answer, or that there is no power; after a reset, that it was
    /// carried out, or that power was lost in it.
    pub fn next(&mut self) -> Option<PhoneStep>
        ensures item { (h : List Happened) → self.old ≡ kept h → result ≡ next_item h }
        ensures after { (h : List Happened) → self.old ≡ kept h → self.new ≡ kept (with_next h) }
    {
        let mut apdu = ApduBytes::new();
        let mut note = Note::Call;
        match self.next_into(&mut apdu, &mut note) {
            Next::Nothing => None,
            Next::Send => Some(PhoneStep::Send(apdu)),
            Next::Reset => Some(PhoneStep::Reset),
            Next::Show => Some(PhoneStep::Note(note)),
        }
    }

    /// The same as `next`, in places of the caller's: a command then stands in `apdu`, and a note in `note`. What stands there for
    /// one command is used again for the next.
    pub fn next_into(&mut self, apdu: &mut ApduBytes, note: &mut Note) -> Next
        ensures item { (h : List Happened) → self.old ≡ kept h → step_of result apdu.new note.new ≡ next_item h }
        ensures after { (h : List Happened) → self.old ≡ kept h → self.new ≡ kept (with_next h) }
    {
        self.step(apdu, note)
    }

    /// The card answered.
    pub fn take_answer(&mut self, answer: &Answer)
        ensures { (h : List Happened) → self.old ≡ kept h → self.new ≡ kept (Answered answer.now ∷ h) }
    {
        self.go_on(answer)
    }

    /// Power was lost in a command or in a reset, or a command met a card without power.
    pub fn lost_power(&mut self)
        ensures lost { (h : List Happened) → self.old ≡ kept h → self.new ≡ kept (PowerCut ∷ h) }
        ensures off { (h : List Happened) → self.old ≡ kept h → self.new ≡ kept (FoundOff ∷ h) }
    {
        self.fall_silent()
    }

    /// The seconds of all lines so far.
    pub fn clock(&self) -> u64
        ensures { result ≡ self.now.known.clock }
    {
        self.known.clock
    }

    #[tactic(auto, unfolding(crate::specs::Kept::with_reset))]
    fn begin(&mut self)
        ensures { self.new ≡ starting self.old }
    {
        forget(&mut self.known);
        self.duty = Duty::Transmit(Command::SelectMf);
        self.stage = Stage::Asked;
    }

    #[tactic(auto, unfolding(crate::specs::Kept::with_line))]
    fn react(&mut self, line: &HandsetLine)
        requires bounded { IsBounded line.now }
        requires time { self.old.known.clock + span_of line.now < 2 ^ 63 }
        ensures { self.new ≡ hearing line.now self.old }
    {
        hear(&mut self.known, line);
        self.stage = said_at(self.known.is_silent, line, &self.known, &mut self.duty);
    }

    #[tactic(auto, unfolding(crate::specs::Kept::with_answer, crate::specs::Kept::with_status, crate::specs::Kept::with_found))]
    fn go_on(&mut self, answer: &Answer)
        ensures { self.new ≡ hearing_answer answer.now self.old }
    {
        self.react_to(answer);
        take_status(&mut self.known, answer);
        if self.known.is_silent {
            self.stage = Stage::Resting;
        }
    }

    /// What an answer asks for, by what was sent last.
    #[tactic(auto, unfolding(crate::specs::Kept::with_found))]
    fn react_to(&mut self, answer: &Answer)
        ensures { self.new ≡ taking answer.now self.old }
    {
        let is_busy = answer.status == StatusWord::TOOLKIT_BUSY;
        match self.known.last_sent {
            LastSent::NoCommand => self.stage = Stage::Resting,
            LastSent::Selecting => {
                self.duty = Duty::Transmit(Command::SendProfile);
                self.stage = Stage::Asked;
            }
            LastSent::Fetching => self.carry_out(answer.body.as_slice()),
            LastSent::Calling | LastSent::Reporting if is_busy => {
                self.duty = Duty::Show(Note::Busy);
                self.stage = Stage::Asked;
            }
            LastSent::Calling => {
                self.stage = after_call(answer, &self.known, &mut self.duty);
            }
            LastSent::Reporting | LastSent::Another => {
                self.stage = followed(answer, &self.known, &mut self.duty);
            }
        }
    }

    /// What becomes of the answer to FETCH.
    #[tactic(auto, unfolding(crate::specs::Kept::with_found))]
    fn carry_out(&mut self, bytes: &[u8])
        requires { length bytes.now ≤ 256 }
        ensures { self.new ≡ taking_fetched (proactive_of bytes.now) (details_found bytes.now) self.old }
    {
        let mut held = Held {
            details: NO_DETAILS,
            command: Proactive::MoreTime,
        };
        match read_command(bytes, &mut held.command) {
            Ok(details) => {
                held.details = details;
                self.stage = carried_out(&held, &self.known, &mut self.duty);
                hold(&mut self.known, held);
            }
            Err(fault) => self.stage = refused(bytes, fault),
        }
    }

    fn fall_silent(&mut self)
        ensures { self.new ≡ losing_power self.old }
    {
        self.known.is_silent = true;
        self.stage = Stage::Resting;
    }

    #[tactic(auto, unfolding(crate::specs::Kept::with_sent))]
    fn step(&mut self, apdu: &mut ApduBytes, note: &mut Note) -> Next
        ensures item { step_of result apdu.new note.new ≡ item_of self.old.asked }
        ensures after { self.new ≡ doing self.old.asked self.old.known }
    {
        match self.stage {
            Stage::Resting | Stage::Awaiting => Next::Nothing,
            Stage::Fetching(length) => self.fetch(length, apdu),
            Stage::Polling => self.poll(apdu),
            Stage::Responding(details, general) => self.respond(details, general, apdu),
            Stage::Showing => self.show_text(note),
            Stage::Asked => match &self.duty {
                Duty::Rest | Duty::Await => Next::Nothing,
                Duty::ResetCard => Next::Reset,
                Duty::Transmit(command) => {
                    send(&mut self.known, command);
                    spell_command(apdu, command);
                    self.stage = Stage::Awaiting;
                    Next::Send
                }
                Duty::Show(_) => {
                    self.stage = show(&mut self.duty, &self.known, note);
                    Next::Show
                }
            },
        }
    }

    /// A command of so many bytes is fetched next.
    #[tactic(auto, unfolding(crate::specs::Kept::with_sent))]
    fn fetch(&mut self, length: u8, apdu: &mut ApduBytes) -> Next
        ensures sends { result ≡ Next.Send }
        ensures item { apdu.new ≡ apdu_of (Fetch length) }
        ensures after { self.new ≡ doing (Transmit (Fetch length)) self.old.known }
    {
        count(&mut self.known, LastSent::Fetching);
        spell_fetch(apdu, length);
        self.stage = Stage::Awaiting;
        Next::Send
    }

    /// The card is asked next how it is.
    #[tactic(auto, unfolding(crate::specs::Kept::with_sent))]
    fn poll(&mut self, apdu: &mut ApduBytes) -> Next
        ensures sends { result ≡ Next.Send }
        ensures item { apdu.new ≡ apdu_of AskStatus }
        ensures after { self.new ≡ doing (Transmit AskStatus) self.old.known }
    {
        count(&mut self.known, LastSent::Another);
        spell_status(apdu);
        self.stage = Stage::Awaiting;
        Next::Send
    }

    /// The result of a command is told next.
    #[tactic(auto, unfolding(crate::specs::Kept::with_sent))]
    fn respond(&mut self, details: Details, general: u8, apdu: &mut ApduBytes) -> Next
        ensures sends { result ≡ Next.Send }
        ensures item { apdu.new ≡ apdu_of (Respond details (Result general)) }
        ensures after { self.new ≡ doing (Transmit (Respond details (Result general))) self.old.known }
    {
        self.known.held = None;
        count(&mut self.known, LastSent::Another);
        spell_result(apdu, &details, general);
        self.stage = Stage::Awaiting;
        Next::Send
    }

    /// The text of the held command is shown next.
    #[inline(never)]
    fn show_text(&mut self, note: &mut Note) -> Next
        ensures item { (apdu : List ℕ) → step_of result apdu note.new ≡ item_of (text_of_held self.old.known.held) }
        ensures after { self.old.asked ≡ text_of_held self.old.known.held
            → self.new ≡ doing (text_of_held self.old.known.held) self.old.known }
    {
        let Some(held) = &self.known.held else {
            return Next::Nothing;
        };
        if write_text(&held.command, note) {
            self.stage = noted(note, &self.known, &mut self.duty);
            Next::Show
        } else {
            Next::Nothing
        }
    }
}

/// Puts the text of a command in the place of a note, and answers whether there is one to be shown.
fn write_text(command: &Proactive, note: &mut Note) -> bool
    ensures { shown_if result note.new ≡ text_shown command.now }
{
    match command {
        Proactive::DisplayText { text } => {
            write_display(text, note);
            true
        }
        Proactive::GetInkey { text } | Proactive::GetInput { text, .. } => {
            *note = Note::Ask(text.copy());
            true
        }
        Proactive::IdleText { text } => {
            *note = Note::Idle(text.copy());
            true
        }
        _ => false,
    }
}

/// A text is to be shown. Mostly the last note was one too, and has the place for it.
fn write_display(text: &Octets, note: &mut Note)
    ensures { note.new ≡ Text text.now }
{
    match note {
        Note::Text(shown) => {
            shown.clear();
            match shown.append(text.as_slice()) {
                Ok(()) => {}
                Err(Full) => unreachable!(),
            }
        }
        _ => *note = Note::Text(text.copy()),
    }
}

/// A note is to be shown next. What is asked then.
fn show(duty: &mut Duty, known: &Known, note: &mut Note) -> Stage
    requires { shows duty.old ≡ true }
    ensures item { item_of duty.old ≡ step_of Next.Show [] note.new }
    ensures after { Asks result duty.new (after_note duty.old known.now) }
{
    match mem::replace(duty, Duty::Rest) {
        Duty::Show(shown) => {
            let stage = noted(&shown, known, duty);
            *note = shown;
            stage
        }
        _ => unreachable!(),
    }
}
