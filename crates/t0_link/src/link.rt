//! The link.
ghost use Rattle.std.specs.Prelude.{◌≡◌, ◌↔◌, false, [], None, IsErrOf, IsTrue, IfSome, OnErr, if◌then◌else◌, length, ◌≤◌};
ghost use Rattle.uicc_types.specs.Counts.{CountsFailure, raised};
ghost use Rattle.apdu_form.specs.Model.{command_in};
ghost use Rattle.t0_link.specs.Carrying.{RoseBy, carried, command_answer, cut_answer_to, is_carried, is_followed, received, tpdus_for, tpdus_sent};
ghost use Rattle.t0_link.specs.Exchanging.{Exchanges, IsPassed};
ghost use Rattle.t0_link.specs.Linking.{Passes, fetched, kept_back, link_answer};

use crate::answers::{MORE_DATA, announce, answer_status, cut, fetch};
use crate::commands::tpdu_of;
use crate::endpoint::{Endpoint, LinkFault};
use crate::tpdus::{Transfer, apdu_of, read_transfer};
use apdu_form::{Command, WrongLength, read_command};
use std::marker::Model;
use uicc_types::{Answer, StatusWord};

/// What stands between a terminal and a card on a T=0 line. It keeps nothing, or the data and the status of one answer, for GET RESPONSE to
/// fetch, and counts the TPDUs that it is given.
#[derive(Debug, Drop)]
pub struct Link {
    // An answer without data is one of which there is nothing to keep.
    kept: Answer,
    tpdus: u64,
}

impl Model for Link {
    ghost use Rattle.t0_link.specs.Linking.{LinkState, kept_of};

    ghost Value = { LinkState };

    ghost view = { λ link. record { kept = kept_of link.kept; tpdus = link.tpdus } };
}

impl Link {
    /// A link that keeps nothing, and was given no TPDU.
    pub fn new() -> Link
        ensures { result ≡ record { kept = None; tpdus = 0 } }
    {
        Link {
            kept: Answer::new(),
            tpdus: 0,
        }
    }

    /// Drops what is kept.
    pub fn clear(&mut self)
        ensures { self.new ≡ record self.old { kept = None } }
    {
        self.kept.body.clear();
    }

    /// Carries out one TPDU. `PowerLost` comes only where the card lost power in this call, and `NoPower` exactly where an APDU is
    /// passed to a card that is off. After either `out` has no data, and nothing is kept.
    pub fn exchange<E: Endpoint>(
        &mut self,
        card: &mut E,
        tpdu: &[u8],
        out: &mut Answer,
    ) -> Result<(), LinkFault>
        ensures moves { Exchanges E.Endpoint card.old card.new (link_answer self.old.kept tpdu.now) result
            (record { answer = out.new; kept = self.new.kept }) }
        ensures off { (result ≡ Err LinkFault.NoPower) ↔ (IsPassed (link_answer self.old.kept tpdu.now) ×
            (E.is_on card.old ≡ false)) }
        ensures count { CountsFailure (E.losses card.old) (E.losses card.new) (IsErrOf result LinkFault.PowerLost) }
        ensures empty { OnErr result (out.new.body ≡ []) }
        ensures none_kept { OnErr result (self.new.kept ≡ None) }
        ensures tpdus { self.new.tpdus ≡ raised self.old.tpdus }
    {
        self.count();
        match read_transfer(tpdu) {
            None => {
                answer_status(StatusWord::WRONG_LENGTH, out);
                Ok(())
            }
            Some(Transfer::GetResponse) => {
                self.respond(tpdu[4], None, out);
                Ok(())
            }
            Some(Transfer::Outgoing) => {
                self.clear();
                card.transmit(tpdu, out)
            }
            Some(Transfer::Incoming) => self.pass_and_keep(card, apdu_of(tpdu), out),
        }
    }

    // Counts a TPDU.
    fn count(&mut self)
        ensures kept { self.new.kept ≡ self.old.kept }
        ensures tpdus { self.new.tpdus ≡ raised self.old.tpdus }
    {
        self.tpdus = self.tpdus.saturating_add(1);
    }

    // Passes a command to the card, and keeps the data of its answer.
    fn pass_and_keep<E: Endpoint>(
        &mut self,
        card: &mut E,
        apdu: &[u8],
        out: &mut Answer,
    ) -> Result<(), LinkFault>
        ensures moves { Exchanges E.Endpoint card.old card.new (Passes apdu.now kept_back) result
            (record { answer = out.new; kept = self.new.kept }) }
        ensures off { (result ≡ Err LinkFault.NoPower) ↔ (E.is_on card.old ≡ false) }
        ensures count { CountsFailure (E.losses card.old) (E.losses card.new) (IsErrOf result LinkFault.PowerLost) }
        ensures empty { OnErr result (out.new.body ≡ []) }
        ensures none_kept { OnErr result (self.new.kept ≡ None) }
        ensures tpdus { self.new.tpdus ≡ self.old.tpdus }
    {
        let passed = card.transmit(apdu, &mut self.kept);
        match passed {
            Ok(()) => announce(&self.kept, out),
            Err(_) => out.body.clear(),
        }
        passed
    }

    // Answers GET RESPONSE, with so many of the data as are expected.
    fn respond(&mut self, p3: u8, expected: Option<u16>, out: &mut Answer)
        ensures answer { out.new ≡ cut_answer_to expected (fetched p3 self.old.kept).answer }
        ensures kept { self.new ≡ record self.old { kept = (fetched p3 self.old.kept).kept } }
    {
        fetch(p3, expected, &mut self.kept, out);
    }

    /// Sends a command as a terminal does: as its TPDU, then GET RESPONSE for its data, which are cut to Le. At least these are counted. The faults
    /// are those of `exchange`.
    pub fn command<E: Endpoint>(
        &mut self,
        card: &mut E,
        apdu: &[u8],
        out: &mut Answer,
    ) -> Result<(), LinkFault>
        requires { IsTrue (carried apdu.now) }
        ensures moves { IfSome (command_in apdu.now) (λ command.
            Exchanges E.Endpoint card.old card.new (command_answer self.old.kept command) result
            (record { answer = out.new; kept = self.new.kept })) }
        ensures off { (result ≡ Err LinkFault.NoPower) ↔ (E.is_on card.old ≡ false) }
        ensures count { CountsFailure (E.losses card.old) (E.losses card.new) (IsErrOf result LinkFault.PowerLost) }
        ensures empty { OnErr result (out.new.body ≡ []) }
        ensures none_kept { OnErr result (self.new.kept ≡ None) }
        ensures tpdus { RoseBy (tpdus_for apdu.now out.new.body) self.old.tpdus self.new.tpdus }
    {
        match read_command(apdu) {
            Ok(command) => self.send(card, &command, out),
            Err(WrongLength) => unreachable!(),
        }
    }

    // Sends a command that was read.
    fn send<E: Endpoint>(
        &mut self,
        card: &mut E,
        command: &Command<'_>,
        out: &mut Answer,
    ) -> Result<(), LinkFault>
        requires carried { IsTrue (is_carried command.now) }
        requires short { length command.now.body ≤ 255 }
        ensures moves { Exchanges E.Endpoint card.old card.new (command_answer self.old.kept command.now) result
            (record { answer = out.new; kept = self.new.kept }) }
        ensures off { (result ≡ Err LinkFault.NoPower) ↔ (E.is_on card.old ≡ false) }
        ensures count { CountsFailure (E.losses card.old) (E.losses card.new) (IsErrOf result LinkFault.PowerLost) }
        ensures empty { OnErr result (out.new.body ≡ []) }
        ensures none_kept { OnErr result (self.new.kept ≡ None) }
        ensures tpdus { RoseBy (tpdus_sent command.now out.new.body) self.old.tpdus self.new.tpdus }
    {
        let tpdu = tpdu_of(command);
        match self.exchange(card, tpdu.as_slice(), out) {
            Ok(()) => {
                self.receive(command.expected, out);
                Ok(())
            }
            Err(fault) => Err(fault),
        }
    }

    // Makes what a terminal has in the end of the link's answer. GET RESPONSE is a TPDU more.
    fn receive(&mut self, expected: Option<u16>, out: &mut Answer)
        ensures answer { out.new ≡ (received expected (record { answer = out.old; kept = self.old.kept })).answer }
        ensures kept { self.new.kept ≡ (received expected (record { answer = out.old; kept = self.old.kept })).kept }
        ensures tpdus { self.new.tpdus ≡ (if is_followed out.old then raised self.old.tpdus else self.old.tpdus) }
    {
        if out.status.0 / 256 == u16::from(MORE_DATA) {
            self.count();
            self.respond((out.status.0 % 256) as u8, expected, out);
        } else {
            cut(expected, out);
        }
    }
}
