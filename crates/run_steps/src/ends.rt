//! A card at its end of a link.
ghost use Rattle.std.specs.Prelude.{◌≡◌, ◌↔◌, false, [], Err, IsErrOf, OnErr};
ghost use Rattle.uicc_types.specs.Counts.{CountsFailure, names_fault as is_named};
ghost use Rattle.card_model.specs.Runs.{plans_joined};
ghost use Rattle.card_core.specs.Cards.{parts_of, IsCardReady};
ghost use Rattle.run_steps.specs.Ends.{TakesCommand, TakesReset, with_plan_set, without_plan};
ghost use Rattle.run_steps.specs.Taking.{seen};

use crate::steps::{MemoryFailed, Restarted};
use applet_trait::Applet;
use card_core::{CardFault, CardOver, ResetFault};
use card_model::runs_are_counted;
use std::marker::Model;
use store_form::Store;
use t0_link::{Endpoint, LinkFault};
use uicc_types::{Answer, Plan};

/// A card at its end of a link, with the plan of faults that waits for its next command or reset.
#[derive(Drop)]
pub struct CardEnd<S: Store, B: Applet> {
    card: CardOver<S, B>,
    waiting: Plan,
}

impl<S: Store, B: Applet> Model for CardEnd<S, B> {
    ghost use Rattle.card_core.specs.Cards.{parts_of, IsCardReady};
    ghost use Rattle.run_steps.specs.Ends.{End};

    ghost Value = { End };

    ghost view = { λ end. record { parts = parts_of S.Store B.Applet end.card; waiting = end.waiting } };

    ghost invariant = { λ end. IsCardReady (parts_of S.Store B.Applet end.card) };
}

impl<S: Store, B: Applet> CardEnd<S, B> {
    /// The end of a card for which this plan waits.
    pub fn new(card: CardOver<S, B>, waiting: Plan) -> CardEnd<S, B>
        requires { IsCardReady (parts_of S.Store B.Applet card) }
        ensures parts { result.parts ≡ parts_of S.Store B.Applet card }
        ensures waiting { result.waiting ≡ waiting }
    {
        CardEnd { card, waiting }
    }

    /// The card, and the plan that waits for it.
    pub fn into_parts(self) -> (CardOver<S, B>, Plan)
        ensures parts { parts_of S.Store B.Applet result.0 ≡ self.parts }
        ensures waiting { result.1 ≡ self.waiting }
        ensures ready { IsCardReady self.parts }
    {
        (self.card, self.waiting)
    }

    // Does nothing. The card of an end is always ready.
    pub(crate) fn is_ready(&self)
        ensures { IsCardReady self.now.parts }
    {
        let _card = &self.card;
    }

    /// Plans faults for the next command or reset, beside those that wait. A later plan takes the place of an earlier one, kind by kind.
    pub fn plan(&mut self, plan: Plan)
        ensures { self.new ≡ record self.old { waiting = plans_joined self.old.waiting plan } }
    {
        self.waiting = joined(&self.waiting, &plan);
    }

    // Sets the plan that waits, if it names a fault, so that it is in force and none waits any more. It answers whether it did.
    pub(crate) fn set_plan(&mut self) -> bool
        ensures set { self.new ≡ with_plan_set self.old }
        ensures is_set { result ≡ is_named self.old.waiting }
    {
        let plan = self.waiting;
        let is_set = plan.names_fault();
        if is_set {
            self.waiting = Plan::NONE;
            self.card.arm(plan);
        }
        is_set
    }

    // Takes back the plan that was set, be it met or not.
    pub(crate) fn clear_plan(&mut self, is_set: bool)
        ensures { self.new ≡ without_plan is_set self.old }
    {
        if is_set {
            self.card.arm(Plan::NONE);
        }
    }

    // Has the card reset.
    pub(crate) fn reset(&mut self) -> Result<Restarted, MemoryFailed>
        ensures takes { TakesReset self.old.parts result self.new.parts }
        ensures waits { self.new.waiting ≡ self.old.waiting }
    {
        reset(&mut self.card)
    }
}

// The plan that waits after one more.
fn joined(waiting: &Plan, plan: &Plan) -> Plan
    ensures { result ≡ plans_joined waiting.now plan.now }
{
    Plan {
        cut: plan.cut.or(waiting.cut),
        fail: plan.fail.or(waiting.fail),
        read_fail: plan.read_fail.or(waiting.read_fail),
    }
}

// Has the card reset.
fn reset<S: Store, B: Applet>(card: &mut CardOver<S, B>) -> Result<Restarted, MemoryFailed>
    requires ready { IsCardReady (parts_of S.Store B.Applet card.old) }
    ensures takes { TakesReset (parts_of S.Store B.Applet card.old) result (parts_of S.Store B.Applet card.new) }
    ensures ready { IsCardReady (parts_of S.Store B.Applet card.new) }
{
    // This call is a law, and does nothing.
    runs_are_counted();
    match card.reset() {
        Ok(()) => Ok(Restarted::Done),
        Err(ResetFault::PowerLost) => Ok(Restarted::Cut),
        Err(ResetFault::Failed) => Err(MemoryFailed),
    }
}

// Has the card take a command.
fn send<S: Store, B: Applet>(
    card: &mut CardOver<S, B>,
    apdu: &[u8],
    out: &mut Answer,
) -> Result<(), LinkFault>
    requires ready { IsCardReady (parts_of S.Store B.Applet card.old) }
    ensures takes { TakesCommand (parts_of S.Store B.Applet card.old) apdu.now (seen result out.new)
        (parts_of S.Store B.Applet card.new) }
    ensures ready { IsCardReady (parts_of S.Store B.Applet card.new) }
    ensures off { (result ≡ Err LinkFault.NoPower) ↔ ((parts_of S.Store B.Applet card.old).is_on ≡ false) }
    ensures untouched { result ≡ Err LinkFault.NoPower → card.new ≡ card.old }
    ensures goes { result ≡ Err LinkFault.PowerLost → (parts_of S.Store B.Applet card.new).is_on ≡ false }
    ensures count { CountsFailure (parts_of S.Store B.Applet card.old).meter.cuts
        (parts_of S.Store B.Applet card.new).meter.cuts (IsErrOf result LinkFault.PowerLost) }
    ensures empty { OnErr result (out.new.body ≡ []) }
{
    // This call is a law, and does nothing.
    runs_are_counted();
    match card.transmit(apdu, out) {
        Ok(()) => Ok(()),
        Err(CardFault::PowerLost) => Err(LinkFault::PowerLost),
        Err(CardFault::NoPower) => Err(LinkFault::NoPower),
    }
}

impl<S: Store, B: Applet> Endpoint for CardEnd<S, B> {
    ghost use Rattle.run_steps.specs.Ends.{MeetsAnswer, MeetsCut};

    ghost is_on = { λ end. end.parts.is_on };

    ghost losses = { λ end. end.parts.meter.cuts };

    ghost step = { MeetsAnswer };

    ghost lost = { MeetsCut };

    fn transmit(&mut self, apdu: &[u8], out: &mut Answer) -> Result<(), LinkFault> {
        send(&mut self.card, apdu, out)
    }
}
