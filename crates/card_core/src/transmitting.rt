//! The way of a command.
ghost use Rattle.std.specs.Prelude.{◌≡◌, [], true, false, Ok, Err, IsOk, OnOk, OnErr};

use crate::cards::CardOver;
use crate::faults::CardFault;
use applet_trait::Applet;
use card_laws::cards_stay_good;
use store_form::{Store, StoreFault};
use uicc_types::{Answer, StatusWord, are_bytes};

impl<S: Store, B: Applet> CardOver<S, B> {
    ghost use Rattle.card_core.specs.Cards.{parts_of, card_of, IsCardReady, IsLeftGood};
    ghost use Rattle.card_core.specs.AnyStore.{BeginsAnew, command_named, ActsAnew};
    ghost use Rattle.card_core.specs.Acting.{in_whole, ActsAs};
    ghost use Rattle.card_core.specs.Moves.{IsAnswered, Transmits, KeepsCardStore};
    ghost use Rattle.card_core.specs.BinaryReads.{ReadsBinaryOnce};
    ghost use Rattle.card_core.specs.Resetting.{KeepsBytes, RecoversIfDue, Rests};
    ghost use Rattle.card_core.specs.Transmitting.{CountsCalls, Takes, TellsState};

    // Does what is due after an earlier fault.
    fn catch_up(&mut self) -> Result<(), StoreFault>
        requires ready { IsCardReady (parts_of S.Store B.Applet self.old) }
        ensures same { card_of (parts_of S.Store B.Applet self.new) ≡ card_of (parts_of S.Store B.Applet self.old) }
        ensures stays { self.old.is_due ≡ false → IsOk result × (self.new ≡ self.old) }
        ensures begins { self.old.is_due ≡ true → OnOk result (BeginsAnew (parts_of S.Store B.Applet self.old)
            (parts_of S.Store B.Applet self.new)) }
        ensures due { OnErr result (self.new.is_due ≡ true) }
        ensures bytes { KeepsBytes (parts_of S.Store B.Applet self.old) (parts_of S.Store B.Applet self.new) }
        ensures rests { Rests result (parts_of S.Store B.Applet self.old) (parts_of S.Store B.Applet self.new) }
        ensures recovers { RecoversIfDue (parts_of S.Store B.Applet self.old) (parts_of S.Store B.Applet self.new) }
    {
        if self.is_due { self.restart() } else { Ok(()) }
    }

    // Does what is due, and then the command.
    fn perform(&mut self, apdu: &[u8], out: &mut Answer) -> Result<(), StoreFault>
        requires ready { IsCardReady (parts_of S.Store B.Applet self.old) }
        requires empty { out.old.body ≡ [] }
        ensures answered { IsAnswered result (parts_of S.Store B.Applet self.old) (parts_of S.Store B.Applet self.new)
            apdu.now out.new }
        ensures untouched { (status : StatusWord) → self.old.is_due ≡ false → command_named self.old.channels apdu.now
            ≡ Err status
            → self.new ≡ self.old }
        ensures acts { self.old.is_due ≡ false → ActsAs result (parts_of S.Store B.Applet self.old)
            (parts_of S.Store B.Applet self.new) out.new (in_whole (parts_of S.Store B.Applet self.old) apdu.now) }
        ensures anew { self.old.is_due ≡ true → OnOk result (ActsAnew (parts_of S.Store B.Applet self.old) apdu.now
            out.new
            (parts_of S.Store B.Applet self.new)) }
        ensures good { IsLeftGood result (parts_of S.Store B.Applet self.new) }
        ensures rests { Rests result (parts_of S.Store B.Applet self.old) (parts_of S.Store B.Applet self.new) }
        ensures recovers { RecoversIfDue (parts_of S.Store B.Applet self.old) (parts_of S.Store B.Applet self.new) }
        ensures asks { self.old.is_due ≡ false → ReadsBinaryOnce result (parts_of S.Store B.Applet self.old)
            (parts_of S.Store B.Applet self.new) apdu.now out.new }
    {
        // These two calls are laws, and do nothing.
        cards_stay_good();
        are_bytes(apdu);
        match self.catch_up() {
            Ok(()) => self.carry_out(apdu, out),
            Err(fault) => Err(fault),
        }
    }

    // After a fault a restart is due. A failure of the memory is answered, and after a loss of power there is no answer: the status
    // is what it was before the command.
    fn fail(
        &mut self,
        fault: StoreFault,
        before: StatusWord,
        out: &mut Answer,
    ) -> Result<(), CardFault>
        ensures failed { fault ≡ StoreFault.Failed → (result ≡ Ok tt) × (out.new.status ≡ StatusWord.MEMORY_PROBLEM) }
        ensures lost { fault ≡ StoreFault.PowerLost → result ≡ Err CardFault.PowerLost }
        ensures data { out.new.body ≡ out.old.body }
        ensures silent { OnErr result (out.new.status ≡ before) }
        ensures others { self.new ≡ record self.old { is_due = true; is_on = self.new.is_on } }
        ensures on { fault ≡ StoreFault.Failed → self.new.is_on ≡ self.old.is_on }
        ensures off { fault ≡ StoreFault.PowerLost → self.new.is_on ≡ false }
    {
        self.is_due = true;
        match fault {
            StoreFault::Failed => {
                out.status = StatusWord::MEMORY_PROBLEM;
                Ok(())
            }
            StoreFault::PowerLost => {
                self.is_on = false;
                out.status = before;
                Err(CardFault::PowerLost)
            }
        }
    }

    /// Takes a command and answers it. What is due after an earlier fault is done first.
    ///
    /// Where the memory fails the answer is `6581` without data, and the card is as after a reset, over one of the states that
    /// the command passes. `PowerLost` comes where power is lost in the command, which leaves the card so too, without power;
    /// from then on it is `NoPower`, until a reset succeeds. After an `Err` the answer has no data, and the status that it had
    /// before.
    ///
    /// `63CX` to a value that is presented says that its key has one try less than before, which is committed, and that X are
    /// left: `card_laws::guesses_are_bounded` has that of every such answer.
    ///
    /// What doesn't hang on what files hold is told by the table of entries alone, over any store: the answers to SELECT, STATUS,
    /// MANAGE CHANNEL, the commands on PINs and those of the toolkit, and what refuses a command on a file before access is
    /// tested. The answers to those that make, delete and resize files hang on where files lie too, and are told by each memory
    /// that has these entries. A command of the toolkit, or STATUS, that commits nothing meets no fault, nor does one that makes,
    /// deletes or resizes files and changes nothing. Where nothing was due before it, a command that a fault stops leaves the
    /// table as it was, whatever was committed: with that a card goes on whose memory shows no card any more. Whatever a command
    /// comes to, it leaves as it was what isn't its own to move; after what was due, a card that begins anew takes it.
    ///
    /// Over a store that tells its bytes, an answer other than `6581` comes after one commit for each that the command has, and
    /// no other, and the bytes are those after its changes, in order; so one that commits nothing leaves them, by
    /// `card_laws::answers_pass_changes`. Where the memory fails or power is lost, the state that it
    /// holds and the bytes are those after the commits that were acknowledged, or after one more; a fault that comes while the place
    /// of a file that is made or grows is prepared leaves any bytes there. Over any store how often it commits is told as its answer
    /// is, but for a command on PINs.
    pub fn transmit(&mut self, apdu: &[u8], out: &mut Answer) -> Result<(), CardFault>
        requires ready { IsCardReady (parts_of S.Store B.Applet self.old) }
        ensures moves { Transmits result (card_of (parts_of S.Store B.Applet self.old))
            (card_of (parts_of S.Store B.Applet self.new)) apdu.now out.new }
        ensures ready { IsCardReady (parts_of S.Store B.Applet self.new) }
        ensures performs { Takes result (parts_of S.Store B.Applet self.old) (parts_of S.Store B.Applet self.new)
            apdu.now out.new (self.new ≡ self.old) }
        ensures counts { CountsCalls result (parts_of S.Store B.Applet self.old) (parts_of S.Store B.Applet self.new)
            apdu.now out.new }
        ensures tells { TellsState result (parts_of S.Store B.Applet self.old) (parts_of S.Store B.Applet self.new)
            out.old out.new }
        ensures keeps { KeepsCardStore result (parts_of S.Store B.Applet self.old) (parts_of S.Store B.Applet self.new)
            out.new }
    {
        out.body.clear();
        if !self.is_on {
            return Err(CardFault::NoPower);
        }
        let before = out.status;
        match self.perform(apdu, out) {
            Ok(()) => Ok(()),
            Err(fault) => self.fail(fault, before, out),
        }
    }
}
