//! Resets, and what is due after a fault.
ghost use Rattle.std.specs.Prelude.{◌≡◌, length, true, All, OnOk, OnErr, IfSome, option_map};
ghost use Rattle.uicc_types.specs.Counts.{Rose};
ghost use Rattle.card_state.specs.declared.sizes.TheConstants.{ROW_COUNT};
ghost use Rattle.card_state.specs.States.{rows_of};
ghost use Rattle.card_state.specs.Memory.{Reads, memory};
ghost use Rattle.applet_trait.specs.Minds.{minds_of};
ghost use Rattle.toolkit_model.specs.Commands.{woken_boxes};
ghost use Rattle.card_model.specs.States.{HasBox, restarted};
ghost use Rattle.card_core.specs.Starts.{MayRestart, RestartsMemory, recovered_once};
ghost use Rattle.card_core.specs.Cards.{boxes_kept};

use crate::cards::CardOver;
use crate::faults::ResetFault;
use crate::laws::{tables_have_rows, the_mf_is_there};
use crate::toolkit::drop_leaving;
use access_rules::Verified;
use applet_trait::Applet;
use card_commits::tables_tell_states;
use card_model::restarts_are_good;
use card_state::Loaded;
use event_dispatch::Index;
use file_tree::Channels;
use store_form::{Store, StoreFault};
use uicc_types::Shelf;

/// No key is verified.
pub(crate) const NOTHING_VERIFIED: Verified = Verified {
    pin1: false,
    pin2: false,
    adm1: false,
};

// Recovers the store, mounts what it holds, wakes the applets, and drops the box of one that was leaving.
fn wake_again<S: Store, B: Applet>(
    store: &mut S,
    loaded: &mut Loaded,
    boxes: &mut [Option<B>],
    leaving: Option<Shelf>,
) -> Result<(), StoreFault>
    requires shelves { length boxes.old ≡ ROW_COUNT }
    requires kept { MayRestart (memory S.Store store.old loaded.old) (minds_of B.mind boxes.old) }
    ensures restarts { OnOk result (RestartsMemory (memory S.Store store.old loaded.old)
        (memory S.Store store.new loaded.new) (minds_of B.mind boxes.old)) }
    ensures woke { OnOk result (minds_of B.mind boxes.new ≡ woken_boxes (rows_of loaded.new)
        (boxes_kept leaving (rows_of loaded.new) (minds_of B.mind boxes.old))) }
    ensures asleep { OnErr result (boxes.new ≡ boxes.old) }
    ensures table { OnErr result (loaded.new ≡ loaded.old) }
    ensures reads { Reads (recovered_once (memory S.Store store.old loaded.old)) (memory S.Store store.new loaded.new)
        result }
    ensures read { OnOk result (Rose (S.reads store.old) (S.reads store.new)) }
{
    match crate::restarting::restart(store, loaded, boxes) {
        Ok(()) => {
            drop_leaving(loaded, boxes, leaving);
            Ok(())
        }
        Err(fault) => Err(fault),
    }
}

impl<S: Store, B: Applet> CardOver<S, B> {
    ghost use Rattle.card_core.specs.Cards.{parts_of, card_of, card_due, held_by, IsSet, IsCardReady};
    ghost use Rattle.card_core.specs.AnyStore.{BeginsAnew};
    ghost use Rattle.card_core.specs.Resetting.{KeepsBytes, Rests, Resets, ResetsStore, StartsAgain};

    // Recovers the store, mounts what it holds, clears what a reset clears, and wakes the applets. Until that is done it is due.
    pub(crate) fn restart(&mut self) -> Result<(), StoreFault>
        requires set { IsSet (parts_of S.Store B.Applet self.old) }
        requires boxes { IfSome (held_by (parts_of S.Store B.Applet self.old))
            (λ held. All (HasBox (parts_of S.Store B.Applet self.old).boxes) held.rows) }
        ensures restarted { card_of (parts_of S.Store B.Applet self.new)
            ≡ card_due (parts_of S.Store B.Applet self.old) }
        ensures begins { OnOk result (BeginsAnew (parts_of S.Store B.Applet self.old)
            (parts_of S.Store B.Applet self.new)) }
        ensures due { OnErr result (self.new.is_due ≡ true) }
        ensures table { OnErr result ((parts_of S.Store B.Applet self.new).table
            ≡ (parts_of S.Store B.Applet self.old).table) }
        ensures bytes { KeepsBytes (parts_of S.Store B.Applet self.old) (parts_of S.Store B.Applet self.new) }
        ensures rests { Rests result (parts_of S.Store B.Applet self.old) (parts_of S.Store B.Applet self.new) }
        ensures starts { StartsAgain result (parts_of S.Store B.Applet self.old) (parts_of S.Store B.Applet self.new) }
    {
        // These calls are laws, and do nothing.
        tables_tell_states();
        the_mf_is_there();
        tables_have_rows();
        self.is_due = true;
        match wake_again(
            &mut self.store,
            &mut self.loaded,
            &mut self.boxes,
            self.leaving,
        ) {
            Ok(()) => {
                self.channels = Channels::new();
                self.verified = NOTHING_VERIFIED;
                self.session.clear();
                self.leaving = None;
                self.index = Index::build(&self.loaded);
                self.is_due = false;
                Ok(())
            }
            Err(fault) => Err(fault),
        }
    }

    /// Powers the device up, and makes the card what it is after a reset: what it holds for good is the same, and the rest begins
    /// anew. However it ends, just one recovery of the store is asked for, and after Ok it was read at least once. After `Failed` what
    /// is left of that comes first in the next command, if there was power before; after `PowerLost` there is no power.
    pub fn reset(&mut self) -> Result<(), ResetFault>
        requires ready { IsCardReady (parts_of S.Store B.Applet self.old) }
        ensures restarted { card_of (parts_of S.Store B.Applet self.new)
            ≡ option_map restarted (card_of (parts_of S.Store B.Applet self.old)) }
        ensures ready { IsCardReady (parts_of S.Store B.Applet self.new) }
        ensures resets { Resets result (parts_of S.Store B.Applet self.old) (parts_of S.Store B.Applet self.new) }
        ensures store { ResetsStore result (parts_of S.Store B.Applet self.old) (parts_of S.Store B.Applet self.new) }
        ensures starts { StartsAgain result (parts_of S.Store B.Applet self.old) (parts_of S.Store B.Applet self.new) }
    {
        // This call is a law, and does nothing.
        restarts_are_good();
        self.store.power_up();
        match self.restart() {
            Ok(()) => {
                self.is_on = true;
                Ok(())
            }
            Err(StoreFault::Failed) => Err(ResetFault::Failed),
            Err(StoreFault::PowerLost) => {
                self.is_on = false;
                Err(ResetFault::PowerLost)
            }
        }
    }
}
