//! A card, and how it is given away.
ghost use Rattle.std.specs.Prelude.{◌≡◌};
ghost use Rattle.uicc_types.specs.Counts.{armed};

use crate::registered::Registered;
use access_rules::Verified;
use applet_trait::Applet;
use card_state::Loaded;
use event_dispatch::Index;
use file_tree::Channels;
use proactive_handler::Session;
use store_form::Store;
use uicc_types::{Plan, Shelf};

/// A card over a store, with the boxes of its applets on their shelves. It takes no memory once it is opened.
#[derive(Drop)]
pub struct CardOver<S: Store, B> {
    pub(crate) store: S,
    // The entries of what the store holds, as they were when it was mounted, with what the commands that have since then ended without a
    // fault changed.
    pub(crate) loaded: Box<Loaded>,
    // The shelves of its rows by the events that they are registered for.
    pub(crate) index: Index,
    pub(crate) boxes: Vec<Option<B>>,
    pub(crate) channels: Channels,
    pub(crate) verified: Verified,
    pub(crate) session: Session,
    // The rows and the next sequence number as they were before the last command that might run applets.
    pub(crate) before: Registered,
    // The applet that a DELETE takes away which met a fault. Whether its row is gone is known once the store is mounted.
    pub(crate) leaving: Option<Shelf>,
    // Off from a loss of power on until a reset that succeeds.
    pub(crate) is_on: bool,
    // After a fault the store is recovered and mounted, and the boxes are woken, before anything else is done.
    pub(crate) is_due: bool,
}

/// A card with applets of any kinds.
pub type Card<S> = CardOver<S, Box<dyn Applet>>;

impl<S: Store, B: Applet> CardOver<S, B> {
    ghost use Rattle.applet_trait.specs.Minds.{minds_of};
    ghost use Rattle.card_core.specs.Cards.{parts_of, card_of, IsCardReady};

    /// The store and the boxes, as they are: place s of the list has the box of shelf s.
    pub fn close(self) -> (S, Vec<Option<B>>)
        ensures recovered { S.recovered result.0 ≡ (parts_of S.Store B.Applet self).recovered }
        ensures size { S.byte_count result.0 ≡ (parts_of S.Store B.Applet self).byte_count }
        ensures mark { S.store_mark result.0 ≡ (parts_of S.Store B.Applet self).store_mark }
        ensures told { S.stable result.0 ≡ (parts_of S.Store B.Applet self).told }
        ensures meter { S.meter result.0 ≡ (parts_of S.Store B.Applet self).meter }
        ensures commits { S.commits result.0 ≡ (parts_of S.Store B.Applet self).commits }
        ensures boxes { minds_of B.mind result.1.items ≡ (parts_of S.Store B.Applet self).boxes }
    {
        (self.store, self.boxes)
    }

    /// Sets the plan of faults of the store's device, and nothing else.
    pub fn arm(&mut self, plan: Plan)
        requires ready { IsCardReady (parts_of S.Store B.Applet self.old) }
        ensures ready { IsCardReady (parts_of S.Store B.Applet self.new) }
        ensures same { card_of (parts_of S.Store B.Applet self.new) ≡ card_of (parts_of S.Store B.Applet self.old) }
        ensures plan { (parts_of S.Store B.Applet self.new).meter
            ≡ armed (parts_of S.Store B.Applet self.old).meter plan }
        ensures others { parts_of S.Store B.Applet self.new
            ≡ record (parts_of S.Store B.Applet self.old) { meter = (parts_of S.Store B.Applet self.new).meter } }
    {
        self.store.arm(plan);
    }
}
