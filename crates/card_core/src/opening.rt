//! The opening of a card.
ghost use Rattle.std.specs.Prelude.{◌≡◌, ◌≢◌, [], ◌∷◌, ◌++◌, ◌≤◌, true, length, take, replicate, None, Err, OnOk, OnErr, IfOk, IfErr, IsErrOf};
ghost use Rattle.uicc_types.specs.Counts.{raised};
ghost use Rattle.card_state.specs.declared.sizes.TheConstants.{ROW_COUNT};
ghost use Rattle.card_state.specs.Memory.{memory};
ghost use Rattle.card_state.specs.Places.{memory_size};
ghost use Rattle.card_state.specs.States.{rows_of};
ghost use Rattle.layout_mount.specs.Mounted.{unread};
ghost use Rattle.applet_trait.specs.Minds.{minds_of};
ghost use Rattle.toolkit_model.specs.Commands.{woken_boxes};
ghost use Rattle.card_core.specs.Starts.{Opens, Refuses, IsKept, recoveries_at, recoveries_after};
ghost use Rattle.card_core.specs.Openings.{with_all_shelves};

use crate::box_waking::wake_boxes;
use crate::cards::CardOver;
use crate::laws::{tables_have_rows, the_mf_is_there};
use crate::opening_faults::OpenFault;
use crate::registered::Registered;
use crate::resetting::NOTHING_VERIFIED;
use crate::sessions::fresh_session;
use crate::starting::start;
use applet_trait::Applet;
use card_commits::tables_tell_states;
use card_state::Loaded;
use card_state::sizes::ROW_COUNT;
use event_dispatch::Index;
use file_tree::Channels;
use std::alloc::Global;
use store_form::Store;

// Adds an empty shelf.
fn add_shelf<B: Drop>(boxes: &mut Vec<Option<B>>) -> Result<(), OpenFault>
    ensures ok { OnOk result (boxes.new.items ≡ boxes.old.items ++ None ∷ []) }
    ensures err { OnErr result (boxes.new.items ≡ boxes.old.items) }
    ensures memory { IfErr result (λ fault. fault ≡ OpenFault.Memory) }
{
    match boxes.push(None) {
        Ok(()) => Ok(()),
        Err(_) => Err(OpenFault::Memory),
    }
}

// Adds so many empty shelves.
fn add_shelves<B: Drop>(boxes: &mut Vec<Option<B>>, missing: usize) -> Result<(), OpenFault>
    ensures ok { OnOk result (boxes.new.items ≡ boxes.old.items ++ replicate missing None) }
    ensures err { OnErr result (take (length boxes.old.items) boxes.new.items ≡ boxes.old.items) }
    ensures memory { IfErr result (λ fault. fault ≡ OpenFault.Memory) }
{
    for _ in 0..missing {
        match add_shelf(boxes) {
            Ok(()) => {}
            Err(fault) => return Err(fault),
        }
    }
    Ok(())
}

// Starts the card over what the store holds, and wakes the applets.
fn start_and_wake<S: Store, B: Applet>(
    store: &mut S,
    loaded: &mut Loaded,
    boxes: &mut [Option<B>],
) -> Result<(), OpenFault>
    requires size { S.byte_count store.old ≡ memory_size }
    requires shelves { length boxes.old ≡ ROW_COUNT }
    ensures opens { OnOk result (Opens (unread S.Store store.old) (memory S.Store store.new loaded.new)
        (minds_of B.mind boxes.old)) }
    ensures woke { OnOk result
        (minds_of B.mind boxes.new ≡ woken_boxes (rows_of loaded.new) (minds_of B.mind boxes.old)) }
    ensures asleep { OnErr result (boxes.new ≡ boxes.old) }
    ensures power { OnOk result ((S.meter store.new).powered ≡ true) }
    ensures refuses { IfErr result (Refuses (unread S.Store store.old) (unread S.Store store.new)
        (minds_of B.mind boxes.old)) }
    ensures keeps { IsKept (unread S.Store store.old) (unread S.Store store.new)
        (IsErrOf result OpenFault.Failed) (IsErrOf result OpenFault.PowerLost) }
    ensures recovers { S.recoveries store.new ≡ raised (S.recoveries store.old) }
    ensures no_memory { result ≢ Err OpenFault.Memory }
{
    match start(store, loaded, boxes) {
        Ok(()) => {
            wake_boxes(loaded, boxes);
            Ok(())
        }
        Err(fault) => Err(fault),
    }
}

// Takes the memory for the shelves, starts the card over what the store holds, and wakes the applets.
fn begin<S: Store, B: Applet>(
    store: &mut S,
    loaded: &mut Loaded,
    boxes: &mut Vec<Option<B>>,
) -> Result<(), OpenFault>
    requires size { S.byte_count store.old ≡ memory_size }
    requires shelves { length boxes.old.items ≤ ROW_COUNT }
    ensures opens { OnOk result (Opens (unread S.Store store.old) (memory S.Store store.new loaded.new)
        (with_all_shelves (minds_of B.mind boxes.old.items))) }
    ensures woke { OnOk result (minds_of B.mind boxes.new.items
        ≡ woken_boxes (rows_of loaded.new) (with_all_shelves (minds_of B.mind boxes.old.items))) }
    ensures boxes { OnErr result (take (length boxes.old.items) boxes.new.items ≡ boxes.old.items) }
    ensures power { OnOk result ((S.meter store.new).powered ≡ true) }
    ensures refuses { IfErr result (Refuses (unread S.Store store.old) (unread S.Store store.new)
        (with_all_shelves (minds_of B.mind boxes.old.items))) }
    ensures keeps { IsKept (unread S.Store store.old) (unread S.Store store.new)
        (IsErrOf result OpenFault.Failed) (IsErrOf result OpenFault.PowerLost) }
    ensures recovers { S.recoveries store.new ≡ recoveries_after result (S.recoveries store.old) }
{
    let missing = ROW_COUNT - boxes.as_slice().len();
    match add_shelves(boxes, missing) {
        Ok(()) => start_and_wake(store, loaded, boxes),
        Err(fault) => Err(fault),
    }
}

impl<S: Store, B: Applet> CardOver<S, B> {
    ghost use Rattle.card_core.specs.Cards.{parts_of};
    ghost use Rattle.card_core.specs.Openings.{IsOpened};

    /// Opens the card that the store holds, with these boxes on the shelves from 0 on; a shelf after the last of them is empty. The
    /// store is recovered and mounted, each registered applet's box is tested, then a card of version 1 of the layout is migrated,
    /// where its files leave room for that, and at last the registered applets are woken. All the memory that the card needs is
    /// taken first. However it ends, just one recovery of the store is asked for, but none before a `Memory`.
    ///
    /// A refusal hands the store and the boxes back. Before a `NotACard`, `NoBox` or `Memory` nothing is written; after `Failed` or
    /// `PowerLost` a card may be the migrated one.
    pub fn open(
        alloc: Global,
        store: S,
        cast: Vec<Option<B>>,
    ) -> Result<CardOver<S, B>, (OpenFault, S, Vec<Option<B>>)>
        requires size { S.byte_count store ≡ memory_size }
        requires shelves { length cast.items ≤ ROW_COUNT }
        ensures opened { IfOk result (λ card.
            IsOpened (unread S.Store store) (minds_of B.mind cast.items) (parts_of S.Store B.Applet card)) }
        ensures refuses { IfErr result (λ refused. Refuses (unread S.Store store) (unread S.Store refused.1)
            (with_all_shelves (minds_of B.mind cast.items)) refused.0) }
        ensures keeps { IfErr result (λ refused. IsKept (unread S.Store store) (unread S.Store refused.1)
            (refused.0 ≡ OpenFault.Failed) (refused.0 ≡ OpenFault.PowerLost)) }
        ensures recovers { IfErr result (λ refused. S.recoveries refused.1
            ≡ recoveries_at refused.0 (S.recoveries store)) }
        ensures boxes { IfErr result (λ refused. refused.2.items ≡ cast.items) }
    {
        // These calls are laws, and do nothing.
        tables_tell_states();
        the_mf_is_there();
        tables_have_rows();
        let mut store = store;
        let mut boxes = cast;
        let given = boxes.as_slice().len();
        let mut loaded = match Box::new(alloc, Loaded::new()) {
            Ok(loaded) => loaded,
            Err(_) => return Err((OpenFault::Memory, store, boxes)),
        };
        let session = match fresh_session(alloc) {
            Ok(session) => session,
            Err(_) => return Err((OpenFault::Memory, store, boxes)),
        };
        match begin(&mut store, &mut loaded, &mut boxes) {
            Ok(()) => Ok(CardOver {
                store,
                index: Index::build(&loaded),
                loaded,
                boxes,
                channels: Channels::new(),
                verified: NOTHING_VERIFIED,
                session,
                before: Registered::new(),
                leaving: None,
                is_on: true,
                is_due: false,
            }),
            Err(fault) => {
                boxes.truncate(given);
                Err((fault, store, boxes))
            }
        }
    }
}
