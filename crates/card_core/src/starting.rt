//! The start of a card at its opening.
ghost use Rattle.std.specs.Prelude.{◌≡◌, ◌≢◌, true, length, OnOk, IfErr, IsErrOf, Err};
ghost use Rattle.uicc_types.specs.Counts.{raised};
ghost use Rattle.card_state.specs.declared.sizes.TheConstants.{ROW_COUNT};
ghost use Rattle.card_state.specs.Memory.{memory};
ghost use Rattle.card_state.specs.Places.{memory_size};
ghost use Rattle.layout_mount.specs.Mounted.{IsTable, unread};
ghost use Rattle.applet_trait.specs.Minds.{minds_of};
ghost use Rattle.card_core.specs.Starts.{Opens, Refuses, IsKept};

use crate::box_waking::first_without_box;
use crate::migrating::migrate;
use crate::opening_faults::OpenFault;
use applet_trait::Applet;
use card_state::{Loaded, standing_is_sound};
use layout_laws::{cards_are_known, migration_stands};
use layout_mount::mount;
use store_form::Store;

// Tests that the applet of each row has its box, and then migrates the card.
fn test_and_migrate<S: Store, B: Applet>(
    store: &mut S,
    loaded: &mut Loaded,
    boxes: &[Option<B>],
) -> Result<(), OpenFault>
    requires recovered { S.recovered store.old ≡ true }
    requires size { S.byte_count store.old ≡ memory_size }
    requires table { IsTable (S.store_mark store.old) (S.stable store.old) loaded.old }
    requires shelves { length boxes.now ≡ ROW_COUNT }
    ensures opens { OnOk result (Opens (unread S.Store store.old) (memory S.Store store.new loaded.new)
        (minds_of B.mind boxes.now)) }
    ensures refuses { IfErr result (Refuses (unread S.Store store.old) (unread S.Store store.new)
        (minds_of B.mind boxes.now)) }
    ensures no_memory { result ≢ Err OpenFault.Memory }
    ensures keeps { IsKept (unread S.Store store.old) (unread S.Store store.new)
        (IsErrOf result OpenFault.Failed) (IsErrOf result OpenFault.PowerLost) }
    ensures recovers { S.recoveries store.new ≡ S.recoveries store.old }
{
    // These three calls are laws, and do nothing.
    cards_are_known();
    standing_is_sound();
    migration_stands();
    if let Some(shelf) = first_without_box(loaded, boxes) {
        return Err(OpenFault::NoBox(shelf));
    }
    match migrate(store, loaded) {
        Ok(()) => Ok(()),
        Err(fault) => Err(OpenFault::from(fault)),
    }
}

/// Recovers the store, mounts what it holds, tests that the applet of each row has its box, and then migrates a card of version 1
/// of the layout, where its files leave room for that. It takes no memory and wakes no box. Each box was asked for its kind, so
/// that an opened card has applets of known kinds alone. However it ends, just one recovery is asked for.
pub fn start<S: Store, B: Applet>(
    store: &mut S,
    loaded: &mut Loaded,
    boxes: &[Option<B>],
) -> Result<(), OpenFault>
    requires size { S.byte_count store.old ≡ memory_size }
    requires shelves { length boxes.now ≡ ROW_COUNT }
    ensures opens { OnOk result (Opens (unread S.Store store.old) (memory S.Store store.new loaded.new)
        (minds_of B.mind boxes.now)) }
    ensures power { OnOk result ((S.meter store.new).powered ≡ true) }
    ensures refuses { IfErr result (Refuses (unread S.Store store.old) (unread S.Store store.new)
        (minds_of B.mind boxes.now)) }
    ensures no_memory { result ≢ Err OpenFault.Memory }
    ensures keeps { IsKept (unread S.Store store.old) (unread S.Store store.new)
        (IsErrOf result OpenFault.Failed) (IsErrOf result OpenFault.PowerLost) }
    ensures recovers { S.recoveries store.new ≡ raised (S.recoveries store.old) }
{
    store.recover()?;
    match mount(store, loaded) {
        Ok(()) => test_and_migrate(store, loaded, boxes),
        Err(fault) => Err(OpenFault::from(fault)),
    }
}
