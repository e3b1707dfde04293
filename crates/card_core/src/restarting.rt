//! The start of a card again, at a reset and after a fault.
ghost use Rattle.std.specs.Prelude.{◌≡◌, true, length, OnOk, OnErr};
ghost use Rattle.uicc_types.specs.Counts.{Rose};
ghost use Rattle.card_state.specs.declared.sizes.TheConstants.{ROW_COUNT};
ghost use Rattle.card_state.specs.Memory.{Reads, memory};
ghost use Rattle.card_state.specs.States.{rows_of};
ghost use Rattle.applet_trait.specs.Minds.{minds_of};
ghost use Rattle.toolkit_model.specs.Commands.{woken_boxes};
ghost use Rattle.card_core.specs.Starts.{MayRestart, RestartsMemory, recovered_once};

use crate::box_waking::{first_without_box, wake_boxes};
use applet_trait::Applet;
use card_state::Loaded;
use layout_laws::cards_are_known;
use layout_mount::{MountFault, mount};
use store_form::{Store, StoreFault};

// Mounts what the store holds, if that is a card each of whose applets has its box; else the table stays. A store that tells its
// bytes holds one, and what another holds can't be relied on.
fn mount_again<S: Store, B: Applet>(
    store: &mut S,
    loaded: &mut Loaded,
    boxes: &[Option<B>],
) -> Result<(), StoreFault>
    requires recovered { S.recovered store.old ≡ true }
    requires shelves { length boxes.now ≡ ROW_COUNT }
    requires kept { MayRestart (memory S.Store store.old loaded.old) (minds_of B.mind boxes.now) }
    ensures restarts { OnOk result (RestartsMemory (memory S.Store store.old loaded.old)
        (memory S.Store store.new loaded.new)
        (minds_of B.mind boxes.now)) }
    ensures table { OnErr result (loaded.new ≡ loaded.old) }
    ensures reads { Reads (memory S.Store store.old loaded.old) (memory S.Store store.new loaded.new) result }
    ensures read { Rose (S.reads store.old) (S.reads store.new) }
{
    // This call is a law, and does nothing.
    cards_are_known();
    let mut found = Loaded::new();
    match mount(store, &mut found) {
        Ok(()) => match first_without_box(&found, boxes) {
            None => {
                *loaded = found;
                Ok(())
            }
            Some(_) => Ok(()),
        },
        Err(MountFault::NotACard(_)) => Ok(()),
        Err(MountFault::Failed) => Err(StoreFault::Failed),
        Err(MountFault::PowerLost) => Err(StoreFault::PowerLost),
    }
}

/// Recovers the store, once, mounts what it holds, and wakes the applet of each row. After a fault the table and the boxes are as they
/// were.
///
/// Where what was read is no card, or one with an applet that has no box, the table stays as it was; of a store that tells its
/// bytes that is never read.
pub fn restart<S: Store, B: Applet>(
    store: &mut S,
    loaded: &mut Loaded,
    boxes: &mut [Option<B>],
) -> Result<(), StoreFault>
    requires shelves { length boxes.old ≡ ROW_COUNT }
    requires kept { MayRestart (memory S.Store store.old loaded.old) (minds_of B.mind boxes.old) }
    ensures restarts { OnOk result (RestartsMemory (memory S.Store store.old loaded.old)
        (memory S.Store store.new loaded.new)
        (minds_of B.mind boxes.old)) }
    ensures woke { OnOk result
        (minds_of B.mind boxes.new ≡ woken_boxes (rows_of loaded.new) (minds_of B.mind boxes.old)) }
    ensures asleep { OnErr result (boxes.new ≡ boxes.old) }
    ensures table { OnErr result (loaded.new ≡ loaded.old) }
    ensures reads { Reads (recovered_once (memory S.Store store.old loaded.old)) (memory S.Store store.new loaded.new)
        result }
    ensures read { OnOk result (Rose (S.reads store.old) (S.reads store.new)) }
{
    store.recover()?;
    mount_again(store, loaded, boxes)?;
    wake_boxes(loaded, boxes);
    Ok(())
}
