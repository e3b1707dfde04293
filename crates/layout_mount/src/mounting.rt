//! The mount of what a store holds.
ghost use Rattle.std.specs.Prelude.{◌≡◌, ℕ, true, false, Err, OnOk, OnErr, IsErrOf};
ghost use Rattle.card_state.specs.Blank.{empty_table};
ghost use Rattle.card_state.specs.Memory.{memory};
ghost use Rattle.card_state.specs.Places.{memory_size};
ghost use Rattle.layout_mount.specs.Mounted.{Mounts, FindsNoCard, OnlyReads, unread};

use crate::image::Image;
use crate::loading::load;
use card_state::Loaded;
use store_form::{Store, StoreFault};
use thiserror::Error;

/// Why no table was loaded.
#[derive(Clone, Copy, Debug, PartialEq, Eq, Error)]
pub enum MountFault {
    /// The memory holds no card: the check at this place is the first that fails.
    #[error("no card: byte {0} is not as the layout has it")]
    NotACard(usize),
    /// The memory failed.
    #[error("the memory failed")]
    Failed,
    /// Power was lost, or was not there.
    #[error("power was lost")]
    PowerLost,
}

impl From<StoreFault> for MountFault {
    ghost use Rattle.layout_mount.specs.Faults.{mount_fault};

    ghost from_gives = { λ fault gives. gives ≡ mount_fault fault };

    fn from(fault: StoreFault) -> MountFault {
        match fault {
            StoreFault::Failed => MountFault::Failed,
            StoreFault::PowerLost => MountFault::PowerLost,
        }
    }
}

// Loads the table, or answers why not and leaves any table.
fn mount_into<S: Store>(store: &mut S, into: &mut Loaded) -> Result<(), MountFault>
    requires recovered { S.recovered store.old ≡ true }
    requires size { S.byte_count store.old ≡ memory_size }
    requires empty { into.old ≡ empty_table }
    ensures mounts { OnOk result (Mounts (unread S.Store store.old) (memory S.Store store.new into.new)) }
    ensures no_card { (at : ℕ) → result ≡ Err (MountFault.NotACard at) →
        FindsNoCard (unread S.Store store.old) (unread S.Store store.new) at }
    ensures reads { OnlyReads (unread S.Store store.old) (unread S.Store store.new)
        (IsErrOf result MountFault.Failed) (IsErrOf result MountFault.PowerLost) }
    ensures off { (S.meter store.old).powered ≡ false →
        (result ≡ Err MountFault.PowerLost) × (S.meter store.new ≡ S.meter store.old)
        × (S.recovered store.new ≡ S.recovered store.old) }
{
    let mark = store.mark();
    let image = Image::read(store)?;
    // What an image holds are bytes: a law, which does nothing.
    image.holds_bytes();
    match load(&image, mark, into) {
        Ok(()) => Ok(()),
        Err(at) => Err(MountFault::NotACard(at)),
    }
}

/// Loads the table of what the store holds for good, if that is a card; else the table is empty. It takes no memory.
///
/// It answers by what it reads of 65,536 bytes, which are those of a store that tells them: they stand for a state, and the table
/// is theirs, or they are no card's.
pub fn mount<S: Store>(store: &mut S, into: &mut Loaded) -> Result<(), MountFault>
    requires recovered { S.recovered store.old ≡ true }
    requires size { S.byte_count store.old ≡ memory_size }
    ensures mounts { OnOk result (Mounts (unread S.Store store.old) (memory S.Store store.new into.new)) }
    ensures no_card { (at : ℕ) → result ≡ Err (MountFault.NotACard at) →
        FindsNoCard (unread S.Store store.old) (unread S.Store store.new) at }
    ensures empty { OnErr result (into.new ≡ empty_table) }
    ensures reads { OnlyReads (unread S.Store store.old) (unread S.Store store.new)
        (IsErrOf result MountFault.Failed) (IsErrOf result MountFault.PowerLost) }
    ensures off { (S.meter store.old).powered ≡ false →
        (result ≡ Err MountFault.PowerLost) × (S.meter store.new ≡ S.meter store.old)
        × (S.recovered store.new ≡ S.recovered store.old) }
{
    *into = Loaded::new();
    match mount_into(store, into) {
        Ok(()) => Ok(()),
        Err(fault) => {
            *into = Loaded::new();
            Err(fault)
        }
    }
}
