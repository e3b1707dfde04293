//! Why a card is not opened.

use layout_mount::MountFault;
use store_form::StoreFault;
use thiserror::Error;

/// Why a card was not opened.
#[derive(Clone, Copy, Debug, PartialEq, Eq, Error)]
pub enum OpenFault {
    /// The memory holds no card: the check at this place is the first that fails.
    #[error("no card: byte {0} is not as the layout has it")]
    NotACard(usize),
    /// The applet that is registered on this shelf has no box of its kind there; those on smaller shelves have theirs.
    #[error("shelf {0} has no box for its applet")]
    NoBox(u8),
    /// The memory failed.
    #[error("the memory failed")]
    Failed,
    /// Power was lost, or was not there.
    #[error("power was lost")]
    PowerLost,
    /// The allocator had no memory for the card.
    #[error("out of memory")]
    Memory,
}

impl From<StoreFault> for OpenFault {
    ghost use Rattle.std.specs.Prelude.{◌≡◌};
    ghost use Rattle.card_core.specs.OpeningFaults.{of_store};

    ghost from_gives = { λ fault gives. gives ≡ of_store fault };

    fn from(fault: StoreFault) -> OpenFault {
        match fault {
            StoreFault::Failed => OpenFault::Failed,
            StoreFault::PowerLost => OpenFault::PowerLost,
        }
    }
}

impl From<MountFault> for OpenFault {
    ghost use Rattle.std.specs.Prelude.{◌≡◌};
    ghost use Rattle.card_core.specs.OpeningFaults.{of_mount};

    ghost from_gives = { λ fault gives. gives ≡ of_mount fault };

    fn from(fault: MountFault) -> OpenFault {
        match fault {
            MountFault::NotACard(at) => OpenFault::NotACard(at),
            MountFault::Failed => OpenFault::Failed,
            MountFault::PowerLost => OpenFault::PowerLost,
        }
    }
}
