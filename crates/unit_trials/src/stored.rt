//! A store whose calls may be asked for in any order: what may not be asked for is refused.
ghost use Rattle.std.specs.Prelude.{◌≡◌};

use crate::plans::Piece;
use crate::writing::{SIZE, is_usable, writes_of};
use card_state::Loaded;
use layout_mount::{MountFault, mount};
use layout_section::{Section, format};
use std::alloc::AllocError;
use std::marker::Model;
use store_form::{Store, StoreFault};
use uicc_types::{Full, OutOfMemory, Plan};

/// A store of 65,536 bytes, and whether it is known that no recovery is due.
#[derive(Drop)]
pub struct Stored<S: Store> {
    store: S,
    is_ready: bool,
}

/// What a contract sees of it is the store.
impl<S: Store> Model for Stored<S> {
    ghost use Rattle.std.specs.Prelude.{◌≡◌, true};
    ghost use Rattle.unit_trials.specs.declared.writing.TheConstants.{SIZE};

    ghost Value = { S };

    ghost view = { λ stored. stored.store };

    ghost invariant = { λ stored. (S.byte_count stored.store ≡ SIZE) × (stored.is_ready ≡ true → S.recovered stored.store ≡ true) };
}

/// Why a store did not do what it was asked for.
#[derive(Clone, Copy, PartialEq, Drop)]
pub enum Refusal {
    /// It may not be asked for that there, or now.
    NotAsked,
    Failed,
    PowerLost,
    NoMemory,
}

impl From<StoreFault> for Refusal {
    fn from(fault: StoreFault) -> Refusal {
        match fault {
            StoreFault::Failed => Refusal::Failed,
            StoreFault::PowerLost => Refusal::PowerLost,
        }
    }
}

impl From<OutOfMemory> for Refusal {
    fn from(_fault: OutOfMemory) -> Refusal {
        Refusal::NoMemory
    }
}

impl From<AllocError> for Refusal {
    fn from(_fault: AllocError) -> Refusal {
        Refusal::NoMemory
    }
}

impl From<Full> for Refusal {
    fn from(_fault: Full) -> Refusal {
        Refusal::NotAsked
    }
}

impl<S: Store> Stored<S> {
    /// A store that is to be recovered first.
    pub fn new(store: S) -> Stored<S>
        requires { S.byte_count store ≡ SIZE }
    {
        Stored {
            store,
            is_ready: false,
        }
    }

    /// The store, as it is.
    pub fn into_store(self) -> S
        ensures { S.byte_count result ≡ SIZE }
    {
        self.store
    }

    pub fn mark(&self) -> u8 {
        self.store.mark()
    }

    pub fn power_up(&mut self) {
        self.store.power_up();
    }

    pub fn arm(&mut self, plan: Plan) {
        self.store.arm(plan);
    }

    pub fn recover(&mut self) -> Result<(), Refusal> {
        self.is_ready = false;
        self.store.recover()?;
        self.is_ready = true;
        Ok(())
    }

    pub fn read(&mut self, at: usize, out: &mut [u8]) -> Result<(), Refusal> {
        if !self.is_ready || !is_usable(at, out.len()) {
            return Err(Refusal::NotAsked);
        }
        self.is_ready = false;
        self.store.read(at, out)?;
        self.is_ready = true;
        Ok(())
    }

    pub fn commit(&mut self, pieces: &[Piece]) -> Result<(), Refusal> {
        let writes = writes_of(pieces)?;
        if !self.is_ready {
            return Err(Refusal::NotAsked);
        }
        self.is_ready = false;
        self.store.commit(&writes)?;
        self.is_ready = true;
        Ok(())
    }

    pub fn prepare(&mut self, at: usize, bytes: &[u8]) -> Result<(), Refusal> {
        if !self.is_ready || !is_usable(at, bytes.len()) {
            return Err(Refusal::NotAsked);
        }
        self.is_ready = false;
        self.store.prepare(at, bytes)?;
        self.is_ready = true;
        Ok(())
    }

    /// Formats the card that a section describes.
    pub fn format(&mut self, section: &Section) -> Result<(), Refusal> {
        self.is_ready = false;
        format(&mut self.store, section)?;
        self.is_ready = true;
        Ok(())
    }

    /// Mounts what the store holds; none where that may not be asked for.
    pub fn mount(&mut self, loaded: &mut Loaded) -> Option<Result<(), MountFault>> {
        if !self.is_ready {
            return None;
        }
        self.is_ready = false;
        match mount(&mut self.store, loaded) {
            Ok(()) => {
                self.is_ready = true;
                Some(Ok(()))
            }
            Err(MountFault::NotACard(at)) => {
                self.is_ready = true;
                Some(Err(MountFault::NotACard(at)))
            }
            Err(fault) => Some(Err(fault)),
        }
    }
}
