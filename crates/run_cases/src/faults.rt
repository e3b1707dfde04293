//! Why a line of a case is not taken.

use std::alloc::{AllocError, AllocFailed};

#[derive(Drop)]
pub enum Fault {
    NoMemory,
    /// The line is none of a case, for this reason.
    Mistake(&'static str),
}

impl From<AllocError> for Fault {
    fn from(_error: AllocError) -> Fault {
        Fault::NoMemory
    }
}

impl<T: Drop> From<AllocFailed<T>> for Fault {
    fn from(_error: AllocFailed<T>) -> Fault {
        Fault::NoMemory
    }
}
