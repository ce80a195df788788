// Why a case has no answer.
use mx_base::OutOfMemory;
use std::alloc::{AllocError, AllocFailed};

/// Why a case has no answer.
#[derive(Clone, Copy)]
pub enum CaseFault {
    /// No reader has this name, or the line doesn't give what it reads.
    Bad,
    /// Memory was refused.
    OutOfMemory,
}

impl From<OutOfMemory> for CaseFault {
    fn from(_: OutOfMemory) -> Self {
        CaseFault::OutOfMemory
    }
}

impl From<AllocError> for CaseFault {
    fn from(_: AllocError) -> Self {
        CaseFault::OutOfMemory
    }
}

impl<T: Drop> From<AllocFailed<T>> for CaseFault {
    fn from(_: AllocFailed<T>) -> Self {
        CaseFault::OutOfMemory
    }
}
