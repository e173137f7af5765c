use std::alloc::{AllocError, AllocFailed};

/// Want of memory.
#[derive(Debug, Clone, Copy, PartialEq, Eq, Drop)]
pub struct Memory;

impl From<AllocError> for Memory {
    ghost from_gives = { λ _ e. Unit {0} };

    fn from(_error: AllocError) -> Memory {
        Memory
    }
}

impl<T: Drop> From<AllocFailed<T>> for Memory {
    ghost from_gives = { λ _ e. Unit {0} };

    fn from(_error: AllocFailed<T>) -> Memory {
        Memory
    }
}
