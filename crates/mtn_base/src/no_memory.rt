// The one answer that needs no cause.
use std::alloc::{AllocError, AllocFailed};

/// Memory is wanting. Any call that takes memory may answer it, and no contract says when.
#[derive(Clone, Copy, PartialEq, Eq)]
pub struct NoMemory;

impl From<AllocError> for NoMemory {
    fn from(_: AllocError) -> Self {
        NoMemory
    }
}

impl<T: Drop> From<AllocFailed<T>> for NoMemory {
    fn from(_: AllocFailed<T>) -> Self {
        NoMemory
    }
}
