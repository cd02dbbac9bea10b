//! The refusal of calls that can be refused for want of memory alone.

use crate::Coded;
use std::alloc::{AllocError, AllocFailed};
use thiserror::Error;

/// Memory could not be had. Calls whose only refusal this is answer it; what the call named is as before.
#[derive(Clone, Copy, Debug, PartialEq, Eq, Drop, Error)]
#[error("{}", self.name())]
pub struct OutOfMemory;

impl Coded for OutOfMemory {
    ghost code_of = { λ _. 1 };

    fn code(&self) -> u16 {
        1
    }
}

impl From<AllocError> for OutOfMemory {
    fn from(_error: AllocError) -> OutOfMemory {
        OutOfMemory
    }
}

impl<T: Drop> From<AllocFailed<T>> for OutOfMemory {
    fn from(_failed: AllocFailed<T>) -> OutOfMemory {
        OutOfMemory
    }
}
