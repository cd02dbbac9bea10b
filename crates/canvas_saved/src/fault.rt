//! Why a text is no saved document.
ghost use Rattle.std.specs.Prelude.{◌≡◌};
ghost use Rattle.canvas_saved.specs.Faults.{fault_code, fault_of_text};
ghost use Rattle.canvas_saved.specs.Opened.{fault_of};
ghost use Rattle.canvas_saved.specs.declared.fault.StoreFault.TheVariants.{OutOfMemory};

use canvas_code::{Coded, OutOfMemory};
use canvas_json::TextFault;
use canvas_record::TreeFault;
use std::alloc::AllocError;
use thiserror::Error;

/// Why a text is no saved document.
#[derive(Clone, Copy, Debug, PartialEq, Eq, Drop, Error)]
#[error("{}", self.name())]
pub enum StoreFault {
    /// The text is not JSON.
    BadJson,
    /// The text is JSON, but no object of format 1 or 2 with a next id and a list of at most as many
    /// shapes as the format has: 4,096 or 16,384.
    BadFormat,
    /// The element at this position, counted from 0, is no record within the limits of one.
    BadRecord { position: usize },
    /// The record at this position, counted from 0, does not belong to a page tree.
    BadTree { position: usize },
    /// The allocator refused memory.
    OutOfMemory,
}

impl Coded for StoreFault {
    ghost code_of = { fault_code };

    fn code(&self) -> u16 {
        match self {
            StoreFault::BadJson => 50,
            StoreFault::BadFormat => 60,
            StoreFault::BadRecord { .. } => 61,
            StoreFault::BadTree { .. } => 62,
            StoreFault::OutOfMemory => 1,
        }
    }
}

impl From<AllocError> for StoreFault {
    ghost from_gives = { λ _ fault. fault ≡ OutOfMemory };

    fn from(_error: AllocError) -> StoreFault {
        StoreFault::OutOfMemory
    }
}

impl From<OutOfMemory> for StoreFault {
    ghost from_gives = { λ _ fault. fault ≡ OutOfMemory };

    fn from(_error: OutOfMemory) -> StoreFault {
        StoreFault::OutOfMemory
    }
}

impl From<TextFault> for StoreFault {
    ghost from_gives = { λ why fault. fault ≡ fault_of_text why };

    fn from(why: TextFault) -> StoreFault {
        match why {
            TextFault::NotJson => StoreFault::BadJson,
            TextFault::OutOfMemory => StoreFault::OutOfMemory,
        }
    }
}

impl From<TreeFault> for StoreFault {
    ghost from_gives = { λ why fault. fault ≡ fault_of why };

    fn from(why: TreeFault) -> StoreFault {
        match why {
            TreeFault::OutOfMemory => StoreFault::OutOfMemory,
            TreeFault::BadRecord { position } => StoreFault::BadRecord { position },
            TreeFault::BadTree { position } => StoreFault::BadTree { position },
        }
    }
}
