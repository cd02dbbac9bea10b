//! Why a list of records is no document.

ghost use Rattle.std.specs.Prelude.{◌≡◌};
ghost use Rattle.canvas_record.specs.Restored.{tree_fault_code};
ghost use Rattle.canvas_record.specs.declared.tree_faults.TreeFault.TheVariants.{OutOfMemory};

use canvas_code::{Coded, OutOfMemory};
use thiserror::Error;

/// Why a list of records is no document.
#[derive(Clone, Copy, Debug, PartialEq, Eq, Drop, Error)]
#[error("{}", self.name())]
pub enum TreeFault {
    /// There was no memory.
    OutOfMemory,
    /// The record at this position, counted from 0, is outside the limits of one record.
    BadRecord { position: usize },
    /// The record at this position, counted from 0, does not belong to a page tree.
    BadTree { position: usize },
}

impl Coded for TreeFault {
    ghost code_of = { tree_fault_code };

    fn code(&self) -> u16 {
        match self {
            TreeFault::OutOfMemory => 1,
            TreeFault::BadRecord { .. } => 61,
            TreeFault::BadTree { .. } => 62,
        }
    }
}

impl From<OutOfMemory> for TreeFault {
    ghost from_gives = { λ _ fault. fault ≡ OutOfMemory };

    fn from(_: OutOfMemory) -> TreeFault {
        TreeFault::OutOfMemory
    }
}
