//! Why a follower's line can't go on.
ghost use Rattle.std.specs.Prelude.{◌≡◌};
ghost use Rattle.canvas_follow.specs.declared.fault.CourseFault.TheVariants.{OutOfMemory};

use std::alloc::{AllocError, AllocFailed};
use thiserror::Error;

/// Why a follower's line does not go on by a line of a feed.
#[derive(Clone, Copy, Debug, Drop, PartialEq, Eq, Error)]
pub enum CourseFault {
    /// Memory could not be had.
    #[error("out of memory")]
    OutOfMemory,
    /// The line is no line of an edit.
    #[error("it is no line of an edit")]
    NoEdit,
    /// The document does not accept the edit there, with the number of the refusal.
    #[error("its edit is refused here: {0}")]
    Refused(u16),
    /// The line is another one than the feed of this document has for that edit there: by its
    /// damage, its id or its version.
    #[error("it tells another damage, id or version than its edit makes here")]
    Otherwise,
    /// Another seat edited the line meanwhile. It can't be.
    #[error("another seat edits the document")]
    Busy,
    /// The newest version could not be seen.
    #[error("the newest version can't be seen")]
    NoView,
}

impl From<AllocError> for CourseFault {
    ghost from_gives = { λ _ fault. fault ≡ OutOfMemory };

    fn from(_error: AllocError) -> CourseFault {
        CourseFault::OutOfMemory
    }
}

impl<T: Drop> From<AllocFailed<T>> for CourseFault {
    ghost from_gives = { λ _ fault. fault ≡ OutOfMemory };

    fn from(_error: AllocFailed<T>) -> CourseFault {
        CourseFault::OutOfMemory
    }
}
