//! Why a feed can't go on.
ghost use Rattle.std.specs.Prelude.{◌≡◌};
ghost use Rattle.canvas_feed.specs.declared.fault.FeedFault.TheVariants.{OutOfMemory};

use canvas_code::OutOfMemory;
use std::alloc::{AllocError, AllocFailed};
use thiserror::Error;

/// Why a feed can't go on. After any of them it is told no further.
#[derive(Clone, Copy, Debug, Drop, PartialEq, Eq, Error)]
pub enum FeedFault {
    /// Memory could not be had.
    #[error("out of memory")]
    OutOfMemory,
    /// The journal could not be read.
    #[error("the journal can't be read")]
    Unread,
    /// The lines of the feed could not be written.
    #[error("its lines can't be written")]
    Unwritten,
    /// What stands in the journal is no line of an edit that is accepted there. It can't be.
    #[error("the journal has a line that is no edit there")]
    Strange,
    /// The feed has more than 2^64 bytes.
    #[error("the feed is full")]
    Full,
}

impl From<AllocError> for FeedFault {
    ghost from_gives = { λ _ fault. fault ≡ OutOfMemory };

    fn from(_error: AllocError) -> FeedFault {
        FeedFault::OutOfMemory
    }
}

impl<T: Drop> From<AllocFailed<T>> for FeedFault {
    ghost from_gives = { λ _ fault. fault ≡ OutOfMemory };

    fn from(_error: AllocFailed<T>) -> FeedFault {
        FeedFault::OutOfMemory
    }
}

impl From<OutOfMemory> for FeedFault {
    ghost from_gives = { λ _ fault. fault ≡ OutOfMemory };

    fn from(_error: OutOfMemory) -> FeedFault {
        FeedFault::OutOfMemory
    }
}
