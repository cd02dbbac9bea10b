//! Why a line or a seat does not answer.
ghost use Rattle.std.specs.Prelude.{◌≡◌};
ghost use Rattle.canvas_line.specs.Fault.{line_fault_code};
ghost use Rattle.canvas_line.specs.declared.fault.LineFault.TheVariants as fault;

use canvas_code::{Coded, OutOfMemory};
use canvas_doc::Refusal;
use std::alloc::AllocError;
use thiserror::Error;

/// Why a line or a seat does not answer. After any of them the document is as it was.
#[derive(Clone, Copy, Debug, Drop, PartialEq, Eq, Error)]
#[error("{}", self.name())]
pub enum LineFault {
    /// Memory could not be had.
    OutOfMemory,
    /// The document does not allow the edit.
    Refused(Refusal),
    /// As many changes are accepted as the line may accept.
    VersionsSpent,
    /// The seat has seen `front` changes, and the desk has only `desk`.
    Behind { desk: u64, front: u64 },
    /// The seat is at the line named `own`, and was given one named `found`.
    Strangers { own: u64, found: u64 },
    /// No more seats could be had.
    NoSeats,
    /// A line can't be opened with such a setting.
    BadSetting,
    /// The published version could not be entered.
    NoView,
}

impl Coded for LineFault {
    ghost code_of = { line_fault_code };

    fn code(&self) -> u16 {
        match self {
            LineFault::OutOfMemory => 1,
            LineFault::Refused(why) => why.code(),
            LineFault::VersionsSpent => 16,
            LineFault::Behind { .. } => 17,
            LineFault::Strangers { .. } => 18,
            LineFault::NoSeats => 19,
            LineFault::BadSetting => 32,
            LineFault::NoView => 33,
        }
    }
}

impl From<AllocError> for LineFault {
    ghost from_gives = { λ _ f. f ≡ fault.OutOfMemory };

    fn from(_error: AllocError) -> LineFault {
        LineFault::OutOfMemory
    }
}

impl From<OutOfMemory> for LineFault {
    ghost from_gives = { λ _ f. f ≡ fault.OutOfMemory };

    fn from(_error: OutOfMemory) -> LineFault {
        LineFault::OutOfMemory
    }
}
