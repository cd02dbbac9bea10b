//! Why a picture is not painted.

ghost use Rattle.std.specs.Prelude.{◌≡◌};
ghost use Rattle.canvas_paint.specs.Workers.{fault_code};
ghost use Rattle.canvas_paint.specs.declared.fault.PaintFault.TheVariants.{OutOfMemory};

use canvas_code::{Coded, OutOfMemory};
use thiserror::Error;

/// Why a picture is not painted.
#[derive(Clone, Copy, Debug, PartialEq, Eq, Drop, Error)]
#[error("{}", self.name())]
pub enum PaintFault {
    /// A number of workers outside 1 to 16.
    BadWorkers,
    /// Memory could not be had.
    OutOfMemory,
}

impl Coded for PaintFault {
    ghost code_of = { fault_code };

    fn code(&self) -> u16 {
        match self {
            PaintFault::BadWorkers => 31,
            PaintFault::OutOfMemory => 1,
        }
    }
}

impl From<OutOfMemory> for PaintFault {
    ghost from_gives = { λ _ fault. fault ≡ OutOfMemory };

    fn from(_error: OutOfMemory) -> PaintFault {
        PaintFault::OutOfMemory
    }
}
