//! Why bytes are no image.

ghost use Rattle.std.specs.Prelude.{◌≡◌};
ghost use Rattle.canvas_ppm.specs.Fault.{fault_code};
ghost use Rattle.canvas_ppm.specs.declared.fault.PpmFault.TheVariants.{OutOfMemory};

use canvas_code::Coded;
use std::alloc::AllocError;
use thiserror::Error;

/// Why bytes were not read as an image.
#[derive(Clone, Copy, Debug, PartialEq, Eq, Drop, Error)]
#[error("{}", self.name())]
pub enum PpmFault {
    /// They do not begin with `P6`.
    NotP6,
    /// The header is cut off, lacks white space or a number, or has a number that is not accepted.
    BadHeader,
    /// There are fewer bytes than the sides ask for.
    Truncated,
    /// There are more bytes than the sides ask for.
    TooLong,
    /// The image is sound, and there was no memory for its raster.
    OutOfMemory,
}

impl Coded for PpmFault {
    ghost code_of = { fault_code };

    fn code(&self) -> u16 {
        match self {
            PpmFault::NotP6 => 40,
            PpmFault::BadHeader => 41,
            PpmFault::Truncated => 42,
            PpmFault::TooLong => 43,
            PpmFault::OutOfMemory => 1,
        }
    }
}

impl From<AllocError> for PpmFault {
    ghost from_gives = { λ _ fault. fault ≡ OutOfMemory };

    fn from(_error: AllocError) -> PpmFault {
        PpmFault::OutOfMemory
    }
}
