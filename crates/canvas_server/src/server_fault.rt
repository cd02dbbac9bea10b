//! Why a server does not serve, or serves no longer.

ghost use Rattle.std.specs.Prelude.{◌≡◌};
ghost use Rattle.canvas_server.specs.declared.server_fault.ServerFault.TheVariants.{OutOfMemory};
ghost use Rattle.canvas_server.specs.Faults.{server_fault_code, server_fault_name};

use canvas_code::name_of;
use std::alloc::AllocError;
use thiserror::Error;

/// Why a server does not serve, or serves no longer.
#[derive(Clone, Copy, Debug, Drop, PartialEq, Eq, Error)]
#[error("{}", self.name())]
pub enum ServerFault {
    /// A setting is outside its range.
    BadSetting,
    /// A number of workers outside 1 to 16.
    BadWorkers,
    /// A reader of the line could not be had.
    NoSeats,
    /// Memory could not be had.
    OutOfMemory,
    /// No connection can be accepted any more. It has no number.
    AcceptFault,
}

impl ServerFault {
    /// The number of the fault, or `None` for `AcceptFault`.
    pub fn code(&self) -> Option<u16>
        ensures { result ≡ server_fault_code self.now }
    {
        match self {
            ServerFault::BadSetting => Some(32),
            ServerFault::BadWorkers => Some(31),
            ServerFault::NoSeats => Some(19),
            ServerFault::OutOfMemory => Some(1),
            ServerFault::AcceptFault => None,
        }
    }

    /// The name of the fault, which is also its text.
    pub fn name(&self) -> &'static str
        ensures { result.now ≡ server_fault_name self.now }
    {
        match self.code() {
            Some(code) => name_of(code),
            None => "AcceptFault",
        }
    }
}

impl From<AllocError> for ServerFault {
    ghost from_gives = { λ _ fault. fault ≡ OutOfMemory };

    fn from(_error: AllocError) -> ServerFault {
        ServerFault::OutOfMemory
    }
}
