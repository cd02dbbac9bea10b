//! Why a line is no request.
ghost use Rattle.std.specs.Prelude.{◌≡◌};
ghost use Rattle.canvas_wire.specs.Faults.{fault_code, fault_of_text};
ghost use Rattle.canvas_wire.specs.declared.fault.WireFault.TheVariants.{OutOfMemory};

use canvas_code::{Coded, OutOfMemory};
use canvas_json::TextFault;
use thiserror::Error;

/// Why a line is no request.
#[derive(Debug, Drop, Error)]
#[error("{}", self.name())]
pub enum WireFault {
    /// The line is not JSON.
    BadJson,
    /// The line is JSON, but no object.
    NotObject,
    /// The member `verb` is missing, or is no verb's name.
    BadVerb,
    /// A member is missing, or its value is of the wrong type or out of range.
    BadField,
    /// There is a member that the verb, or an object inside it, does not have.
    ExtraField,
    /// The allocator refused memory.
    OutOfMemory,
}

impl Coded for WireFault {
    ghost code_of = { fault_code };

    fn code(&self) -> u16 {
        match self {
            WireFault::BadJson => 50,
            WireFault::NotObject => 51,
            WireFault::BadVerb => 52,
            WireFault::BadField => 53,
            WireFault::ExtraField => 54,
            WireFault::OutOfMemory => 1,
        }
    }
}

impl From<OutOfMemory> for WireFault {
    ghost from_gives = { λ _ fault. fault ≡ OutOfMemory };

    fn from(_error: OutOfMemory) -> WireFault {
        WireFault::OutOfMemory
    }
}

impl From<TextFault> for WireFault {
    ghost from_gives = { λ why fault. fault ≡ fault_of_text why };

    fn from(why: TextFault) -> WireFault {
        match why {
            TextFault::NotJson => WireFault::BadJson,
            TextFault::OutOfMemory => WireFault::OutOfMemory,
        }
    }
}
