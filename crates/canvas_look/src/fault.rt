//! Why a board does not answer.

ghost use Rattle.std.specs.Prelude.{◌≡◌};
ghost use Rattle.canvas_look.specs.Fault.{board_fault_code};

use canvas_code::Coded;
use canvas_record::Refusal;
use thiserror::Error;

/// Why a board does not answer. After any of them the document is as it was.
#[derive(Clone, Copy, Debug, Drop, PartialEq, Eq, Error)]
#[error("{}", self.name())]
pub enum BoardFault {
    /// Memory could not be had.
    OutOfMemory,
    /// The document does not allow the edit.
    Refused(Refusal),
    /// As many changes are accepted as the board may accept.
    VersionsSpent,
    /// The seat has seen `front` changes, and the shared document has only `desk`.
    Behind { desk: u64, front: u64 },
    /// The seat is at the document named `own`, and was given one named `found`.
    Strangers { own: u64, found: u64 },
    /// A number of workers outside 1 to 16.
    BadWorkers,
    /// A board can't be made with such a setting.
    BadSetting,
    /// The shared document could not be entered.
    NoView,
}

impl Coded for BoardFault {
    ghost code_of = { board_fault_code };

    fn code(&self) -> u16 {
        match self {
            BoardFault::OutOfMemory => 1,
            BoardFault::Refused(why) => why.code(),
            BoardFault::VersionsSpent => 16,
            BoardFault::Behind { .. } => 17,
            BoardFault::Strangers { .. } => 18,
            BoardFault::BadWorkers => 31,
            BoardFault::BadSetting => 32,
            BoardFault::NoView => 33,
        }
    }
}
