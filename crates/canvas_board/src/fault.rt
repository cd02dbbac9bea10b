//! What a board over a seat answers where its seat is refused.

ghost use Rattle.std.specs.Prelude.{◌≡◌};
ghost use Rattle.canvas_board.specs.Fault.{board_fault_of};

use canvas_line::LineFault;
use canvas_look::BoardFault;

/// What a board answers where its seat is refused. A line without a free seat is a document that
/// can't be entered.
pub(crate) fn board_fault_of(fault: LineFault) -> BoardFault
    ensures { result ≡ board_fault_of fault }
{
    match fault {
        LineFault::OutOfMemory => BoardFault::OutOfMemory,
        LineFault::Refused(why) => BoardFault::Refused(why),
        LineFault::VersionsSpent => BoardFault::VersionsSpent,
        LineFault::Behind { desk, front } => BoardFault::Behind { desk, front },
        LineFault::Strangers { own, found } => BoardFault::Strangers { own, found },
        LineFault::BadSetting => BoardFault::BadSetting,
        LineFault::NoSeats | LineFault::NoView => BoardFault::NoView,
    }
}
