//! The seats of a line.
ghost use Rattle.std.specs.Prelude.{◌≡◌, All, IfOk, IfSome};
ghost use Rattle.canvas_record.specs.History.{replay_of};
ghost use Rattle.canvas_json.specs.Saved.{saved_text_of};
ghost use Rattle.canvasd.specs.Seats.{IsUnused};

use crate::fault::Fault;
use crate::opening::saved;
use canvas_line::{LineFault, Lines, Seat};
use canvas_server::ServerFault;
use std::alloc::Global;

/// Takes one of the seats of a line, which are all at its beginning.
pub fn take_seat<L: Lines>(seats: &mut Vec<Seat<L>>) -> Option<Seat<L>>
    requires { All (λ s. IsUnused s) seats.old.items }
    ensures seat { IfSome result (λ s. IsUnused s) }
    ensures others { All (λ s. IsUnused s) seats.new.items }
{
    seats.pop()
}

/// The saved document after all that the seat has seen. `Busy` where the line has more.
pub fn saved_at<L: Lines>(alloc: Global, seat: &mut Seat<L>) -> Result<Vec<u8>, Fault>
    ensures { IfOk result
        (λ text. text.items ≡ saved_text_of (replay_of seat.old.opening seat.old.front)) }
{
    let seen = seat.number();
    let version = match seat.look() {
        Ok(version) => version,
        Err(fault) => return Err(line_fault(&fault)),
    };
    if version.number != seen {
        return Err(Fault::Busy);
    }
    saved(alloc, &version.document)
}

/// Why a line could not be opened, or did not show itself.
pub fn line_fault(fault: &LineFault) -> Fault {
    match fault {
        LineFault::BadSetting => Fault::Server(ServerFault::BadSetting),
        LineFault::NoSeats => Fault::Server(ServerFault::NoSeats),
        LineFault::NoView => Fault::Server(ServerFault::NoSeats),
        _ => Fault::Memory,
    }
}
