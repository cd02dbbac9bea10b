//! What a session asks before bytes leave.

ghost use Rattle.std.specs.Prelude.{OnOk};

use std::io;
use std::sync::Wait;

/// What a session asks before bytes leave.
pub trait Settles {
    ghost use Rattle.std.specs.Prelude.{ℕ};

    /// When so many bytes of a session had been put in, all versions were kept of which they may
    /// tell. Only `settle` gives this.
    ghost settled: { Self → ℕ → Type 0 };

    /// Waits until all versions are kept up to the newest one that is published by now, so all of
    /// which the bytes of the session may tell. So many of its bytes were put in by now: those that
    /// were handed on, and behind them those that are to be. After an `Err` nothing is sent any
    /// more.
    fn settle<R: Wait>(&self, rt: &R, put_in: u64) -> io::Result<()>
        ensures { OnOk result (settled self.now put_in) };

    /// Whether the server is to end: no more can be kept, or there is no more to come. It is asked
    /// after each `settle`.
    fn has_ended<R: Wait>(&self, rt: &R) -> bool;

    /// Whether the session of a seat is to end as if its connection were gone: nothing of it is
    /// sent any more. It is asked after each `settle`.
    fn is_lost(&self, _seat: usize) -> bool {
        false
    }
}

/// For a server that keeps nothing: all is settled at once, and the server does not end.
#[derive(Clone, Copy, Debug)]
pub struct Unkept;

impl Settles for Unkept {
    ghost settled = { λ _ _. Unit {0} };

    fn settle<R: Wait>(&self, _rt: &R, _put_in: u64) -> io::Result<()> {
        Ok(())
    }

    fn has_ended<R: Wait>(&self, _rt: &R) -> bool {
        false
    }
}
