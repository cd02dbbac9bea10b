//! Places in a line's history, to be compared later.
ghost use Rattle.std.specs.Prelude.{◌≡◌, IsTrue};
ghost use Rattle.canvas_line.specs.Seats.{Begins, is_as_far, is_no_further};
ghost use Rattle.canvas_line.specs.Lines.{sight_of};

use crate::front::{Lines, Trace};
use std::marker::{Model, PhantomData};

/// What a seat had seen when the mark was made. It keeps no memory of the line.
#[derive(Drop)]
pub struct Mark<B: Lines> {
    trace: Trace,
    name: u64,
    of: PhantomData<B>,
}

impl<B: Lines> Model for Mark<B> {
    ghost use Rattle.std.specs.Prelude.{◌≡◌};
    ghost use Rattle.canvas_line.specs.Lines.{Sight, sight_of};

    ghost Value = { Sight };

    ghost view = { λ m. sight_of m.name (B.line m.name) m.trace.changes };

    ghost invariant = { λ m. m.trace.book ≡ (B.line m.name).book };
}

impl<B: Lines> Mark<B> {
    pub(crate) fn new(trace: Trace, name: u64) -> Mark<B>
        requires { trace.book ≡ (B.line name).book }
        ensures { result ≡ sight_of name (B.line name) trace.changes }
    {
        Mark {
            trace,
            name,
            of: PhantomData,
        }
    }

    /// Whether the other mark is of the same line, and has as many changes or more. Then its
    /// history begins with this one's.
    pub fn begins(&self, other: &Mark<B>) -> bool
        ensures test { result ≡ is_no_further self.now other.now }
        ensures begins { IsTrue result → Begins self.now other.now }
    {
        if self.name != other.name || other.trace.len() < self.trace.len() {
            return false;
        }
        self.trace.compare(&other.trace);
        true
    }

    /// Whether the other mark is of the same line, and has as many changes. Then they are one.
    pub fn is_at(&self, other: &Mark<B>) -> bool
        ensures test { result ≡ is_as_far self.now other.now }
        ensures same { IsTrue result → self.now ≡ other.now }
    {
        other.trace.len() == self.trace.len() && self.begins(other)
    }
}
