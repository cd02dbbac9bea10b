//! How long a line's history is, for those who take no lock.
ghost use Rattle.std.specs.Prelude.{◌≡◌, ◌≤◌, length};
ghost use Rattle.std.specs.Arc.{arc_value};
ghost use Rattle.crossbeam_utils.specs.Padded.{padded_value};

use crate::front::{Glimpse, Head, Lines};
use crossbeam_utils::CachePadded;
use std::alloc::Global;
use std::marker::{Model, PhantomData};
use std::sync::Arc;

/// Tells how many changes a line has accepted. Contracts see it as the line's name.
#[derive(Drop)]
pub struct Herald<B: Lines> {
    // An edit raises it before its version is published: until then there is no trace to publish.
    head: Arc<CachePadded<Head>, Global>,
    name: u64,
    of: PhantomData<B>,
}

impl<B: Lines> Model for Herald<B> {
    ghost use Rattle.std.specs.Prelude.{◌≡◌, ℕ};
    ghost use Rattle.std.specs.Arc.{arc_value};
    ghost use Rattle.crossbeam_utils.specs.Padded.{padded_value};

    ghost Value = { ℕ };

    ghost view = { λ h. h.name };

    ghost invariant = { λ h. (padded_value (arc_value h.head)).word.book ≡ (B.line h.name).book };
}

impl<B: Lines> Herald<B> {
    pub(crate) fn new(head: Arc<CachePadded<Head>, Global>, name: u64) -> Herald<B>
        requires { (padded_value (arc_value head)).word.book ≡ (B.line name).book }
        ensures { result ≡ name }
    {
        Herald {
            head,
            name,
            of: PhantomData,
        }
    }

    /// How many changes the line has accepted by now: no fewer than any of its seats has seen,
    /// whichever it is. It takes no lock.
    pub fn number(&self, seen: &Glimpse) -> u64
        requires { seen.now.book ≡ (B.line self.now).book }
        ensures { length seen.now.changes ≤ result }
    {
        self.head.number(seen)
    }
}
