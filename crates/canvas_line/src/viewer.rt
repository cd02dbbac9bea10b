//! Readers of what is published. A version is published to each of them, so the seats of a line share a few.
ghost use Rattle.std.specs.Prelude.{◌≡◌, IfSome};
ghost use Rattle.std.specs.Arc.{arc_value};
ghost use Rattle.left_right.specs.Sides.{view as seat_view};
ghost use Rattle.canvas_line.specs.Trails.{Facts};
ghost use Rattle.canvas_line.specs.Rule.{Knows};
ghost use Rattle.canvas_line.specs.Standing.{IsVersionOf};

use crate::front::Lines;
use crate::painters::Painters;
use crate::published::{Latest, Published};
use crate::rule::{Constant, Sees, View};
use core::mem::replace_with;
use core::sync::yield_now;
use crossbeam_utils::CachePadded;
use left_right::reader::Reader;
use std::alloc::Global;
use std::hint::spin_loop;
use std::marker::{Model, PhantomData};
use std::sync::Mutex;

/// The most viewers of a line.
pub(crate) const MOST_VIEWERS: usize = 8;

/// How many viewers a look tries before it lets other threads run between its tries.
const SPINS: u32 = 64;

/// How many viewers a look tries at most.
const TRIES: u32 = 1_000_000_000;

pub(crate) type LineReader = Reader<Published, View, Constant, Global>;

// What is published now, unless there is no view of it.
fn read(reader: LineReader) -> (LineReader, Option<Latest>)
    ensures { (f : Facts) → Knows (seat_view reader.place) f
        → Knows (seat_view result.0.place) f
        × IfSome result.1 (λ l. (l.trace.book ≡ f.book)
        × IsVersionOf f.opening f.limit l.trace.changes (arc_value l.version)) }
{
    match reader.enter_as::<Sees>() {
        Ok(reading) => {
            let latest = reading.get().latest().ok();
            return (reading.leave(), latest);
        }
        Err(reader) => return (reader, None),
    }
}

/// A reader of a line's published version. Contracts see it as the line's name.
#[derive(Drop)]
pub(crate) struct Viewer<B: Lines> {
    reader: LineReader,
    name: u64,
    of: PhantomData<B>,
}

impl<B: Lines> Model for Viewer<B> {
    ghost use Rattle.std.specs.Prelude.{ℕ};
    ghost use Rattle.left_right.specs.Sides.{view as seat_view};
    ghost use Rattle.canvas_line.specs.Rule.{Knows};

    ghost Value = { ℕ };

    ghost view = { λ v. v.name };

    ghost invariant = { λ v. Knows (seat_view v.reader.place) (B.line v.name) };
}

impl<B: Lines> Viewer<B> {
    pub(crate) fn new(reader: LineReader, name: u64) -> Viewer<B>
        requires { Knows (seat_view reader.place) (B.line name) }
        ensures { result ≡ name }
    {
        Viewer {
            reader,
            name,
            of: PhantomData,
        }
    }

    fn viewed(self) -> (Viewer<B>, Option<Latest>)
        ensures same { result.0 ≡ self }
        ensures latest { IfSome result.1 (λ l. (l.trace.book ≡ (B.line self).book)
            × IsVersionOf (B.line self).opening (B.line self).limit l.trace.changes
            (arc_value l.version)) }
    {
        let Viewer {
            reader,
            name,
            of: _,
        } = self;
        let (reader, latest) = read(reader);
        (Viewer::new(reader, name), latest)
    }

    // What is published now, if this is a reader of the line of that name.
    fn latest(&mut self, name: u64) -> Option<Latest>
        ensures { IfSome result (λ l. (l.trace.book ≡ (B.line name).book)
            × IsVersionOf (B.line name).opening (B.line name).limit l.trace.changes
            (arc_value l.version)) }
    {
        if self.name != name {
            return None;
        }
        replace_with(self, (), |viewer: Viewer<B>, _| viewer.viewed())
    }
}

/// The viewers that the seats of a line share, each on cache lines of its own; and how many of
/// these seats paint.
#[derive(Drop)]
pub(crate) struct Viewers<B: Lines> {
    pub(crate) all: Vec<CachePadded<Mutex<Viewer<B>>>>,
    pub(crate) painters: Painters,
}

impl<B: Lines> Viewers<B> {
    /// What is published now, by the first viewer from the place `home` on that no other seat has
    /// in hand. It takes no lock that an editor holds, and tries on while other seats have all of
    /// them in hand.
    pub(crate) fn latest(&self, home: usize, name: u64) -> Option<Latest>
        ensures { IfSome result (λ l. (l.trace.book ≡ (B.line name).book)
            × IsVersionOf (B.line name).opening (B.line name).limit l.trace.changes
            (arc_value l.version)) }
    {
        let mut at = home;
        for attempt in 0..TRIES {
            if let Some(mut guard) = self.all.get(at)?.try_lock() {
                let viewer = &mut *guard;
                return viewer.latest(name);
            }
            at = if at + 1 < self.all.len() { at + 1 } else { 0 };
            if attempt < SPINS {
                spin_loop();
            } else {
                yield_now();
            }
        }
        None
    }
}
