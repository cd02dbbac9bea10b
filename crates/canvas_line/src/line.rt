//! Opening a line.
ghost use Rattle.std.specs.Prelude.{◌≡◌, ◌<◌, ◌≤◌, ◌^◌, [], All, IfOk, MatchResult, true, vec_len};
ghost use Rattle.canvas_line.specs.Lines.{sight_of};
ghost use Rattle.canvas_line.specs.Seats.{OpenRefused, is_setting};
ghost use Rattle.canvas_line.specs.Rule.{Knows};
ghost use Rattle.left_right.specs.Sides.{view as seat_view};
ghost use Rattle.canvas_line.specs.declared.fault.LineFault.TheVariants as fault;

use crate::desk::Desk;
use crate::fault::LineFault;
use crate::front::{Lines, Opened, Trace};
use crate::painters::Painters;
use crate::perch::Perch;
use crate::published::Published;
use crate::recent::Recent;
use crate::seat::Seat;
use crate::version::Version;
use crate::viewer::{MOST_VIEWERS, Viewers};
use crate::writer::{LineWriter, publish};
use canvas_code::OutOfMemory;
use canvas_doc::Document;
use crossbeam_utils::CachePadded;
use std::alloc::Global;
use std::sync::{Arc, Mutex, Wait};

/// One document under many threads.
pub struct Line;

impl Line {
    /// Opens a line under a name, with so many seats, 1 to 64, which may accept up to `limit`
    /// changes, 1 to 1,000,000. All seats are at its beginning.
    ///
    /// `BadSetting` comes before all else, for another number of seats or another limit; then
    /// `OutOfMemory`, or `NoSeats` where a reader of the line could not be had.
    pub fn open<B: Lines, R: Wait>(
        rt: &R,
        alloc: Global,
        opened: Opened,
        name: u64,
        document: Document,
        seats: u32,
        limit: u64,
    ) -> Result<Vec<Seat<B>>, LineFault>
        requires { B.line name
            ≡ record { book = opened.head.word.book; opening = document; limit = limit } }
        ensures count { IfOk result (λ v. vec_len v ≡ seats) }
        ensures each { IfOk result (λ v. All
            (λ s. s ≡ record { name = name; opening = document; limit = limit; front = [] })
            v.items) }
        ensures refused { MatchResult result (λ _. is_setting seats limit ≡ true)
            (λ f. OpenRefused seats limit f) }
    {
        if !is_setting(seats, limit) {
            return Err(LineFault::BadSetting);
        }
        let Opened { head, trace } = opened;
        let Ok(head) = Arc::new(alloc, CachePadded::new(head)) else {
            return Err(LineFault::OutOfMemory);
        };
        let viewers = (seats as usize).min(MOST_VIEWERS);
        let Ok(writer) = first_writer(rt, alloc, &trace, document, viewers, limit) else {
            return Err(LineFault::OutOfMemory);
        };
        let desk: Desk<B> = Desk::new(alloc, name, head, writer);
        let Ok(desk) = Arc::new(alloc, Mutex::new(desk)) else {
            return Err(LineFault::OutOfMemory);
        };
        let viewers = match viewers_of(rt, alloc, &desk, name, viewers) {
            Ok(Some(viewers)) => viewers,
            Ok(None) => return Err(LineFault::NoSeats),
            Err(_) => return Err(LineFault::OutOfMemory),
        };
        match seated(alloc, &desk, &viewers, &trace, name, seats) {
            Ok(seats) => Ok(seats),
            Err(_) => Err(LineFault::OutOfMemory),
        }
    }
}

fn is_setting(seats: u32, limit: u64) -> bool
    ensures { result ≡ is_setting seats limit }
{
    (1..=64).contains(&seats) && (1..=1_000_000).contains(&limit)
}

// The writer of a line at version 0. One publishing makes room for all that an edit appends.
fn first_writer<R: Wait>(
    rt: &R,
    alloc: Global,
    trace: &Trace,
    document: Document,
    viewers: usize,
    limit: u64,
) -> Result<LineWriter, OutOfMemory>
    requires trace { trace.now.changes ≡ [] }
    requires viewers { (0 < viewers) × (viewers < 2 ^ 32) }
    ensures view { IfOk result (λ w. Knows (seat_view w.desk.place)
        (record { book = trace.now.book; opening = document; limit = limit })) }
    ensures facts { IfOk result (λ w. w.desk.shown.value.facts
        ≡ record { book = trace.now.book; opening = document; limit = limit }) }
    ensures changes { IfOk result (λ w. w.desk.shown.value.changes ≡ []) }
{
    let first = first_published(alloc, trace, document, limit)?;
    let second = first.copied()?;
    let third = first.copied()?;
    let writer = LineWriter::new(alloc, first, second, viewers)?;
    let (writer, done) = publish(rt, writer, third);
    if !done {
        drop(writer.take(rt));
        return Err(OutOfMemory);
    }
    Ok(writer)
}

// What a line shows at first: version 0, which is its opening version too.
fn first_published(
    alloc: Global,
    trace: &Trace,
    document: Document,
    limit: u64,
) -> Result<Published, OutOfMemory>
    requires { trace.now.changes ≡ [] }
    ensures facts { IfOk result
        (λ p. p.facts ≡ record { book = trace.now.book; opening = document; limit = limit }) }
    ensures changes { IfOk result (λ p. p.changes ≡ []) }
{
    let recent = Recent::none(alloc)?;
    let version = Version {
        number: 0,
        change: None,
        document,
        recent,
    };
    let version = Arc::new(alloc, version)?;
    Ok(Published {
        opening: Arc::try_clone(&version)?,
        version,
        limit,
        trace: trace.again(),
    })
}

// So many viewers of the line, if there is a place for each.
fn viewers_of<B: Lines, R: Wait>(
    rt: &R,
    alloc: Global,
    desk: &Mutex<Desk<B>>,
    name: u64,
    count: usize,
) -> Result<Option<Arc<Viewers<B>, Global>>, OutOfMemory> {
    let mut all = Vec::with_capacity(alloc, count)?;
    for _viewer in 0..count {
        let mut guard = desk.lock(rt);
        let desk = &mut *guard;
        // A lock does not say which desk it holds. It is always the line's own.
        if desk.name() != name {
            return Ok(None);
        }
        let Some(viewer) = desk.viewer() else {
            return Ok(None);
        };
        if all.push(CachePadded::new(Mutex::new(viewer))).is_err() {
            return Err(OutOfMemory);
        }
    }
    let viewers = Viewers {
        all,
        painters: Painters::none(),
    };
    let Ok(viewers) = Arc::new(alloc, viewers) else {
        return Err(OutOfMemory);
    };
    Ok(Some(viewers))
}

// So many seats at the desk. Those that try one viewer first are as few as may be.
fn seated<B: Lines>(
    alloc: Global,
    desk: &Arc<Mutex<Desk<B>>, Global>,
    viewers: &Arc<Viewers<B>, Global>,
    trace: &Trace,
    name: u64,
    seats: u32,
) -> Result<Vec<Seat<B>>, OutOfMemory>
    requires { trace.now.book ≡ (B.line name).book }
    ensures count { IfOk result (λ v. vec_len v ≡ seats) }
    ensures each { IfOk result
        (λ v. All (λ s. s ≡ sight_of name (B.line name) trace.now.changes) v.items) }
{
    let mut all = Vec::with_capacity(alloc, seats as usize)?;
    for seat in 0..seats {
        let home = seat as usize % MOST_VIEWERS;
        let perch = Perch::new(Arc::try_clone(viewers)?, home, trace.again(), name);
        if all.push(Seat::new(Arc::try_clone(desk)?, perch)).is_err() {
            return Err(OutOfMemory);
        }
    }
    Ok(all)
}
