//! The gate of a line that follows: what its own journal keeps, and which sessions are lost.

use crate::gate::{Gate, Kept};
use canvas_doors::{Events, Parting, Settles, Witness};
use canvas_journal::Device;
use canvas_line::Lines;
use canvas_wire::Request;
use log::{Log, warn};
use std::alloc::{AllocError, Global};
use std::io;
use std::sync::Wait;
use std::sync::atomic::{AtomicBool, Ordering};

/// A mark for each of so many seats: whether its session is lost.
pub fn lost_marks(alloc: Global, seats: usize) -> Result<Vec<AtomicBool>, AllocError> {
    let mut lost = Vec::with_capacity(alloc, seats)?;
    for _ in 0..seats {
        lost.push(AtomicBool::new(false))?;
    }
    Ok(lost)
}

// Whether the session on a seat is lost: nobody knows what became of its last edit.
fn is_marked(lost: &[AtomicBool], seat: usize) -> bool {
    match lost.get(seat) {
        Some(mark) => mark.load(Ordering::SeqCst),
        None => false,
    }
}

/// A gate that ends when the line is to follow no further, and the marks of its seats.
#[derive(Drop)]
pub struct FollowGate<'a, D: Device, B: Lines> {
    gate: &'a Gate<D, B>,
    lost: &'a [AtomicBool],
    is_over: AtomicBool,
}

impl<'a, D: Device + Drop, B: Lines> FollowGate<'a, D, B> {
    /// The gate of a line.
    pub fn new(gate: &'a Gate<D, B>, lost: &'a [AtomicBool]) -> FollowGate<'a, D, B> {
        FollowGate {
            gate,
            lost,
            is_over: AtomicBool::new(false),
        }
    }

    /// Says that the line follows no further.
    pub fn end(&self) {
        self.is_over.store(true, Ordering::SeqCst);
    }

    /// Whether the line follows no further.
    pub fn is_over(&self) -> bool {
        self.is_over.load(Ordering::SeqCst)
    }

    /// The mark that the line follows no further.
    pub fn over_mark(&self) -> &AtomicBool {
        &self.is_over
    }
}

impl<D: Device + Drop, B: Lines> Settles for FollowGate<'_, D, B> {
    ghost settled = { λ _ _. Unit {0} };

    fn settle<R: Wait>(&self, rt: &R, put_in: u64) -> io::Result<()> {
        self.gate.settle(rt, put_in)
    }

    fn has_ended<R: Wait>(&self, rt: &R) -> bool {
        self.is_over() || self.gate.has_ended(rt)
    }

    fn is_lost(&self, seat: usize) -> bool {
        is_marked(self.lost, seat)
    }
}

impl<D: Device + Drop, B: Lines> Kept for FollowGate<'_, D, B> {
    fn kept<R: Wait>(&self, rt: &R) -> u64 {
        self.gate.kept(rt)
    }

    fn wait_beyond<R: Wait>(&self, rt: &R, has: u64) -> Option<u64> {
        self.gate.wait_beyond(rt, has)
    }

    fn end_waits<R: Wait>(&self, rt: &R) {
        self.gate.end_waits(rt)
    }
}

/// What is told of sessions, of which each begins with a clean mark.
#[derive(Drop)]
pub struct FollowEvents<'a, E: Events, K: Log> {
    pub log: &'a K,
    pub lost: &'a [AtomicBool],
    pub events: &'a E,
}

impl<E: Events, K: Log> Witness for FollowEvents<'_, E, K> {
    fn answered(&self, request: Option<&Request>, refusal: Option<u16>) {
        self.events.answered(request, refusal);
    }
}

impl<E: Events, K: Log> Events for FollowEvents<'_, E, K> {
    fn began(&self, seat: usize) {
        if let Some(mark) = self.lost.get(seat) {
            mark.store(false, Ordering::SeqCst);
        }
        self.events.began(seat);
    }

    fn ended(&self, seat: usize, parting: &Parting) {
        if is_marked(self.lost, seat) {
            warn!(*self.log; "a session ends without a reply to its edit: whether the leader has made it is not known, or it has another document than its feed");
        }
        self.events.ended(seat, parting);
    }

    fn was_full(&self) {
        self.events.was_full();
    }

    fn was_missed(&self) {
        self.events.was_missed();
    }

    fn sent(&self, bytes: usize) {
        self.events.sent(bytes);
    }

    fn pictured(&self, was_kept: bool) {
        self.events.pictured(was_kept);
    }
}
