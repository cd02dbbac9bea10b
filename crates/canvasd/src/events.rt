//! What happens at the doors, as lines on standard error.

use canvas_code::Coded;
use canvas_doors::{Events, Parting, Witness};
use canvas_record::Edit;
use canvas_status::{Counts, Verb};
use canvas_wire::Request;
use log::{Log, debug, warn};
use std::sync::atomic::{AtomicU64, Ordering};
use std::time::{Clock, Instant};

/// The lines of what happens at the doors, and its counts.
#[derive(Drop)]
pub struct DoorLog<'a, H: Clock, K: Log> {
    rt: &'a H,
    log: &'a K,
    counts: &'a Counts,
    begun: Instant,
    // From which second on it is told again that a connection was turned away or missed.
    next_told: AtomicU64,
}

impl<'a, H: Clock, K: Log> DoorLog<'a, H, K> {
    /// Begins now.
    pub fn new(rt: &'a H, log: &'a K, counts: &'a Counts, begun: Instant) -> DoorLog<'a, H, K> {
        DoorLog {
            rt,
            log,
            counts,
            begun,
            next_told: AtomicU64::new(0),
        }
    }

    // Whether that is to be told now: at most once a second.
    fn is_time(&self) -> bool {
        let Ok(passed) = self.begun.elapsed(self.rt) else {
            return false;
        };
        let now = passed.as_secs();
        let next = self.next_told.load(Ordering::SeqCst);
        next <= now
            && self
                .next_told
                .compare_exchange(
                    next,
                    now.saturating_add(1),
                    Ordering::SeqCst,
                    Ordering::SeqCst,
                )
                .is_ok()
    }
}

impl<'a, H: Clock, K: Log> Events for DoorLog<'a, H, K> {
    fn began(&self, seat: usize) {
        self.counts.begin_session();
        debug!(*self.log; "a session begins on seat {seat}");
    }

    fn ended(&self, seat: usize, parting: &Parting) {
        self.counts.end_session();
        let why = parting_name(parting);
        debug!(*self.log; "the session on seat {seat} has ended: {why}");
    }

    fn was_full(&self) {
        self.counts.refuse_connection();
        if self.is_time() {
            warn!(*self.log; "all seats are taken: a connection was turned away");
        }
    }

    fn was_missed(&self) {
        self.counts.miss_connection();
        if self.is_time() {
            warn!(*self.log; "no connection could be accepted, for want of memory or files: it is tried again");
        }
    }

    fn sent(&self, bytes: usize) {
        self.counts.send(bytes);
    }

    fn pictured(&self, was_kept: bool) {
        self.counts.picture(was_kept);
    }
}

impl<'a, H: Clock, K: Log> Witness for DoorLog<'a, H, K> {
    fn answered(&self, request: Option<&Request>, refusal: Option<u16>) {
        self.counts.answer(verb_of(request), refusal);
    }
}

// What a line asked for.
fn verb_of(request: Option<&Request>) -> Verb {
    match request {
        None => Verb::Unread,
        Some(Request::Edit(edit)) => verb_of_edit(edit),
        Some(Request::Tile { .. }) => Verb::Tile,
        Some(Request::Patch { .. }) => Verb::Patch,
        Some(Request::Point { .. }) => Verb::Point,
        Some(Request::Export) => Verb::Export,
    }
}

fn verb_of_edit(edit: &Edit) -> Verb {
    match edit {
        Edit::Create { .. } => Verb::Create,
        Edit::Move { .. } => Verb::Move,
        Edit::Pose { .. } => Verb::Pose,
        Edit::Reshape { .. } => Verb::Reshape,
        Edit::Show { .. } => Verb::Show,
        Edit::Delete { .. } => Verb::Delete,
        Edit::Respace { .. } => Verb::Respace,
    }
}

fn parting_name(parting: &Parting) -> &'static str {
    match parting {
        Parting::Finished => "its input has ended",
        Parting::Foreign => "it was no session, as HTTP or TLS",
        Parting::Idle => "it was idle",
        Parting::Slow => "it took too long for a line",
        Parting::Cut(cause) => cause.name(),
        Parting::Unsent => "not all replies could be sent",
    }
}
