//! The counts of a server, which its threads share.

use crate::followers::MOST_FOLLOWERS;
use crate::health::Health;
use crate::status::{CODES, Status};
use crate::verb::Verb;
use std::array;
use std::sync::atomic::{AtomicBool, AtomicU32, AtomicU64, Ordering};

/// What is counted from the beginning of the program on, and what is known of the document. Many
/// threads write and read it at any time; no thread waits for another. A reader may see one count
/// before and another after an event.
#[derive(Drop)]
pub struct Counts {
    generation: AtomicU32,
    version: AtomicU64,
    kept: AtomicU64,
    is_late: AtomicBool,
    is_lost: AtomicBool,
    begun_sessions: AtomicU64,
    ended_sessions: AtomicU64,
    refused_connections: AtomicU64,
    missed_connections: AtomicU64,
    // At each place of a follower one more than the last version that was sent to it; 0 where nobody follows.
    followers: [AtomicU64; MOST_FOLLOWERS],
    requests: [AtomicU64; 12],
    refusals: [AtomicU64; CODES],
    sent_bytes: AtomicU64,
    painted_pictures: AtomicU64,
    kept_pictures: AtomicU64,
    syncs: AtomicU64,
    sync_micros: AtomicU64,
}

impl Counts {
    /// Nothing was counted yet.
    pub fn new() -> Counts {
        Counts {
            generation: AtomicU32::new(0),
            version: AtomicU64::new(0),
            kept: AtomicU64::new(0),
            is_late: AtomicBool::new(false),
            is_lost: AtomicBool::new(false),
            begun_sessions: AtomicU64::new(0),
            ended_sessions: AtomicU64::new(0),
            refused_connections: AtomicU64::new(0),
            missed_connections: AtomicU64::new(0),
            followers: array::from_fn(|_| AtomicU64::new(0)),
            requests: array::from_fn(|_| AtomicU64::new(0)),
            refusals: array::from_fn(|_| AtomicU64::new(0)),
            sent_bytes: AtomicU64::new(0),
            painted_pictures: AtomicU64::new(0),
            kept_pictures: AtomicU64::new(0),
            syncs: AtomicU64::new(0),
            sync_micros: AtomicU64::new(0),
        }
    }

    /// A session begins.
    pub fn begin_session(&self) {
        add(&self.begun_sessions, 1);
    }

    /// A session has ended.
    pub fn end_session(&self) {
        add(&self.ended_sessions, 1);
    }

    /// A connection found no seat that it may have.
    pub fn refuse_connection(&self) {
        add(&self.refused_connections, 1);
    }

    /// A connection could not be accepted, for want of memory or files.
    pub fn miss_connection(&self) {
        add(&self.missed_connections, 1);
    }

    /// The follower at a place was sent all up to a version.
    pub fn follow(&self, place: usize, version: u64) {
        if let Some(follower) = self.followers.get(place) {
            follower.store(version.saturating_add(1), Ordering::SeqCst);
        }
    }

    /// Nobody follows at a place any more.
    pub fn part(&self, place: usize) {
        if let Some(follower) = self.followers.get(place) {
            follower.store(0, Ordering::SeqCst);
        }
    }

    /// A line was answered, perhaps by the refusal of a number.
    pub fn answer(&self, verb: Verb, refusal: Option<u16>) {
        add(&self.requests[verb.place()], 1);
        let Some(code) = refusal else {
            return;
        };
        if let Some(count) = self.refusals.get(usize::from(code)) {
            add(count, 1);
        }
    }

    /// So many bytes were sent to a session.
    pub fn send(&self, bytes: usize) {
        add(&self.sent_bytes, bytes as u64);
    }

    /// A picture was answered, painted or as it was kept.
    pub fn picture(&self, was_kept: bool) {
        if was_kept {
            add(&self.kept_pictures, 1);
        } else {
            add(&self.painted_pictures, 1);
        }
    }

    /// Edits were put on the disk, which took so many microseconds.
    pub fn sync(&self, micros: u64) {
        add(&self.syncs, 1);
        add(&self.sync_micros, micros);
    }

    /// What is known of the document now.
    pub fn stand(&self, generation: u32, version: u64, kept: u64, health: Health) {
        self.generation.store(generation, Ordering::SeqCst);
        self.version.store(version, Ordering::SeqCst);
        self.kept.store(kept, Ordering::SeqCst);
        self.is_late.store(health == Health::Late, Ordering::SeqCst);
        self.is_lost.store(health == Health::Lost, Ordering::SeqCst);
    }

    /// How the document is kept, as it was last known.
    pub fn health(&self) -> Health {
        if self.is_lost.load(Ordering::SeqCst) {
            return Health::Lost;
        }
        if self.is_late.load(Ordering::SeqCst) {
            return Health::Late;
        }
        Health::Well
    }

    /// The counts as they are now, of a program of this version that has run for so many seconds,
    /// with so many seats.
    pub fn status(&self, program: &'static str, seconds: u64, seats: u32) -> Status {
        let ended = read(&self.ended_sessions);
        let begun = read(&self.begun_sessions);
        Status {
            program,
            seconds,
            generation: self.generation.load(Ordering::SeqCst),
            version: read(&self.version),
            kept: read(&self.kept),
            seats,
            open_sessions: begun.saturating_sub(ended),
            sessions: begun,
            refused_connections: read(&self.refused_connections),
            missed_connections: read(&self.missed_connections),
            followers: array::from_fn(|place| self.followers.get(place).map_or(0, read)),
            requests: array::from_fn(|place| self.requests.get(place).map_or(0, read)),
            refusals: array::from_fn(|code| self.refusals.get(code).map_or(0, read)),
            sent_bytes: read(&self.sent_bytes),
            painted_pictures: read(&self.painted_pictures),
            kept_pictures: read(&self.kept_pictures),
            syncs: read(&self.syncs),
            sync_micros: read(&self.sync_micros),
        }
    }
}

fn add(count: &AtomicU64, more: u64) {
    count.fetch_add(more, Ordering::SeqCst);
}

fn read(count: &AtomicU64) -> u64 {
    count.load(Ordering::SeqCst)
}
