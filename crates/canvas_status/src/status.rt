//! The state of a server as numbers.

use crate::followers::MOST_FOLLOWERS;

/// One more than the highest number of a refusal.
pub const CODES: usize = 75;

/// The state of a server as it was read at a moment. Counts begin with the program.
#[derive(Clone, Copy, Debug)]
pub struct Status {
    /// The version of the program.
    pub program: &'static str,
    /// How many seconds it has run.
    pub seconds: u64,
    /// The generation that is served.
    pub generation: u32,
    /// The newest version of the document.
    pub version: u64,
    /// The newest version that is kept.
    pub kept: u64,
    /// How many sessions may be at once.
    pub seats: u32,
    /// How many sessions there are.
    pub open_sessions: u64,
    /// How many sessions began.
    pub sessions: u64,
    /// How many connections found no seat that they may have.
    pub refused_connections: u64,
    /// How many times a connection could not be accepted, for want of memory or files.
    pub missed_connections: u64,
    /// At the place of each follower of the feed one more than the last version that was sent to
    /// it; 0 where nobody follows.
    pub followers: [u64; MOST_FOLLOWERS],
    /// How many lines were answered, by the place of their verb.
    pub requests: [u64; 12],
    /// How many of these answers were refusals, by their number.
    pub refusals: [u64; CODES],
    /// How many bytes were sent to sessions.
    pub sent_bytes: u64,
    /// How many pictures were painted.
    pub painted_pictures: u64,
    /// How many pictures were answered as they were kept.
    pub kept_pictures: u64,
    /// How many times the journal was put on the disk.
    pub syncs: u64,
    /// How many microseconds that took.
    pub sync_micros: u64,
}
