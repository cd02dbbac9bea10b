//! What a server tells the program of its sessions.

use canvas_session::{Cause, Witness};

/// How a connection that had a seat ended.
#[derive(Clone, Copy, Debug, Drop, PartialEq, Eq)]
pub enum Parting {
    /// The client sent all, and was answered.
    Finished,
    /// The client sent what is no session, as HTTP or TLS, and was told so.
    Foreign,
    /// The client sent nothing for too long.
    Idle,
    /// The client took too long for a line.
    Slow,
    /// Something else ended the session before its input did.
    Cut(Cause),
    /// Not all that was answered was sent, or memory could not be had.
    Unsent,
}

/// What a server tells of its connections, for a log and for counts. Many threads call these, at any time.
pub trait Events: Witness {
    /// A connection has a seat.
    fn began(&self, _seat: usize) {}

    /// The connection of a seat has ended.
    fn ended(&self, _seat: usize, _parting: &Parting) {}

    /// A connection found no seat that it may have.
    fn was_full(&self) {}

    /// No connection could be accepted, for want of memory or files; it is tried again.
    fn was_missed(&self) {}

    /// So many bytes of a session were sent.
    fn sent(&self, _bytes: usize) {}

    /// A picture was painted for a session, or it was answered as it was kept.
    fn pictured(&self, _was_kept: bool) {}
}

/// Nobody is told.
#[derive(Clone, Copy, Debug)]
pub struct Quiet;

impl Witness for Quiet {}

impl Events for Quiet {}
