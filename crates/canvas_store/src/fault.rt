//! Why a store did not do what it was asked.

use arrayvec::ArrayString;
use std::alloc::AllocError;
use std::io;

/// How many bytes of a line are read at most.
pub(crate) const MOST_LINE: usize = 255;

/// What a store says, in printable ASCII.
pub type Words = ArrayString<255>;

/// Why a store did not do what it was asked. After any of them the connection is of no use any more.
#[derive(Clone, Copy, Debug)]
pub enum StoreFault {
    /// The system refused to send or to receive.
    Io(io::Error),
    /// The store has ended the connection.
    Ended,
    /// Another holds the document.
    Busy(Words),
    /// The store can't do it.
    Refused(Words),
    /// Nothing more is kept through this connection, and it is not known whether what was asked last is.
    Lost(Words),
    /// What came is no answer.
    Strange,
    /// Memory could not be had.
    Memory,
}

impl From<AllocError> for StoreFault {
    fn from(_error: AllocError) -> StoreFault {
        StoreFault::Memory
    }
}
