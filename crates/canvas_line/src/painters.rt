//! How many pictures are being painted.
use crossbeam_utils::CachePadded;
use std::sync::atomic::{AtomicU64, Ordering};

/// How many pictures of a line are being painted. Only the speed of edits rests on it.
#[derive(Drop)]
pub(crate) struct Painters {
    count: CachePadded<AtomicU64>,
}

impl Painters {
    pub(crate) fn none() -> Painters {
        Painters {
            count: CachePadded::new(AtomicU64::new(0)),
        }
    }

    /// One more.
    pub(crate) fn start(&self) {
        self.count.fetch_add(1, Ordering::SeqCst);
    }

    /// One less.
    pub(crate) fn stop(&self) {
        self.count.fetch_sub(1, Ordering::SeqCst);
    }

    /// Whether a picture is being painted.
    pub(crate) fn any(&self) -> bool {
        self.count.load(Ordering::SeqCst) != 0
    }
}
