//! How many versions are kept, for threads that take no lock.
ghost use Rattle.std.specs.Prelude.{◌≤◌, IfSome};

use crate::slot::Slot;
use canvas_journal::Device;
use canvas_line::Lines;
use crossbeam_utils::CachePadded;
use std::sync::atomic::{AtomicU64, Ordering};

/// How many versions are kept: never more than the slot has, which is told under its lock.
#[derive(Drop)]
pub(crate) struct Reach {
    kept: CachePadded<AtomicU64>,
}

impl Reach {
    /// That of a slot.
    pub(crate) fn of<D: Device + Drop, B: Lines>(slot: &Slot<D, B>) -> Reach {
        Reach {
            kept: CachePadded::new(AtomicU64::new(slot.kept)),
        }
    }

    /// Tells of a slot. Whoever calls it holds the slot's lock.
    pub(crate) fn tell<D: Device + Drop, B: Lines>(&self, slot: &Slot<D, B>) {
        self.kept.store(slot.kept, Ordering::SeqCst);
    }

    /// How many versions are kept, if so many are.
    pub(crate) fn covers(&self, target: u64) -> Option<u64>
        ensures { IfSome result (λ kept. target ≤ kept) }
    {
        let kept = self.kept.load(Ordering::SeqCst);
        if kept < target {
            return None;
        }
        Some(kept)
    }
}
