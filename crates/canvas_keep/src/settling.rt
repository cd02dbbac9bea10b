//! What all threads share: they wait until what they tell of is kept, and one of them at a time
//! makes a turn for all.
ghost use Rattle.std.specs.Prelude.{◌≡◌, ◌<◌, ◌≤◌, IfOk, IfSome, length};

use crate::fault::KeepFault;
use crate::keeper::Keeper;
use crate::reach::Reach;
use crate::slot::Slot;
use canvas_journal::Device;
use canvas_line::{Glimpse, Herald, LineFault, Lines, Seat, Version};
use std::alloc::Global;
use std::marker::Model;
use std::sync::{Arc, Condvar, Mutex, MutexGuard, Wait};

/// What all threads share of a line that is kept. Contracts see it as the line's name.
#[derive(Drop)]
pub struct Keep<D: Device, B: Lines> {
    herald: Herald<B>,
    reach: Reach,
    slot: Mutex<Slot<D, B>>,
    // Word that a turn has ended.
    word: Condvar,
    // What was seen of the line when this was made.
    begun: Glimpse,
    alloc: Global,
}

impl<D: Device, B: Lines> Model for Keep<D, B> {
    ghost use Rattle.std.specs.Prelude.{◌≡◌, ℕ};

    ghost Value = { ℕ };

    ghost view = { λ k. k.herald };

    ghost invariant = { λ k. k.begun.book ≡ (B.line k.herald).book };
}

impl<D: Device + Drop, B: Lines> Keep<D, B> {
    /// A line is kept from now on by its keeper. `watch` is another seat of the same line.
    pub fn new<R: Wait>(
        rt: &R,
        alloc: Global,
        keeper: Keeper<D, B>,
        watch: Seat<B>,
    ) -> Result<Keep<D, B>, LineFault>
        requires { watch.name ≡ keeper.line.name }
        ensures { IfOk result (λ keep. keep ≡ watch.name) }
    {
        let herald = watch.herald(rt)?;
        let begun = watch.glimpse();
        let slot = Slot::new(keeper, watch);
        Ok(Keep {
            herald,
            reach: Reach::of(&slot),
            slot: Mutex::new(slot),
            word: Condvar::new(),
            begun,
            alloc,
        })
    }

    /// Waits until all versions are kept that were published when this is called, and says how many
    /// are kept then. It takes no lock where they are. Else one thread at a time takes the journal
    /// out of its lock and turns for all. Once the journal is lost, all are told its fault.
    pub fn settle<R: Wait>(&self, rt: &R) -> Result<u64, KeepFault> {
        self.settle_seen(rt, &self.begun)
    }

    /// What `settle` does. Whatever any seat of the line has seen is kept then: a glimpse has no
    /// bytes, so it makes no difference whose it is.
    pub fn settle_seen<R: Wait>(&self, rt: &R, seen: &Glimpse) -> Result<u64, KeepFault>
        requires { seen.now.book ≡ (B.line self.now).book }
        ensures { IfOk result (λ kept. length seen.now.changes ≤ kept) }
    {
        let newest = self.herald.number(seen);
        match self.reach.covers(newest) {
            Some(kept) => Ok(kept),
            None => self.wait_for(rt, self.slot.lock(rt), newest),
        }
    }

    // Waits until so many versions are kept. The line has accepted so many changes, and takes the
    // lock of its desk until they are published.
    fn wait_for<'a, R: Wait>(
        &'a self,
        rt: &R,
        guard: MutexGuard<'a, Slot<D, B>>,
        target: u64,
    ) -> Result<u64, KeepFault>
        ensures { IfOk result (λ kept. target ≤ kept) }
    {
        let mut guard = guard;
        for _ in rt.forever() {
            if let Some(answer) = guard.answer(target) {
                return answer;
            }
            match guard.keeper.take() {
                None => guard = self.word.wait(rt, guard),
                Some(keeper) => {
                    drop(guard);
                    let turned = keeper.turn(rt, self.alloc);
                    // The turn found all that is published. A version that is not among it by now
                    // never will be. It can't be.
                    let is_missing = turned.as_ref().is_ok_and(|keeper| keeper.seen() < target);
                    guard = self.slot.lock(rt);
                    guard.put_back(turned);
                    self.reach.tell(&*guard);
                    self.word.notify_all();
                    if is_missing {
                        return Err(KeepFault::Line(LineFault::OutOfMemory));
                    }
                }
            }
        }
        unreachable!()
    }

    /// Waits until more versions are kept than so many, and says how many are kept then. It makes
    /// no turn: it is told of those that others make. `None` where no more are kept, once the
    /// journal is lost or `end_waits` was called.
    pub fn wait_beyond<R: Wait>(&self, rt: &R, has: u64) -> Option<u64>
        ensures { IfSome result (λ kept. has < kept) }
    {
        let mut guard = self.slot.lock(rt);
        for _ in rt.forever() {
            if let Some(answer) = guard.more_than(has) {
                return answer;
            }
            guard = self.word.wait(rt, guard);
        }
        unreachable!()
    }

    /// Ends all waits for more versions, those that come later too.
    pub fn end_waits<R: Wait>(&self, rt: &R) {
        self.slot.lock(rt).waits_ended = true;
        self.word.notify_all();
    }

    /// The newest published version, kept or not.
    pub fn newest<R: Wait>(&self, rt: &R) -> Result<Arc<Version, Global>, KeepFault> {
        self.slot.lock(rt).newest()
    }

    /// How many versions are kept.
    pub fn kept<R: Wait>(&self, rt: &R) -> u64 {
        self.slot.lock(rt).kept
    }

    /// Why the journal was lost, if it was.
    pub fn fault<R: Wait>(&self, rt: &R) -> Option<KeepFault> {
        self.slot.lock(rt).fault
    }

    /// Keeps all that was published, and gives the memory up. It is called when no session is left.
    /// The answer is how many versions are kept.
    pub fn close<R: Wait>(self, rt: &R) -> Result<u64, KeepFault> {
        let Keep { slot, alloc, .. } = self;
        let Slot {
            keeper,
            fault,
            watch,
            ..
        } = slot.into_inner();
        watch.close(rt);
        if let Some(fault) = fault {
            return Err(fault);
        }
        let Some(keeper) = keeper else {
            return Err(KeepFault::Strangers);
        };
        keeper.close(rt, alloc)
    }
}
