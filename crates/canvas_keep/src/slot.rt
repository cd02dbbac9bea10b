//! Where the keeper lies between two turns, and what waiting threads ask.
ghost use Rattle.std.specs.Prelude.{◌≡◌, Some, None, IfOk, MatchResult};
ghost use Rattle.std.specs.Arc.{arc_value};
ghost use Rattle.canvas_line.specs.Seats.{Looks};
ghost use Rattle.canvas_keep.specs.Settling.{Answers, AnswersMore};

use crate::fault::KeepFault;
use crate::keeper::Keeper;
use canvas_journal::Device;
use canvas_line::{Lines, Seat, Version};
use std::alloc::Global;
use std::sync::Arc;

/// The value of the lock: the keeper, while no thread has it out for a turn, and what is known of
/// the journal meanwhile.
#[derive(Drop)]
pub(crate) struct Slot<D: Device, B: Lines> {
    pub(crate) keeper: Option<Keeper<D, B>>,
    /// How many versions are kept.
    pub(crate) kept: u64,
    /// Why the journal was lost, if it was.
    pub(crate) fault: Option<KeepFault>,
    /// A seat that looks for the newest version.
    pub(crate) watch: Seat<B>,
    /// Whether nobody is to wait for more versions any longer.
    pub(crate) waits_ended: bool,
}

impl<D: Device + Drop, B: Lines> Slot<D, B> {
    /// A slot with its keeper.
    pub(crate) fn new(keeper: Keeper<D, B>, watch: Seat<B>) -> Slot<D, B>
        ensures keeper { result.keeper ≡ Some keeper }
        ensures kept { result.kept ≡ keeper.kept }
        ensures fault { result.fault ≡ None }
        ensures watch { result.watch ≡ watch }
    {
        Slot {
            kept: keeper.kept(),
            keeper: Some(keeper),
            fault: None,
            watch,
            waits_ended: false,
        }
    }

    /// The newest published version.
    pub(crate) fn newest(&mut self) -> Result<Arc<Version, Global>, KeepFault>
        ensures { IfOk result (λ v. Looks self.old.watch self.new.watch (arc_value v)) }
    {
        Ok(self.watch.look()?)
    }

    /// What a thread is told that waits until so many versions are kept; nothing as long as it has to wait.
    pub(crate) fn answer(&self, target: u64) -> Option<Result<u64, KeepFault>>
        ensures { Answers self.now.fault self.now.kept target result }
    {
        if let Some(fault) = self.fault {
            return Some(Err(fault));
        }
        if self.kept < target {
            return None;
        }
        Some(Ok(self.kept))
    }

    /// What a thread is told that waits for more versions than it has: how many are kept, or `None`
    /// where no more are told; nothing as long as it has to wait.
    pub(crate) fn more_than(&self, has: u64) -> Option<Option<u64>>
        ensures { AnswersMore self.now.fault self.now.waits_ended self.now.kept has result }
    {
        if has < self.kept {
            return Some(Some(self.kept));
        }
        if self.fault.is_some() || self.waits_ended {
            return Some(None);
        }
        None
    }

    /// Takes what became of a turn: the keeper comes back, or the journal is lost.
    pub(crate) fn put_back(&mut self, turned: Result<Keeper<D, B>, KeepFault>)
        ensures { MatchResult turned
            (λ k. (self.new.keeper ≡ Some k)
            × (self.new.kept ≡ k.kept)
            × (self.new.fault ≡ self.old.fault))
            (λ f. (self.new.fault ≡ Some f) × (self.new.kept ≡ self.old.kept)) }
    {
        match turned {
            Ok(keeper) => {
                self.kept = keeper.kept();
                self.keeper = Some(keeper);
            }
            Err(fault) => self.fault = Some(fault),
        }
    }
}
