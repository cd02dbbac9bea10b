//! The damage of more changes than a version tells of.

ghost use Rattle.std.specs.Prelude.{◌≡◌, ◌++◌, IfOk, IsTrue};
ghost use Rattle.canvas_line.specs.Standing.{IsVersionOf};
ghost use Rattle.canvas_board.specs.Kept.{IsEndOf, further_of};

use canvas_code::OutOfMemory;
use canvas_line::{Damage, Lines, Mark, Version};
use circular_buffer::HeapCircularBuffer;
use std::alloc::Global;
use std::marker::Model;

/// Of how many changes it tells at most.
const MOST_TOLD: usize = 256;

/// The damage of the last changes up to a mark.
#[derive(Drop)]
pub(crate) struct DamageLog<B: Lines> {
    at: Mark<B>,
    // How many changes the mark has.
    number: u64,
    told: HeapCircularBuffer<Damage>,
}

impl<B: Lines> Model for DamageLog<B> {
    ghost use Rattle.std.specs.Prelude.{◌≡◌, length};
    ghost use Rattle.canvas_line.specs.Lines.{Sight};
    ghost use Rattle.canvas_board.specs.Kept.{IsEndOf};

    ghost Value = { Sight };

    ghost view = { λ l. l.at };

    ghost invariant = { λ l. (l.number ≡ length l.at.front)
        × IsEndOf l.told.items l.at.opening l.at.front };
}

impl<B: Lines> DamageLog<B> {
    /// What the version at a mark tells.
    pub(crate) fn new(
        alloc: Global,
        at: Mark<B>,
        version: &Version,
    ) -> Result<DamageLog<B>, OutOfMemory>
        requires { IsVersionOf at.opening at.limit at.front version.now }
        ensures { IfOk result (λ log. log ≡ at) }
    {
        let mut told = HeapCircularBuffer::with_capacity(alloc, MOST_TOLD)?;
        let (older, newer) = version.recent.as_slices();
        told.extend_from_slice(older);
        told.extend_from_slice(newer);
        Ok(DamageLog {
            at,
            number: version.number,
            told,
        })
    }

    /// Goes on to the version at a later mark of the line. What is told of neither before nor then
    /// is a gap: what is before it is forgotten. At a mark of another line, or an earlier one, it
    /// stays as it is.
    pub(crate) fn go_on(&mut self, at: Mark<B>, version: &Version)
        requires { IsVersionOf at.opening at.limit at.front version.now }
        ensures { self.new ≡ further_of self.old at }
    {
        if self.at.is_at(&at) || !self.at.begins(&at) {
            return;
        }
        let (older, newer) = version.recent.as_slices();
        let since = version.number - self.number;
        let left = match (version.recent.len() as u64).checked_sub(since) {
            // So many are told again.
            Some(again) => (self.told.len() as u64).saturating_sub(again),
            None => 0,
        };
        self.told.truncate_back(left as usize);
        self.told.extend_from_slice(older);
        self.told.extend_from_slice(newer);
        self.at = at;
        self.number = version.number;
    }

    /// Whether the mark is the one that it goes up to.
    pub(crate) fn is_at(&self, at: &Mark<B>) -> bool
        ensures { IsTrue result → self.now ≡ at.now }
    {
        self.at.is_at(at)
    }

    /// The damage of the last changes: that of the first slice, then that of the second.
    pub(crate) fn as_slices(&self) -> (&[Damage], &[Damage])
        ensures { IsEndOf (result.0.now ++ result.1.now) self.now.opening self.now.front }
    {
        self.told.as_slices()
    }
}
