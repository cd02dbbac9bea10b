//! The damage of the last changes.
ghost use Rattle.std.specs.Prelude.{◌≡◌, ◌+◌, ◌≤◌, ◌++◌, ◌∷◌, [], IfOk, length};
ghost use Rattle.canvas_line.specs.Recent.{last_64};

use canvas_code::OutOfMemory;
use canvas_plane::PageBox;
use std::alloc::Global;
use std::marker::Model;
use std::sync::Arc;

/// How many of the last changes a version tells the damage of.
pub const MOST_RECENT: usize = 64;

/// How many of them a version has in a list of its own.
const MOST_NEWER: usize = 16;

/// A change that was accepted, by the version that it made, and the box of the page outside of
/// which it changed no colour.
#[derive(Clone, Copy, Debug, PartialEq, Eq)]
pub struct Damage {
    /// The version that the change made, from 1.
    pub number: u64,
    /// The box, as `Document::damage` found it: 0, 0, 0, 0 for new indexes alone, and where the
    /// change touched no leaf and no frame.
    pub area: PageBox,
}

/// The damage of the last 64 changes at most, oldest first. Contracts see it as a list.
///
/// Versions share the older entries, so the next version copies the newer ones alone.
#[derive(Drop)]
pub struct Recent {
    older: Arc<Vec<Damage>>,
    // How many of the older entries are no longer among the last 64.
    forgotten: usize,
    newer: Vec<Damage>,
}

impl Model for Recent {
    ghost use Rattle.std.specs.Prelude.{List, ◌+◌, ◌≤◌, ◌++◌, drop, length};
    ghost use Rattle.std.specs.Arc.{arc_value};
    ghost use Rattle.canvas_line.specs.declared.recent.Damage.{Damage};
    ghost use Rattle.canvas_line.specs.declared.recent.TheConstants.{MOST_NEWER, MOST_RECENT};

    ghost Value = { List Damage };

    ghost view = { λ r. drop r.forgotten (arc_value r.older).items ++ r.newer.items };

    ghost invariant = { λ r. (r.forgotten ≤ length (arc_value r.older).items)
        × (length r.newer.items ≤ MOST_NEWER)
        × (length (arc_value r.older).items + length r.newer.items ≤ r.forgotten + MOST_RECENT) };
}

impl Recent {
    /// No damage yet.
    pub fn none(alloc: Global) -> Result<Recent, OutOfMemory>
        ensures { IfOk result (λ recent. recent ≡ []) }
    {
        Ok(Recent {
            older: Arc::new(alloc, Vec::new(alloc))?,
            forgotten: 0,
            newer: Vec::new(alloc),
        })
    }

    /// The damage after one more change. Where there are 64 entries, the oldest is left out.
    pub fn with(&self, alloc: Global, newest: Damage) -> Result<Recent, OutOfMemory>
        ensures { IfOk result (λ recent. recent ≡ last_64 (self.now ++ newest ∷ [])) }
    {
        let forgotten = self.forgotten + (self.len() + 1).saturating_sub(MOST_RECENT);
        if self.newer.len() < MOST_NEWER {
            return Ok(Recent {
                older: Arc::try_clone(&self.older)?,
                forgotten,
                newer: joined(alloc, &[], &self.newer, newest)?,
            });
        }
        let all = joined(alloc, &self.older[forgotten..], &self.newer, newest)?;
        Ok(Recent {
            older: Arc::new(alloc, all)?,
            forgotten: 0,
            newer: Vec::new(alloc),
        })
    }

    /// How many entries there are.
    pub fn len(&self) -> usize
        ensures { result ≡ length self.now }
    {
        self.older.len() - self.forgotten + self.newer.len()
    }

    /// All entries: those of the first slice, then those of the second.
    pub fn as_slices(&self) -> (&[Damage], &[Damage])
        ensures { result.0.now ++ result.1.now ≡ self.now }
    {
        (&self.older[self.forgotten..], &self.newer)
    }
}

// The entries of two lists, and then one more.
fn joined(
    alloc: Global,
    older: &[Damage],
    newer: &[Damage],
    newest: Damage,
) -> Result<Vec<Damage>, OutOfMemory>
    requires { length older.now + length newer.now ≤ 64 }
    ensures { IfOk result (λ all. all.items ≡ older.now ++ newer.now ++ newest ∷ []) }
{
    let mut all = Vec::with_capacity(alloc, older.len() + newer.len() + 1)?;
    all.extend_from_slice(older)?;
    all.extend_from_slice(newer)?;
    all.push(newest)?;
    Ok(all)
}
