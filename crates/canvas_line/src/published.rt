//! What is published.
ghost use Rattle.std.specs.Prelude.{◌≡◌, IfOk};
ghost use Rattle.std.specs.Arc.{arc_value};
ghost use Rattle.canvas_line.specs.Standing.{IsVersionOf};

use crate::front::Trace;
use crate::version::Version;
use left_right::Absorb;
use std::alloc::{AllocError, Global};
use std::marker::Model;
use std::sync::Arc;

/// What readers take: a version, and the history at whose end it stands.
#[derive(Drop)]
pub struct Published {
    pub(crate) version: Arc<Version, Global>,
    // Version 0, which has the opening document.
    pub(crate) opening: Arc<Version, Global>,
    pub(crate) limit: u64,
    pub(crate) trace: Trace,
}

impl Model for Published {
    ghost use Rattle.std.specs.Arc.{arc_value};
    ghost use Rattle.canvas_line.specs.Standing.{Shown, IsVersionOf};

    ghost Value = { Shown };

    ghost view = { λ p.
        record {
          facts = record { book = p.trace.book; opening = (arc_value p.opening).document; limit = p.limit };
          changes = p.trace.changes;
          version = arc_value p.version;
        } };

    ghost invariant = { λ p. IsVersionOf (arc_value p.opening).document p.limit p.trace.changes
        (arc_value p.version) };
}

/// The published version, and the history at whose end it stands.
#[derive(Drop)]
pub(crate) struct Latest {
    pub(crate) version: Arc<Version, Global>,
    pub(crate) trace: Trace,
}

impl Published {
    /// What a look takes; want of memory is the only refusal.
    pub(crate) fn latest(&self) -> Result<Latest, AllocError>
        ensures { IfOk result (λ l. (l.trace.book ≡ self.now.facts.book)
            × IsVersionOf self.now.facts.opening self.now.facts.limit l.trace.changes
            (arc_value l.version)) }
    {
        let version = Arc::try_clone(&self.version)?;
        let trace = self.trace.again();
        Ok(Latest { version, trace })
    }

    /// A copy; want of memory is the only refusal.
    pub(crate) fn copied(&self) -> Result<Published, AllocError>
        ensures { IfOk result (λ p. p ≡ self.now) }
    {
        Ok(Published {
            version: Arc::try_clone(&self.version)?,
            opening: Arc::try_clone(&self.opening)?,
            limit: self.limit,
            trace: self.trace.again(),
        })
    }
}

impl Absorb<Published> for Published {
    type State = Published;

    ghost state = { λ p. p };

    ghost applied = { λ s x. x };

    fn absorb_first(
        &mut self,
        operation: &Published,
        _other: &Published,
    ) -> Result<(), AllocError> {
        *self = operation.copied()?;
        Ok(())
    }

    fn absorb_second(&mut self, operation: Published, _other: &Published) -> Result<(), Published> {
        *self = operation;
        Ok(())
    }
}
