//! The accepted changes of a board, for clauses alone.

ghost use Rattle.std.specs.Prelude.{◌≡◌, ◌++◌, ◌∷◌, []};

use canvas_doc::Change;
use std::marker::Model;
use std::snapshot::Snapshot;

/// The accepted changes, for clauses alone: it keeps none of them, and takes no memory.
#[derive(Drop)]
pub(crate) struct History {
    changes: Option<Snapshot<Past>>,
}

/// A change, and those accepted before it.
#[derive(Drop)]
pub(crate) struct Past {
    before: Option<Snapshot<Past>>,
    last: Change,
}

impl Model for Past {
    ghost use Rattle.canvas_record.specs.declared.edits.Change.{Change};
    ghost use Rattle.std.specs.Prelude.{List, ◌++◌, ◌∷◌, [], length};
    ghost use Rattle.std.proofs.Common.{arith, length-append};

    ghost Value = { List Change };

    ghost use Rattle.canvas_board.specs.Past.{changes_of};

    ghost view = { λ p. changes_of p.before ++ p.last ∷ [] };

    ghost size = { length };

    ghost size_decreases = { λ a h. Prim.grind (arith, length-append) };
}

impl Model for History {
    ghost use Rattle.canvas_record.specs.declared.edits.Change.{Change};
    ghost use Rattle.std.specs.Prelude.{List};
    ghost use Rattle.canvas_board.specs.Past.{changes_of};

    ghost Value = { List Change };

    ghost view = { λ h. changes_of h.changes };
}

impl History {
    /// No change yet.
    pub(crate) fn new() -> History
        ensures { result ≡ [] }
    {
        History { changes: None }
    }

    /// The changes, and one more.
    pub(crate) fn with(self, change: Change) -> History
        ensures { result ≡ self ++ change ∷ [] }
    {
        let past = Past {
            before: self.changes,
            last: change,
        };
        History {
            changes: Some(Snapshot::of(&past)),
        }
    }
}
