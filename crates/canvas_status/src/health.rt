//! Whether a document is kept as it should be.
ghost use Rattle.std.specs.Prelude.{◌≡◌, ◌++◌, ◌∷◌, [], drop, replicate};
ghost use Rattle.canvas_status.specs.Health.{health_of};

use std::marker::Model;

/// How many milliseconds lie between two looks.
pub const TICK: u64 = 250;

/// How many looks are kept: those of two seconds.
const LOOKS: usize = 8;

/// The newest version at each of the last looks, the oldest first; before there were so many looks
/// it was none.
#[derive(Drop)]
pub struct Lookback {
    newest: [u64; LOOKS],
}

impl Model for Lookback {
    ghost use Rattle.std.specs.Prelude.{List, ℕ};

    ghost Value = { List ℕ };

    ghost view = { λ l. l.newest };
}

impl Lookback {
    /// Nothing was seen yet.
    pub fn new() -> Lookback
        ensures { result ≡ replicate 8 0 }
    {
        Lookback { newest: [0; LOOKS] }
    }

    /// Notes the newest version. It is called once a tick.
    pub fn note(&mut self, version: u64)
        ensures { self.new ≡ drop 1 self.old ++ version ∷ [] }
    {
        self.newest.copy_within(1.., 0);
        self.newest[LOOKS - 1] = version;
    }

    /// How a document is kept whose versions are kept up to one. Where the journal is lost no more is kept.
    pub fn health(&self, kept: u64, is_lost: bool) -> Health
        ensures { result ≡ health_of self.now kept is_lost }
    {
        if is_lost {
            return Health::Lost;
        }
        if kept < self.newest[0] {
            return Health::Late;
        }
        Health::Well
    }
}

/// How a document is kept.
#[derive(Clone, Copy, Debug, PartialEq, Eq)]
pub enum Health {
    /// As it should be.
    Well,
    /// An edit has waited to be kept for over two seconds.
    Late,
    /// No more edits are kept.
    Lost,
}
