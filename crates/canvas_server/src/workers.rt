//! How many threads paint a picture of a server.

ghost use Rattle.std.specs.Prelude.{◌≡◌, true};
ghost use Rattle.canvas_paint.specs.Workers.{are_workers};

use std::marker::Model;

/// A number of workers, 1 to 16.
#[derive(Drop)]
pub struct Workers {
    number: u32,
}

impl Model for Workers {
    ghost use Rattle.std.specs.Prelude.{◌≡◌, ℕ, true};
    ghost use Rattle.canvas_paint.specs.Workers.{are_workers};

    ghost Value = { ℕ };

    ghost view = { λ w. w.number };

    ghost invariant = { λ w. are_workers w.number ≡ true };
}

impl Workers {
    /// So many workers.
    pub fn new(number: u32) -> Workers
        requires { are_workers number ≡ true }
        ensures { result ≡ number }
    {
        Workers { number }
    }

    /// How many they are.
    pub fn count(&self) -> u32
        ensures same { result ≡ self.now }
        ensures within { are_workers result ≡ true }
    {
        self.number
    }
}
