//! What a worker passes before it paints its strip.

/// A place that each worker of a picture passes before it paints its strip. A picture is the same
/// whatever its gate does, as long as each worker comes through.
pub trait Gate {
    ghost use Rattle.std.specs.Prelude.{ℕ};

    // The strips that may come to the gate.
    ghost admits: { Self → ℕ → Type 0 };

    // What holds once a strip has passed. Only a call of `pass` tells it of a gate whose type is not known.
    ghost passed: { Self → ℕ → Type 0 };

    /// Returns when the strip of this number, counted from 0, may be painted.
    fn pass(&self, strip: u32)
        requires { admits self.now strip }
        ensures passed { passed self.now strip };
}

/// Lets each worker pass at once.
#[derive(Clone, Copy, Debug, Drop)]
pub struct FreeGate;

impl Gate for FreeGate {
    ghost admits = { λ _ _. Unit {0} };

    ghost passed = { λ _ _. Unit {0} };

    fn pass(&self, _strip: u32) {}
}

/// Lets each of so many workers pass at once, and has no others come.
#[derive(Clone, Copy)]
pub(crate) struct GateFor {
    pub(crate) workers: u32,
}

impl Gate for GateFor {
    ghost use Rattle.std.specs.Prelude.{◌<◌};

    ghost admits = { λ gate strip. strip < gate.workers };

    ghost passed = { λ _ _. Unit {0} };

    fn pass(&self, _strip: u32) {}
}
