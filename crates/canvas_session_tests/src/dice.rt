//! Numbers that look random, the same in each run.

ghost use Rattle.std.specs.Prelude.{◌<◌, ◌^◌};

/// A plain congruential generator.
#[derive(Drop)]
pub(crate) struct Dice {
    pub(crate) state: u64,
}

impl Dice {
    fn roll(&mut self) -> u64
        ensures { result < 2 ^ 32 }
    {
        self.state = self
            .state
            .wrapping_mul(6364136223846793005)
            .wrapping_add(1442695040888963407);
        self.state >> 32
    }

    /// A number below a bound.
    pub(crate) fn below(&mut self, sides: u64) -> u64
        requires { 0 < sides }
        ensures { result < sides }
    {
        self.roll() % sides
    }

    /// True once in two times.
    pub(crate) fn coin(&mut self) -> bool {
        self.below(2) == 1
    }
}
