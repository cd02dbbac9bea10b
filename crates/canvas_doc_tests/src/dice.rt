//! Numbers that look random, the same in each run.

ghost use Rattle.std.specs.Prelude.{◌<◌, ◌^◌};

/// A plain congruential generator.
#[derive(Drop)]
pub(crate) struct Dice {
    state: u64,
}

impl Dice {
    /// The generator that begins with a seed.
    pub(crate) fn new(seed: u64) -> Dice {
        Dice { state: seed }
    }

    fn roll(&mut self) -> u64
        ensures { result < 2 ^ 32 }
    {
        self.state = self
            .state
            .wrapping_mul(6364136223846793005)
            .wrapping_add(1442695040888963407);
        self.state >> 32
    }

    /// A number below a bound.
    pub(crate) fn below(&mut self, sides: u64) -> u64
        requires { 0 < sides }
        ensures { result < sides }
    {
        self.roll() % sides
    }

    /// True once in two times.
    pub(crate) fn coin(&mut self) -> bool {
        self.below(2) == 1
    }

    /// A number from -20 to 20.
    pub(crate) fn near(&mut self) -> i64 {
        self.below(41) as i64 - 20
    }
}
