//! Where an item most likely stands.

/// Where an item most likely stands in a list. A list notes it of the first item of each of its
/// parts. A search follows these to one part, and in it the short hints of the items. It may be
/// anything: where hints do not rise along the list, a search takes longer and finds the same.
#[derive(Clone, Copy)]
pub struct Hint {
    /// By this first.
    pub major: u32,
    /// And then by this.
    pub minor: u64,
}

impl Hint {
    /// Whether it points before another.
    #[inline(always)]
    pub(crate) fn is_before(self, other: Hint) -> bool {
        self.major < other.major || (self.major == other.major && self.minor < other.minor)
    }

    /// Its beginning.
    #[inline(always)]
    pub fn short(self) -> ShortHint {
        ShortHint {
            bits: u64::from(self.major) << 32 | self.minor >> 32,
        }
    }
}

/// The beginning of a hint: its major number, and the first half of its minor one. Two are compared at once.
#[derive(Clone, Copy)]
pub struct ShortHint {
    bits: u64,
}

impl ShortHint {
    /// Whether it points before another. Where only what follows differs it does not.
    #[inline(always)]
    pub(crate) fn is_before(self, other: ShortHint) -> bool {
        self.bits < other.bits
    }
}

/// A value that tells where it most likely stands.
pub trait Hinted {
    /// Its hint.
    fn hint(&self) -> Hint;
}
