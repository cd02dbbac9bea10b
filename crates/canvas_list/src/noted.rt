//! What a table notes of its parts, which is asked without a look at them.

ghost use Rattle.std.specs.Prelude.{◌≡◌};

use crate::hint::Hint;

/// How many items a part has, and where the first most likely stands. The numbers lie side by side
/// with no gap: tables are copied and gone over.
#[derive(Clone, Copy)]
pub(crate) struct Noted {
    minor: u64,
    major: u32,
    pub(crate) count: u32,
}

impl Noted {
    #[inline(always)]
    pub(crate) fn new(count: u32, hint: Hint) -> Noted
        ensures { result.count ≡ count }
    {
        Noted {
            minor: hint.minor,
            major: hint.major,
            count,
        }
    }

    /// The hint of the first item, as it was when that item came there.
    #[inline(always)]
    pub(crate) fn hint(&self) -> Hint {
        Hint {
            major: self.major,
            minor: self.minor,
        }
    }
}
