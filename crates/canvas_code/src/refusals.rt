//! What each refusal has: its number, and the name beside it.

ghost use Rattle.std.specs.Prelude.{◌≡◌, ℕ};
ghost use Rattle.canvas_code.specs.Names.{name_of};

/// A refusal with a number of the table.
pub trait Coded {
    ghost code_of: { Self → ℕ };

    /// The number of the refusal.
    fn code(&self) -> u16
        ensures { result ≡ code_of self.now };

    /// The name of the refusal: that of its number.
    final fn name(&self) -> &'static str
        ensures { result.now ≡ name_of (code_of self.now) }
    {
        crate::name_of(self.code())
    }
}
