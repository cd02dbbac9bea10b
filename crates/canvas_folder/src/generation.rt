//! The generations of a folder, and the one that is served.
ghost use Rattle.std.specs.Prelude.{◌≡◌, ◌+◌, ◌^◌, IfNone, IfSome, unwrap_or};
ghost use Rattle.canvas_folder.specs.Generations.{IsServed, is_whole, later};

/// What one generation of a folder has.
#[derive(Clone, Copy, Debug, PartialEq, Eq)]
pub struct Generation {
    /// Its number, which is the name of its folder.
    pub number: u32,
    /// The document that it begins with.
    pub has_opening: bool,
    /// An opening that has not got its name yet.
    pub has_temporary: bool,
    /// The edits that were made since.
    pub has_journal: bool,
}

impl Generation {
    /// Whether it has both an opening and a journal. One that has not is what a crash left of its making.
    pub fn is_whole(&self) -> bool
        ensures { result ≡ is_whole self.now }
    {
        self.has_opening && self.has_journal
    }
}

/// The generation that is served: the highest whole one.
pub fn served(generations: &[Generation]) -> Option<u32>
    ensures { IsServed generations.now result }
{
    let mut highest = None;
    for generation in generations {
        highest = later(highest, *generation);
    }
    highest
}

// Which one is served, if a further generation is there.
fn later(highest: Option<u32>, generation: Generation) -> Option<u32>
    ensures { result ≡ later highest generation }
{
    if !generation.is_whole() {
        return highest;
    }
    match highest {
        Some(number) if generation.number < number => highest,
        _ => Some(generation.number),
    }
}

/// The number of the generation that comes behind the one that is served; 1 is the first. `None`
/// where there is no further number.
pub fn next_number(served: Option<u32>) -> Option<u32>
    ensures next { IfSome result (λ number. number ≡ unwrap_or served 0 + 1) }
    ensures last { IfNone result (unwrap_or served 0 + 1 ≡ 2 ^ 32) }
{
    served.unwrap_or(0).checked_add(1)
}
