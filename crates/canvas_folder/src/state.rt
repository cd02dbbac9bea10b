//! What the state of a folder calls for.
ghost use Rattle.std.specs.Prelude.{◌≡◌, All, IfNone, IfSome, false};
ghost use Rattle.canvas_folder.specs.Generations.{is_strange};
ghost use Rattle.canvas_folder.specs.States.{HasState, IsStrangeIn};

use crate::generation::{Generation, served};

/// What the state of a folder calls for.
#[derive(Clone, Copy, Debug, PartialEq, Eq)]
pub enum State {
    /// The document of this generation is served. What is there of the next one is what a crash
    /// left, and is begun anew when its turn comes.
    Serves(u32),
    /// Generation 1 is begun, anew where a crash left a part of it.
    Begins,
    /// This generation is not what a crash leaves: it has a journal without an opening, or it does
    /// not follow the one that is served. Nothing is served, since it might be the wrong document.
    Strange(u32),
}

/// What the state of a folder calls for, which has these generations.
pub fn state_of(generations: &[Generation]) -> State
    ensures { HasState generations.now result }
{
    let served = served(generations);
    if let Some(number) = strange(served.unwrap_or(0), generations) {
        return State::Strange(number);
    }
    match served {
        Some(number) => State::Serves(number),
        None => State::Begins,
    }
}

// The first generation that is not what a crash leaves beside the one that is served; 0 stands for none.
fn strange(served: u32, generations: &[Generation]) -> Option<u32>
    ensures some { IfSome result (IsStrangeIn generations.now served) }
    ensures none { IfNone result (All (λ g. is_strange served g ≡ false) generations.now) }
{
    for generation in generations {
        if is_strange(served, *generation) {
            return Some(generation.number);
        }
    }
    None
}

fn is_strange(served: u32, generation: Generation) -> bool
    ensures { result ≡ is_strange served generation }
{
    served < generation.number && (generation.has_journal || generation.number - served != 1)
}
