//! Blocks that show in a word.

ghost use Rattle.std.specs.Prelude.{◌≡◌};

use crate::block::{Block, Form};
use canvas_shape::Colour;

/// A block that shows in a word: the pixels where it may show, and those that it held in the row
/// that was painted last.
#[derive(Clone, Copy)]
pub(crate) struct Active<'a> {
    pub reach: u64,
    pub mask: u64,
    pub fill: Colour,
    pub form: Form<'a>,
}

impl<'a> Active<'a> {
    /// A block that may show in some pixels of a word, and of which no row was painted.
    pub(crate) fn new(block: &Block<'a>, reach: u64) -> Active<'a>
        ensures { result
            ≡ record { reach = reach; mask = 0; fill = block.now.fill; form = block.now.form } }
    {
        Active {
            reach,
            mask: 0,
            fill: block.fill,
            form: block.form,
        }
    }
}
