//! Items of a display list.

use canvas_plane::PageBox;
use canvas_shape::{Carried, Colour};

/// A leaf on the page, what of it may be seen, and its colour. It holds a pixel where leaf and
/// clip both do. Plain data: what it lends is only the vertices of a polygon.
#[derive(Clone, Copy, Debug)]
pub struct Item<'a> {
    /// The leaf, carried to the page.
    pub leaf: Carried<'a>,
    /// What the frames round the leaf leave of the page, in pixels.
    pub clip: PageBox,
    /// The colour of all its pixels.
    pub fill: Colour,
}
