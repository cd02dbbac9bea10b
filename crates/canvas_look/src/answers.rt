//! What a board answers: to an edit the version that it made, to a look a picture, a colour or a
//! saved text, with the version that it shows.

ghost use Rattle.std.specs.Prelude.{◌≤◌, ◌^◌, vec_len};
ghost use Rattle.std.specs.Arc.{arc_value};

use canvas_shape::Colour;
use std::alloc::Global;
use std::sync::Arc;

/// The most bytes of an answer, 2^40, so that the bytes of a session can be counted in 64 bits.
pub const MOST_BYTES: usize = 1 << 40;

/// An edit that was accepted.
#[derive(Clone, Copy, Debug, PartialEq, Eq)]
pub struct Edited {
    /// How many changes are accepted then: the version that the edit made, from 1.
    pub number: u64,
    /// The id of the shape that the edit made, if it made one.
    pub id: Option<u32>,
}

/// A window of the document as an image.
#[derive(Debug, Drop)]
pub struct Picture {
    /// The version that is shown.
    pub version: u64,
    /// The P6 file of the window. A board that keeps the picture shares it.
    pub bytes: Arc<Vec<u8>, Global>,
    pub ghost small: { vec_len (arc_value bytes) ≤ 2 ^ 40 },
}

/// The colour of one pixel.
#[derive(Clone, Copy, Debug, PartialEq, Eq)]
pub struct Dot {
    /// The version that is shown.
    pub version: u64,
    pub colour: Colour,
}

/// The document as a text that opens as the same document.
#[derive(Debug, Drop)]
pub struct Saved {
    /// The version that is saved.
    pub version: u64,
    /// The saved document. A board that keeps it shares it.
    pub text: Arc<Vec<u8>, Global>,
    pub ghost small: { vec_len (arc_value text) ≤ 2 ^ 40 },
}
