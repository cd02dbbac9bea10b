//! What a line asks for.
use canvas_record::Edit;

/// What a line asks for.
#[derive(Drop)]
pub enum Request {
    /// An edit of the document.
    Edit(Edit),
    /// The picture of a tile of 256 by 256 pixels: its level, and its column and row among the
    /// tiles of that level. Whether there is such a level is not judged here.
    Tile {
        level: u8,
        col: i32,
        row: i32,
    },
    /// The picture of a window: its level, and its left and top edge, width and height in pixels
    /// of that level.
    Patch {
        level: u8,
        x: i32,
        y: i32,
        w: u32,
        h: u32,
    },
    /// The colour of a pixel.
    Point {
        x: i32,
        y: i32,
    },
    /// The document as a saved text.
    Export,
}
