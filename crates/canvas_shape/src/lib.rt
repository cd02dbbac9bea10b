//! Shapes of the page: kinds, leaves carried to the page, and the pixels that they hold, one by
//! one or row by row.
#![tactic(auto)]

mod edge_flags;
mod ellipse;
mod flag_words;
mod grid;
mod hex_text;
mod kinds;
mod leaves;
mod line;
mod parts;
mod polygon;
mod spans;
mod strip;
mod vertex_list;

use canvas_code::Coded;
use canvas_plane::Point;
pub use edge_flags::EdgeFlags;
pub use ellipse::Ends;
pub use parts::{LeafBox, Vertices};
pub use polygon::{Cuts, bounds};
use std::marker::Model;
use thiserror::Error;

/// An opaque colour of three bytes: red, green and blue.
#[derive(Clone, Copy, Debug, PartialEq, Eq)]
pub struct Colour(pub [u8; 3]);

/// The vertices of a polygon, seen as their list.
#[derive(Debug, Drop)]
pub struct Points {
    items: Vec<Point>,
}

impl Model for Points {
    ghost use Rattle.std.specs.Prelude.{List};
    ghost use Rattle.canvas_plane.specs.declared.Point.{Point};

    ghost Value = { List Point };

    ghost view = { λ points. points.items.items };
}

/// What a record shows. A box lies from (0, 0) to (w, h) in the shape's own coordinates. In a
/// record its sides are 1 to 65,536 pixels, and a polygon has 3 to 256 vertices with coordinates of
/// at most 2^20 in size (`Kind::check`).
#[derive(Debug, PartialEq, Drop)]
pub enum Kind {
    /// Shows its children alone.
    Group,
    /// Shows its children inside its box, and behind them its fill, if it has one.
    Frame {
        w: u32,
        h: u32,
        fill: Option<Colour>,
    },
    /// All of its box.
    Rect {
        w: u32,
        h: u32,
        fill: Colour,
    },
    /// The ellipse that fills the box.
    Ellipse {
        w: u32,
        h: u32,
        fill: Colour,
    },
    /// The pixels whose middles its edges enclose an odd number of times (even-odd rule). The edges
    /// go from each vertex to the next, and from the last to the first.
    Polygon {
        points: Points,
        fill: Colour,
    },
}

/// Why a kind is refused.
#[derive(Clone, Copy, Debug, PartialEq, Eq, Drop, Error)]
#[error("{}", self.name())]
pub enum KindFault {
    /// A side is outside 1 to 65,536.
    BadSize,
    /// There are fewer than 3 vertices or more than 256, or a coordinate is above 2^20 in size.
    BadPolygon,
}

/// The pixels of a row from one x up to another.
#[derive(Clone, Copy, Debug, PartialEq, Eq)]
pub struct Span {
    /// The first column.
    pub from: i32,
    /// The column behind the last one.
    pub to: i32,
}

/// A leaf carried to the page.
#[derive(Clone, Copy, Debug)]
pub enum Carried<'a> {
    Rect(LeafBox),
    Ellipse(LeafBox),
    Polygon(Vertices<'a>),
}
