//! The plane that shapes are placed on: points, poses, boxes of pixels and windows.
#![tactic(auto)]

mod motion;
mod page_box;
mod windows;

use canvas_code::Coded;
use thiserror::Error;
pub use windows::{Window, WindowFault};

/// A point of the plane, or the pixel whose left top corner it is. y grows downward.
#[derive(Clone, Copy, Debug, PartialEq, Eq)]
pub struct Point {
    /// In pixels, to the right.
    pub x: i64,
    /// In pixels, downward.
    pub y: i64,
}

/// How a shape's own points are carried to its parent: a flip, then quarter turns, then a
/// translation. The flip makes (x, y) into (-x, y), a quarter turn makes it into (-y, x).
#[derive(Clone, Copy, Debug, PartialEq, Eq)]
pub struct Pose {
    /// How many pixels to the right, at most 2^20 in size in a record.
    pub dx: i64,
    /// How many pixels downward, at most 2^20 in size in a record.
    pub dy: i64,
    /// How many quarter turns, 0 to 3.
    pub quarter: u8,
    /// Whether left and right are swapped first.
    pub flip: bool,
}

/// Why a pose is refused.
#[derive(Clone, Copy, Debug, PartialEq, Eq, Drop, Error)]
#[error("{}", self.name())]
pub enum PoseFault {
    /// dx or dy is above 2^20 in size, or quarter is above 3.
    BadPose,
}

/// A box of whole pixels: it holds its left and top edges, and not its right and bottom ones.
#[derive(Clone, Copy, Debug, PartialEq, Eq)]
pub struct PageBox {
    /// The first column.
    pub left: i64,
    /// The first row.
    pub top: i64,
    /// The column behind the last one.
    pub right: i64,
    /// The row below the last one.
    pub bottom: i64,
}
