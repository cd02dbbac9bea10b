//! The vertices of a polygon as a list.

ghost use Rattle.std.specs.Prelude.{◌≡◌, ◌++◌, ◌∷◌, [], IfOk, OnOk, OnErr};

use crate::Points;
use canvas_code::OutOfMemory;
use canvas_plane::Point;
use std::alloc::Global;

impl Points {
    /// No vertex yet.
    pub fn new(alloc: Global) -> Points
        ensures { result ≡ [] }
    {
        Points {
            items: Vec::new(alloc),
        }
    }

    /// Puts a vertex behind the last. Without memory the vertices stay as they were.
    pub fn push(&mut self, point: Point) -> Result<(), OutOfMemory>
        ensures ok { OnOk result (self.new ≡ self.old ++ point ∷ []) }
        ensures err { OnErr result (self.new ≡ self.old) }
    {
        self.items.push(point)?;
        Ok(())
    }

    /// These vertices.
    pub fn from_vec(items: Vec<Point>) -> Points
        ensures { result ≡ items.items }
    {
        Points { items }
    }

    /// The vertices in their order.
    pub fn as_slice(&self) -> &[Point]
        ensures { result.now ≡ self.now }
    {
        self.items.as_slice()
    }

    /// The same vertices.
    pub fn try_clone(&self, alloc: Global) -> Result<Points, OutOfMemory>
        ensures { IfOk result (λ points. points ≡ self.now) }
    {
        Ok(Points {
            items: self.items.to_vec(alloc)?,
        })
    }
}

impl PartialEq for Points {
    ghost use Rattle.canvas_shape.specs.Points.{same_points, same_points-law};

    ghost eq = { same_points };

    ghost laws = { same_points-law };

    fn eq(&self, other: &Points) -> bool {
        self.items == other.items
    }
}
