//! Documents to be painted and edited.

mod scattered;
mod spread;

use crate::fault::Fault;
use crate::shapes::Drawing;
use canvas_doc::Parent;
use std::alloc::Global;

/// What a document is made of.
#[derive(Clone, Copy)]
pub enum Part {
    /// A rectangle with sides up to so many pixels, spread over the page's first tile and beyond it
    /// on all sides.
    Rectangle(u32),
    /// An ellipse like that.
    Ellipse(u32),
    /// A polygon of so many vertices, spread like that.
    Polygon(u32),
    /// A frame of 8 by 8 pixels, which shows a part of such a polygon.
    Framed(u32),
    /// A square with such sides at the page's origin.
    Square(u32),
    /// A rectangle with sides of 20 to 300 on the page, which lies below 600 in both directions.
    Large,
    /// A frame on the page, which lies below a size in both directions, in it a frame and a group,
    /// and in each of these eleven shapes.
    Nest(u32),
    /// A star of 256 vertices, 200 across, on the page.
    Star,
    /// A group on the page with nine rectangles in it, all over one another.
    Group,
}

/// A document of so many parts, with the numbers that begin with a seed.
pub fn drawn(alloc: Global, seed: u64, part: Part, count: u32) -> Result<Drawing, Fault> {
    let mut drawing = Drawing::new(alloc, seed);
    extend(&mut drawing, part, count)?;
    Ok(drawing)
}

/// Adds so many parts.
pub fn extend(drawing: &mut Drawing, part: Part, count: u32) -> Result<(), Fault> {
    for _ in 0..count {
        add(drawing, part)?;
    }
    Ok(())
}

fn add(drawing: &mut Drawing, part: Part) -> Result<(), Fault> {
    match part {
        Part::Rectangle(most) => spread::add_rectangle(drawing, most),
        Part::Ellipse(most) => spread::add_ellipse(drawing, most),
        Part::Polygon(vertices) => spread::add_polygon(drawing, vertices),
        Part::Framed(vertices) => spread::add_framed(drawing, vertices),
        Part::Square(side) => spread::add_square(drawing, side),
        Part::Large => scattered::add_rectangle(drawing, 600, Parent::Page),
        Part::Nest(size) => scattered::add_nest(drawing, size),
        Part::Star => scattered::add_star(drawing),
        Part::Group => scattered::add_group(drawing),
    }
}
