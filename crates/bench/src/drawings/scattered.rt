//! Shapes that lie anywhere below a size, turned and mirrored.

use crate::fault::Fault;
use crate::shapes::Drawing;
use canvas_doc::Parent;
use canvas_plane::{Point, Pose};
use canvas_shape::{Colour, Kind, Points};

/// Adds a rectangle with sides of 20 to 300, which lies below a size in both directions.
pub fn add_rectangle(drawing: &mut Drawing, size: u32, parent: Parent) -> Result<(), Fault> {
    let w = drawing.below(280).saturating_add(20);
    let h = drawing.below(280).saturating_add(20);
    let fill = fill(drawing);
    let pose = pose(drawing, size);
    drawing.add(Kind::Rect { w, h, fill }, pose, parent)
}

/// Adds a frame on the page, which lies below a size in both directions, and all that lies in it.
pub fn add_nest(drawing: &mut Drawing, size: u32) -> Result<(), Fault> {
    let outer = drawing.next_parent();
    add_frame(drawing, 260, size, Parent::Page)?;
    let inner = drawing.next_parent();
    add_frame(drawing, 200, 60, outer)?;
    add_eleven(drawing, inner)?;
    let group = drawing.next_parent();
    let pose = pose(drawing, 60);
    drawing.add(Kind::Group, pose, outer)?;
    add_eleven(drawing, group)
}

// Adds a frame with such sides, which lies below a size.
fn add_frame(drawing: &mut Drawing, side: u32, size: u32, parent: Parent) -> Result<(), Fault> {
    let pose = pose(drawing, size);
    let fill = if drawing.below(2) == 0 {
        Some(fill(drawing))
    } else {
        None
    };
    let (w, h) = (side, side);
    drawing.add(Kind::Frame { w, h, fill }, pose, parent)
}

// Adds eleven shapes of all kinds below a parent.
fn add_eleven(drawing: &mut Drawing, parent: Parent) -> Result<(), Fault> {
    for _ in 0..11u32 {
        add_small(drawing, parent)?;
    }
    Ok(())
}

fn add_small(drawing: &mut Drawing, parent: Parent) -> Result<(), Fault> {
    let kind = small(drawing)?;
    let pose = pose(drawing, 150);
    drawing.add(kind, pose, parent)
}

// A rectangle, an ellipse or a polygon with sides of 10 to 70.
fn small(drawing: &mut Drawing) -> Result<Kind, Fault> {
    let w = drawing.below(60).saturating_add(10);
    let h = drawing.below(60).saturating_add(10);
    let fill = fill(drawing);
    match drawing.below(3) {
        0 => Ok(Kind::Rect { w, h, fill }),
        1 => Ok(Kind::Ellipse { w, h, fill }),
        _ => {
            let points = drawing.vertices(6, w, h)?;
            Ok(Kind::Polygon { points, fill })
        }
    }
}

/// Adds a star of 256 vertices, 200 across, on the page.
pub fn add_star(drawing: &mut Drawing) -> Result<(), Fault> {
    let fill = fill(drawing);
    let points = star(drawing)?;
    let pose = pose(drawing, 1000);
    drawing.add(Kind::Polygon { points, fill }, pose, Parent::Page)
}

// The vertices of a star round the origin, each turned on by a 256th of the circle.
fn star(drawing: &mut Drawing) -> Result<Points, Fault> {
    let mut points = Points::new(drawing.alloc);
    let (mut x, mut y) = (1i64 << 20, 0i64);
    for _ in 0..256u32 {
        let far = i64::from(drawing.below(60)).saturating_add(40);
        points.push(Point {
            x: x.wrapping_mul(far) >> 20,
            y: y.wrapping_mul(far) >> 20,
        })?;
        (x, y) = (turned(x, 0i64.saturating_sub(y)), turned(y, x));
    }
    Ok(points)
}

// A coordinate turned by a 256th of the circle, where `across` is the one that it takes from.
fn turned(along: i64, across: i64) -> i64 {
    let kept = along.wrapping_mul(1_048_260);
    let taken = across.wrapping_mul(25_733);
    kept.wrapping_add(taken) >> 20
}

/// Adds a group on the page, and nine rectangles in it, all over one another.
pub fn add_group(drawing: &mut Drawing) -> Result<(), Fault> {
    let group = drawing.next_parent();
    drawing.add(Kind::Group, Pose::STILL, Parent::Page)?;
    for _ in 0..9u32 {
        add_rectangle(drawing, 500, group)?;
    }
    Ok(())
}

fn fill(drawing: &mut Drawing) -> Colour {
    Colour([byte(drawing), byte(drawing), byte(drawing)])
}

fn byte(drawing: &mut Drawing) -> u8 {
    drawing.below(256).min(255) as u8
}

// A place that lies below a size, in both directions.
fn pose(drawing: &mut Drawing, size: u32) -> Pose {
    Pose {
        dx: i64::from(drawing.below(size)),
        dy: i64::from(drawing.below(size)),
        quarter: drawing.below(4).min(3) as u8,
        flip: drawing.below(2) == 1,
    }
}
