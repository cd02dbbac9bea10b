//! The rows of a window of 256 by 256, row by row or together.

use crate::fault::Fault;
use canvas_plane::Window;
use canvas_shape::{Carried, Cuts, EdgeFlags, Span, Vertices};
use std::alloc::Global;

/// How many rows and columns the window has.
const SIDE: u32 = 256;

/// How the rows of a leaf are taken.
#[derive(Clone, Copy)]
pub enum Way {
    RowByRow,
    /// The edge flags of all rows of a polygon at once.
    Together,
}

impl Way {
    /// What the way is called.
    pub fn name(&self) -> &'static str {
        match self {
            Way::RowByRow => "row by row",
            Way::Together => "rows together",
        }
    }
}

/// Memory that all turns share, and the spans of the last one.
#[derive(Drop)]
pub struct Memory {
    cuts: Cuts,
    rows: [EdgeFlags; SIDE as usize],
    pub out: Vec<Span>,
}

impl Memory {
    pub fn new(alloc: Global) -> Memory {
        Memory {
            cuts: Cuts::new(alloc),
            rows: [EdgeFlags::none(); SIDE as usize],
            out: Vec::new(alloc),
        }
    }

    /// The spans of all rows of a leaf.
    pub fn take_rows(&mut self, leaf: &Carried<'_>, way: Way) -> Result<(), Fault> {
        self.out.clear();
        match (way, leaf) {
            (Way::Together, Carried::Polygon(vertices)) => {
                append_together(vertices, &mut self.rows, &mut self.out)
            }
            _ => append_row_by_row(leaf, &mut self.cuts, &mut self.out),
        }
    }
}

fn append_row_by_row(
    leaf: &Carried<'_>,
    cuts: &mut Cuts,
    out: &mut Vec<Span>,
) -> Result<(), Fault> {
    for y in 0..SIDE as i32 {
        leaf.row_spans_with(cuts, y, 0, SIDE as i32, out)?;
    }
    Ok(())
}

fn append_together(
    vertices: &Vertices<'_>,
    rows: &mut [EdgeFlags; SIDE as usize],
    out: &mut Vec<Span>,
) -> Result<(), Fault> {
    let Ok(tile) = Window::tile(0, 0) else {
        return Ok(());
    };
    vertices.flag_rows(&tile, 0, rows);
    for row in rows.iter() {
        row.append_spans(0, SIDE, out)?;
    }
    Ok(())
}
