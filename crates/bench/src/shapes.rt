//! Documents that are made edit by edit, of shapes that look random.

use crate::fault::Fault;
use canvas_doc::{Document, Edit, Parent, Spot};
use canvas_plane::{Point, Pose};
use canvas_shape::{Kind, Points};
use std::alloc::Global;

/// The document after an edit.
pub fn edited(alloc: Global, document: &Document, edit: &Edit) -> Result<Document, Fault> {
    let change = document.decide(alloc, edit)?;
    let made = document.with(alloc, &change);
    drop(change);
    Ok(made?)
}

/// A document to which shapes are added, and numbers that look random, the same in each run.
#[derive(Drop)]
pub struct Drawing {
    pub alloc: Global,
    pub document: Document,
    state: u64,
}

impl Drawing {
    /// An empty document, and the numbers that begin with a seed.
    pub fn new(alloc: Global, seed: u64) -> Drawing {
        Drawing {
            alloc,
            document: Document::empty(alloc),
            state: seed,
        }
    }

    /// A document, and the numbers that begin with 0.
    pub fn of(alloc: Global, document: Document) -> Drawing {
        Drawing {
            alloc,
            document,
            state: 0,
        }
    }

    /// A number below n, or 0 where n is 0.
    pub fn below(&mut self, n: u32) -> u32 {
        self.state = self
            .state
            .wrapping_mul(6_364_136_223_846_793_005)
            .wrapping_add(1_442_695_040_888_963_407);
        let high = (self.state >> 40) as u32;
        if n == 0 { 0 } else { high % n }
    }

    /// So many vertices anywhere in a rectangle of such sides at the origin.
    pub fn vertices(&mut self, count: u32, w: u32, h: u32) -> Result<Points, Fault> {
        let mut points = Points::new(self.alloc);
        for _ in 0..count {
            let x = i64::from(self.below(w));
            let y = i64::from(self.below(h));
            points.push(Point { x, y })?;
        }
        Ok(points)
    }

    /// The parent that the next shape is.
    pub fn next_parent(&self) -> Parent {
        Parent::Shape(self.document.next_id())
    }

    /// Adds a shape in front of a parent's children.
    pub fn add(&mut self, kind: Kind, pose: Pose, parent: Parent) -> Result<(), Fault> {
        let edit = Edit::Create {
            kind,
            pose,
            hidden: false,
            parent,
            spot: Spot::Front,
        };
        let made = edited(self.alloc, &self.document, &edit);
        drop(edit);
        self.document = made?;
        Ok(())
    }
}
