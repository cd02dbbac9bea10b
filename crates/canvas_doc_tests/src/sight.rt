//! Children that may show in a box of the page: those that are far from it are left out.

use crate::asserts::holds;
use crate::samples::{RED, after, create, moved, rectangle};
use canvas_doc::{Document, Edit, Parent, Record, Spot};
use canvas_plane::{PageBox, Pose};
use std::alloc::Global;
use std::process::Abort;

// So many squares on the page, each 10 pixels to the right of the one before and in front of it.
fn row_of_squares(rt: &impl Abort, alloc: Global, count: u32) -> Document {
    let mut document = Document::empty(alloc);
    for number in 0..count {
        let square = create(rectangle(2, 2, RED), Parent::Page, Spot::Front);
        document = after(rt, alloc, document, square);
        let pose = moved(i64::from(number).wrapping_mul(10), 0);
        let id = number.saturating_add(1);
        document = after(rt, alloc, document, Edit::Pose { id, pose });
    }
    document
}

// How far a pose moves at most, of which two are put together.
const FAR: u64 = 33_554_432;

// The children that may show in a box; none where the pose is refused.
fn meeting<'a>(
    rt: &impl Abort,
    alloc: Global,
    document: &'a Document,
    parent: Parent,
    out: &Pose,
    clip: &PageBox,
) -> Vec<&'a Record> {
    if out.quarter <= 3 && out.reach() <= FAR {
        document
            .children_meeting(alloc, parent, out, clip)
            .expect(rt, "memory")
    } else {
        Vec::new(alloc)
    }
}

// The ids of the shapes on the page that may show from a column to another one.
fn ids_between(
    rt: &impl Abort,
    alloc: Global,
    document: &Document,
    left: i64,
    right: i64,
) -> Vec<u32> {
    let clip = PageBox {
        left,
        top: 0,
        right,
        bottom: 2,
    };
    let mut ids = Vec::new(alloc);
    for shape in &meeting(rt, alloc, document, Parent::Page, &Pose::STILL, &clip) {
        ids.push(shape.id).expect(rt, "memory");
    }
    ids
}

#[test]
fn far_children_are_left_out(rt: HostRuntime) {
    let alloc = rt.alloc();
    let document = row_of_squares(&rt, alloc, 200);
    let two = ids_between(&rt, alloc, &document, 1_001, 1_011);
    holds(
        &rt,
        "two of them",
        &two,
        two.as_slice() == [102u32, 101].as_slice(),
    );
    let none = ids_between(&rt, alloc, &document, 1_002, 1_010);
    holds(&rt, "none of them", &none, none.is_empty());
    drop(document);
}
