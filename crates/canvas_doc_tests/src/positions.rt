//! Which record of a list is no record, or belongs to no tree: the first one. Of a saved text the
//! programs tell the refusal alone.

use crate::asserts::holds;
use crate::samples::{RED, frame, moved, push, record, rectangle, restored};
use canvas_doc::{Parent, Record, TreeFault};
use canvas_key::fresh;
use canvas_plane::{Point, Pose};
use canvas_shape::{Kind, Points};
use std::alloc::Global;
use std::process::Abort;

// What a record is: a group, a leaf, a leaf with a pose out of range, or a shape with values out of
// range.
#[derive(Clone, Copy, Debug)]
enum What {
    Group,
    Leaf,
    Far,
    Turned,
    Narrow,
    High,
    Points(i64),
}

// An id, the id of a parent (0: the page), how many siblings' keys come before its index, and what
// it is.
type Row = (u32, u32, u32, What);

const G: What = What::Group;

const L: What = What::Leaf;

// Records whose values are out of range. The next id is 9.
static BAD_RECORDS: [(&[Row], usize); 10] = [
    (&[(1, 0, 0, G), (9, 0, 1, G)], 1),
    (&[(1, 0, 0, G), (0, 0, 1, L)], 1),
    (&[(1, 0, 0, G), (12, 0, 1, L), (0, 0, 2, L)], 1),
    (&[(1, 0, 0, G), (2, 1, 0, What::Far)], 1),
    (&[(1, 0, 0, G), (2, 1, 0, What::Turned)], 1),
    (&[(1, 0, 0, G), (2, 1, 0, What::Narrow)], 1),
    (&[(1, 0, 0, G), (2, 1, 0, What::High)], 1),
    (&[(1, 0, 0, G), (2, 1, 0, What::Points(2))], 1),
    (&[(1, 0, 0, G), (2, 1, 0, What::Points(257))], 1),
    // The limits of a record are judged before the tree.
    (&[(1, 5, 0, G), (2, 0, 0, G), (0, 0, 1, L)], 2),
];

// Records that are no tree.
static BAD_TREES: [(&[Row], usize); 17] = [
    // Ids that stand twice: the first record with the id is the parent.
    (&[(1, 0, 0, G), (2, 0, 1, G), (1, 0, 2, G)], 2),
    (&[(2, 1, 0, G), (1, 0, 0, L), (1, 0, 1, G)], 0),
    (&[(2, 1, 0, G), (1, 0, 0, G), (1, 0, 1, L)], 2),
    // A parent that is not there, one that is a leaf, oneself, and each other.
    (&[(1, 0, 0, G), (2, 5, 0, G)], 1),
    (&[(1, 0, 0, L), (2, 1, 0, G)], 1),
    (&[(1, 0, 0, G), (2, 2, 0, G)], 1),
    (&[(1, 2, 0, G), (2, 1, 0, G)], 0),
    // A path that breaks off higher up, and a leaf there, at which the record below it is at fault.
    (&[(1, 0, 0, G), (2, 3, 0, G), (3, 5, 0, G)], 1),
    (&[(1, 2, 0, G), (2, 3, 0, G), (3, 0, 0, L)], 1),
    // One key twice under one parent, and of several faults the first.
    (&[(1, 0, 0, G), (2, 1, 7, L), (3, 1, 8, L), (4, 1, 7, L)], 3),
    (&[(1, 0, 7, G), (2, 0, 7, G)], 1),
    (&[(1, 0, 0, G), (2, 0, 0, G), (1, 5, 0, L)], 1),
    // An id twice, no such parent, oneself, each other, and one place twice, among others.
    (&[(1, 0, 0, G), (2, 1, 0, G), (1, 2, 1, G)], 2),
    (&[(1, 0, 0, G), (2, 9, 0, G)], 1),
    (&[(1, 1, 0, G)], 0),
    (&[(1, 0, 0, G), (2, 3, 0, G), (3, 2, 0, G)], 1),
    (&[(1, 0, 0, G), (2, 0, 1, G), (3, 2, 0, G), (4, 0, 1, G)], 3),
];

// A polygon with so many vertices.
fn polygon_of(rt: &impl Abort, alloc: Global, count: i64) -> Kind {
    let mut points = Points::new(alloc);
    for x in 0..count {
        points.push(Point { x, y: 0 }).expect(rt, "memory");
    }
    Kind::Polygon { points, fill: RED }
}

fn kind_of(rt: &impl Abort, alloc: Global, what: What) -> Kind {
    match what {
        What::Group => Kind::Group,
        What::Narrow => frame(0, 1),
        What::High => frame(1, 65_537),
        What::Points(count) => polygon_of(rt, alloc, count),
        _ => rectangle(2, 1, RED),
    }
}

fn pose_of(what: What) -> Pose {
    match what {
        What::Far => moved(0, -1_048_577),
        What::Turned => Pose {
            quarter: 4,
            ..Pose::STILL
        },
        _ => Pose::STILL,
    }
}

fn record_of(rt: &impl Abort, alloc: Global, row: &Row) -> Record {
    let (id, parent, rank, what) = *row;
    let parent = if parent == 0 {
        Parent::Page
    } else {
        Parent::Shape(parent)
    };
    let mut shape = record(id, parent, fresh(rank), kind_of(rt, alloc, what));
    shape.pose = pose_of(what);
    shape
}

// Why rows are no document, if they are none.
fn fault_of(rt: &impl Abort, alloc: Global, rows: &[Row], next: u32) -> Option<TreeFault> {
    let mut records = Vec::new(alloc);
    for row in rows {
        push(rt, &mut records, record_of(rt, alloc, row));
    }
    restored(alloc, records, next).err()
}

#[test]
fn the_first_bad_record(rt: HostRuntime) {
    for (rows, position) in &BAD_RECORDS {
        let found = fault_of(&rt, rt.alloc(), rows, 9);
        let position = *position;
        let is_so = found == Some(TreeFault::BadRecord { position });
        holds(&rt, "a bad record", &(rows, found), is_so);
    }
}

#[test]
fn the_first_that_belongs_to_no_tree(rt: HostRuntime) {
    for (rows, position) in &BAD_TREES {
        let found = fault_of(&rt, rt.alloc(), rows, 9);
        let position = *position;
        let is_so = found == Some(TreeFault::BadTree { position });
        holds(&rt, "a bad tree", &(rows, found), is_so);
    }
}

// Why 33 groups, each in the one before, are no document: from the page down, or from below up.
fn fault_of_chain(rt: &impl Abort, alloc: Global, is_upward: bool) -> Option<TreeFault> {
    let mut rows = Vec::new(alloc);
    for parent in 0..33u32 {
        rows.push((parent + 1, parent, 0, G)).expect(rt, "memory");
    }
    if is_upward {
        rows.reverse();
    }
    fault_of(rt, alloc, &rows, 99)
}

#[test]
fn the_first_that_is_too_deep(rt: HostRuntime) {
    for (is_upward, position) in [(false, 32), (true, 0)] {
        let found = fault_of_chain(&rt, rt.alloc(), is_upward);
        let is_so = found == Some(TreeFault::BadTree { position });
        holds(&rt, "too deep", &(is_upward, found), is_so);
    }
}
