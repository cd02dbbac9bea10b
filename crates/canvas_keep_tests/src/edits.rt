//! A short history of edits of all kinds, and the documents that it makes.

use crate::asserts::equal;
use crate::seats::Two;
use canvas_doc::{Edit, Parent, Refusal, Spot};
use canvas_line::{Edited, LineFault, Lines, Seat};
use canvas_plane::Pose;
use canvas_saved::export;
use canvas_shape::{Colour, Kind};
use std::alloc::Global;
use std::process::Abort;
use std::sync::Wait;

/// How many edits there are.
pub(crate) const EDITS: u64 = 10;

const RED: Colour = Colour([255, 0, 0]);

/// The edit that makes a version, from 1 to `EDITS`.
pub(crate) fn edit(version: u64) -> Edit {
    match version {
        1 => create(rect(10), Parent::Page, Spot::Front),
        2 => create(Kind::Group, Parent::Page, Spot::Front),
        3 => create(rect(20), Parent::Shape(2), Spot::Back),
        4 => Edit::Pose {
            id: 1,
            pose: at(100),
        },
        5 => Edit::Move {
            id: 1,
            parent: Parent::Shape(2),
            spot: Spot::Over(3),
        },
        6 => Edit::Reshape {
            id: 3,
            kind: rect(30),
        },
        7 => Edit::Show {
            id: 2,
            hidden: true,
        },
        8 => Edit::Delete { id: 3 },
        9 => create(rect(40), Parent::Page, Spot::Back),
        _ => Edit::Respace {
            parent: Parent::Page,
        },
    }
}

/// A red square, at the front of the page.
pub(crate) fn square() -> Edit {
    create(rect(10), Parent::Page, Spot::Front)
}

fn create(kind: Kind, parent: Parent, spot: Spot) -> Edit {
    Edit::Create {
        kind,
        pose: Pose::STILL,
        hidden: false,
        parent,
        spot,
    }
}

fn rect(side: u32) -> Kind {
    Kind::Rect {
        w: side,
        h: side,
        fill: RED,
    }
}

fn at(dx: i64) -> Pose {
    Pose {
        dx,
        dy: 0,
        quarter: 0,
        flip: false,
    }
}

/// The id of the shape that the edit of a version makes, if it makes one.
fn id_of(version: u64) -> Option<u32> {
    match version {
        1 => Some(1),
        2 => Some(2),
        3 => Some(3),
        9 => Some(4),
        _ => None,
    }
}

/// The document after all edits, as it is saved.
pub(crate) fn saved_at_the_end() -> &'static [u8] {
    br#"{"format":2,"next":5,"shapes":[{"hidden":false,"id":1,"place":{"index":"a1","parent":2},"pose":{"dx":100,"dy":0,"flip":false,"quarter":0},"shape":{"fill":"ff0000","h":10,"kind":"rect","w":10}},{"hidden":true,"id":2,"place":{"index":"a1","parent":null},"pose":{"dx":0,"dy":0,"flip":false,"quarter":0},"shape":{"kind":"group"}},{"hidden":false,"id":4,"place":{"index":"a0","parent":null},"pose":{"dx":0,"dy":0,"flip":false,"quarter":0},"shape":{"fill":"ff0000","h":40,"kind":"rect","w":40}}]}"#
}

/// Makes the edit of a version, by one seat or the other, and asserts its answer. Behind some of
/// them another one is refused.
pub(crate) fn make<B: Lines, H: Wait + Abort>(rt: &H, two: &mut Two<B>, version: u64) {
    let seat = if version % 3 == 0 {
        &mut two.second
    } else {
        &mut two.first
    };
    let wanted = Ok(Edited {
        number: version,
        id: id_of(version),
    });
    equal(rt, "an edit", &seat.edit(rt, &edit(version)), &wanted);
    if version % 4 == 0 {
        let refused = seat.edit(rt, &Edit::Delete { id: 9 });
        let wanted = Err(LineFault::Refused(Refusal::NoSuchShape));
        equal(rt, "a refused edit", &refused, &wanted);
    }
}

/// The document that a seat sees, as it is saved, and its version.
pub(crate) fn seen<B: Lines>(rt: &impl Abort, alloc: Global, seat: &mut Seat<B>) -> (u64, Vec<u8>) {
    let version = seat.look().expect(rt, "a version");
    let text = export(alloc, &version.document).expect(rt, "memory");
    (version.number, text)
}
