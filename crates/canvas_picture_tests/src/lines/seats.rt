//! Lines for tests, and edits.
ghost use Rattle.std.specs.Prelude.{◌≡◌};

use crate::asserts::{equal, holds};
use canvas_doc::{Document, Edit, Parent, Spot};
use canvas_line::{Edited, Line, LineFault, Lines, Opened, Seat, Version};
use canvas_plane::Pose;
use canvas_shape::{Colour, Kind};
use std::alloc::Global;
use std::marker::Brand;
use std::process::Abort;
use std::sync::{Arc, Wait};

pub(crate) const RED: Colour = Colour([255, 0, 0]);

/// What a test does with the only seat of a line.
pub(crate) trait Play {
    /// Plays it with the seat of a line that was just opened.
    fn play<B: Lines, R: Wait + Abort>(rt: &R, alloc: Global, seat: &mut Seat<B>);
}

/// Plays at a line of its own, which accepts so many changes.
pub(crate) fn at_a_line<P: Play, R: Wait + Abort>(
    rt: &R,
    alloc: Global,
    document: Document,
    limit: u64,
) {
    opened::<Brand, P, R>(rt, alloc, Opened::new(), document, limit);
}

fn opened<B: Lines, P: Play, R: Wait + Abort>(
    rt: &R,
    alloc: Global,
    opened: Opened,
    document: Document,
    limit: u64,
)
    requires { B.line 1
        ≡ record { book = opened.head.word.book; opening = document; limit = limit } }
{
    let seats = Line::open::<B, R>(rt, alloc, opened, 1, document, 1, limit);
    let mut seat = only(rt, seats.expect(rt, "a line"));
    P::play(rt, alloc, &mut seat);
}

/// The only seat of a line.
pub(crate) fn only<B: Lines, R: Abort>(rt: &R, mut seats: Vec<Seat<B>>) -> Seat<B> {
    equal(rt, "seats", &seats.len(), &1);
    seats.pop().expect(rt, "a seat")
}

/// The edit that puts a rectangle in front of all on the page.
pub(crate) fn rectangle(w: u32, h: u32, dx: i64) -> Edit {
    create(
        Kind::Rect { w, h, fill: RED },
        dx,
        Parent::Page,
        Spot::Front,
    )
}

/// The edit that makes a shape.
pub(crate) fn create(kind: Kind, dx: i64, parent: Parent, spot: Spot) -> Edit {
    let pose = Pose {
        dx,
        dy: 0,
        quarter: 0,
        flip: false,
    };
    Edit::Create {
        kind,
        pose,
        hidden: false,
        parent,
        spot,
    }
}

/// What an edit through a seat gives. (Calls of this and of `seen` tell a proof nothing, which
/// keeps tests quick to prove.)
pub(crate) fn edited<B: Lines, R: Wait>(
    rt: &R,
    seat: &mut Seat<B>,
    edit: &Edit,
) -> Result<Edited, LineFault> {
    seat.edit(rt, edit)
}

/// Makes an edit that is to be accepted.
pub(crate) fn accept<B: Lines, R: Wait + Abort>(rt: &R, seat: &mut Seat<B>, edit: Edit) {
    edited(rt, seat, &edit).expect(rt, "an edit that is accepted");
}

/// Makes an edit that is to be refused so.
pub(crate) fn refuse<B: Lines, R: Wait + Abort>(
    rt: &R,
    seat: &mut Seat<B>,
    edit: Edit,
    why: LineFault,
) {
    equal(rt, "a refusal", &edited(rt, seat, &edit), &Err(why));
}

/// The version that a seat sees.
pub(crate) fn seen<B: Lines>(seat: &mut Seat<B>) -> Result<Arc<Version, Global>, LineFault> {
    seat.look()
}

/// Asserts that a version has such a number, and a red pixel at the origin.
pub(crate) fn check_red<R: Abort>(
    rt: &R,
    version: Result<Arc<Version, Global>, LineFault>,
    number: u64,
) {
    let version = version.expect(rt, "a version");
    equal(rt, "the version's number", &version.number, &number);
    holds(rt, "a red pixel", version.document.colour_at(0, 0) == RED);
}
