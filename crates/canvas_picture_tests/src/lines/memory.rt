//! Want of memory. Run with each allocation failing in turn.
ghost use Rattle.std.specs.Prelude.{◌≡◌};

use crate::asserts::equal;
use crate::lines::seats::{edited, only, rectangle, seen};
use canvas_doc::Document;
use canvas_line::{Edited, Line, LineFault, Lines, Opened, Seat};
use std::alloc::Global;
use std::marker::Brand;
use std::process::Abort;
use std::sync::Wait;
use std::test::Fail;

// Asserts that a seat has such a number, and sees such a version with as many shapes.
fn check_at<B: Lines, R: Abort>(rt: &R, seat: &mut Seat<B>, number: u64) {
    equal(rt, "the seat's number", &seat.number(), &number);
    let version = seen(seat).expect(rt, "a version");
    equal(rt, "the version's number", &version.number, &number);
    let count = version.document.count() as u64;
    equal(rt, "its shapes", &count, &number);
}

// Makes an edit, and makes it again if it was refused. The seat's number and its version stay until
// it is accepted.
fn made<B: Lines, R: Wait + Abort>(
    rt: &R,
    seat: &mut Seat<B>,
    before: u64,
) -> Result<Edited, LineFault> {
    let edit = rectangle(1, 1, 0);
    match edited(rt, seat, &edit) {
        Err(LineFault::OutOfMemory | LineFault::NoView) => {
            check_at(rt, seat, before);
            Ok(edited(rt, seat, &edit).expect(rt, "an edit made again"))
        }
        outcome => outcome,
    }
}

// Three edits, each of which is made again where it wanted memory.
fn again<B: Lines, R: Wait + Abort>(rt: &R, seat: &mut Seat<B>) -> Result<(), Fail> {
    for before in 0..3u64 {
        let (number, id) = (before + 1, Some(before as u32 + 1));
        let made = made(rt, seat, before)?;
        equal(rt, "the answer", &made, &Edited { number, id });
    }
    let count = seen(seat)?.document.count();
    equal(rt, "shapes", &count, &3);
    Ok(())
}

fn at_a_line<B: Lines, R: Wait + Abort>(
    rt: &R,
    alloc: Global,
    opened: Opened,
    document: Document,
) -> Result<(), Fail>
    requires { B.line 1 ≡ record { book = opened.head.word.book; opening = document; limit = 10 } }
{
    let seats = Line::open::<B, R>(rt, alloc, opened, 1, document, 1, 10)?;
    again(rt, &mut only(rt, seats))
}

// An edit that wanted memory, or whose seat was not let in, published nothing, and is made again.
#[test]
fn an_edit_that_wanted_memory_is_made_again(rt: HostRuntime) -> Result<(), Fail> {
    let document = Document::empty(rt.alloc());
    at_a_line::<Brand, _>(&rt, rt.alloc(), Opened::new(), document)
}
