//! Worked examples.
ghost use Rattle.std.specs.Prelude.{◌≡◌};

use crate::asserts::equal;
use crate::lines::seats::{
    Play, accept, at_a_line, check_red, edited, only, rectangle, refuse, seen,
};
use canvas_doc::{Document, Edit, Refusal};
use canvas_line::{Edited, Line, LineFault, Lines, Opened, Seat};
use std::alloc::Global;
use std::marker::Brand;
use std::process::Abort;
use std::sync::Wait;
use std::thread::{Threads, join};

#[test]
fn a_seat_sees_the_edit_of_one_that_it_met(rt: HostRuntime) {
    let document = Document::empty(rt.alloc());
    meeting::<Brand, _>(&rt, rt.alloc(), Opened::new(), document);
}

// A seat edits on one thread, meets another, and that one looks on another thread.
fn meeting<B: Lines + Send + Sync, R: Threads + Wait + Abort + Sync>(
    rt: &R,
    alloc: Global,
    opened: Opened,
    document: Document,
)
    requires { B.line 1 ≡ record { book = opened.head.word.book; opening = document; limit = 10 } }
{
    let seats = Line::open::<B, R>(rt, alloc, opened, 1, document, 2, 10).expect(rt, "a line");
    let (a, mut b) = both(rt, seats);
    let mut a = edit_beside(rt, a, &b);
    a.meet(rt, &mut b).expect(rt, "a seat of the same line");
    let b = look_beside(rt, b, &a);
    equal(rt, "both numbers", &(a.number(), b.number()), &(1, 1));
}

// The two seats of a line.
fn both<B: Lines, R: Abort>(rt: &R, mut seats: Vec<Seat<B>>) -> (Seat<B>, Seat<B>) {
    let b = seats.pop().expect(rt, "a seat");
    (only(rt, seats), b)
}

// Edits through the first seat on another thread, while the second one tells its number.
fn edit_beside<B: Lines + Send + Sync, R: Threads + Wait + Abort + Sync>(
    rt: &R,
    mut a: Seat<B>,
    b: &Seat<B>,
) -> Seat<B> {
    let edit = rectangle(1, 1, 0);
    let ((a, answer), before) = join(
        rt,
        || {
            let answer = edited(rt, &mut a, &edit);
            (a, answer)
        },
        || b.number(),
    );
    equal(rt, "the number of one that looks on", &before, &0);
    let (number, id) = (1, Some(1));
    equal(rt, "the answer", &answer, &Ok(Edited { number, id }));
    a
}

// Looks through the first seat on another thread, while the second one tells its number.
fn look_beside<B: Lines + Send + Sync, R: Threads + Wait + Abort + Sync>(
    rt: &R,
    mut b: Seat<B>,
    a: &Seat<B>,
) -> Seat<B> {
    let ((b, version), number) = join(
        rt,
        || {
            let version = seen(&mut b);
            (b, version)
        },
        || a.number(),
    );
    equal(rt, "the number of one that looks on", &number, &1);
    check_red(rt, version, 1);
    b
}

// The number of the version that a seat sees.
fn number_seen<B: Lines, R: Abort>(rt: &R, seat: &mut Seat<B>) -> u64 {
    seen(seat).expect(rt, "a version").number
}

/// A line accepts no more than its limit.
struct Spending;

impl Play for Spending {
    fn play<B: Lines, R: Wait + Abort>(rt: &R, _alloc: Global, seat: &mut Seat<B>) {
        accept(rt, seat, rectangle(1, 1, 0));
        accept(rt, seat, rectangle(1, 1, 1));
        refuse(rt, seat, Edit::Delete { id: 9 }, LineFault::VersionsSpent);
        refuse(rt, seat, rectangle(1, 1, 2), LineFault::VersionsSpent);
        equal(rt, "the seat's number", &seat.number(), &2);
        equal(rt, "the version's number", &number_seen(rt, seat), &2);
    }
}

#[test]
fn a_line_accepts_no_more_than_its_limit(rt: HostRuntime) {
    let document = Document::empty(rt.alloc());
    at_a_line::<Spending, _>(&rt, rt.alloc(), document, 2);
}

#[test]
fn seats_that_never_met_go_on_by_themselves(rt: HostRuntime) {
    let document = Document::empty(rt.alloc());
    apart::<Brand, _>(&rt, rt.alloc(), Opened::new(), document);
}

// Of three seats that never met, each goes on by its own edits and looks alone.
fn apart<B: Lines, R: Wait + Abort>(rt: &R, alloc: Global, opened: Opened, document: Document)
    requires { B.line 1 ≡ record { book = opened.head.word.book; opening = document; limit = 10 } }
{
    let seats = Line::open::<B, R>(rt, alloc, opened, 1, document, 3, 10);
    let mut seats = seats.expect(rt, "a line");
    let mut c = seats.pop().expect(rt, "a seat");
    let (mut a, mut b) = both(rt, seats);
    check_apart(rt, &mut a, &mut b, &mut c);
    a.close(rt);
    b.close(rt);
    c.close(rt);
}

fn check_apart<B: Lines, R: Wait + Abort>(
    rt: &R,
    a: &mut Seat<B>,
    b: &mut Seat<B>,
    c: &mut Seat<B>,
) {
    accept(rt, a, rectangle(1, 1, 0));
    let missing = LineFault::Refused(Refusal::NoSuchShape);
    refuse(rt, b, Edit::Delete { id: 9 }, missing);
    equal(rt, "after b's edit", &(b.number(), c.number()), &(1, 0));
    equal(rt, "what c sees", &number_seen(rt, c), &1);
    accept(rt, a, rectangle(1, 1, 1));
    equal(rt, "what c sees then", &number_seen(rt, c), &2);
    equal(rt, "b's number", &b.number(), &1);
}
