//! Settings of a line, and seats of two lines.
ghost use Rattle.std.specs.Prelude.{◌≡◌};

use crate::asserts::equal;
use crate::lines::seats::{accept, only, rectangle};
use canvas_code::Coded;
use canvas_doc::Document;
use canvas_line::{Line, LineFault, Lines, Opened, Seat};
use std::alloc::Global;
use std::marker::Brand;
use std::process::Abort;
use std::sync::Wait;

#[test]
fn settings_outside_the_ranges(rt: HostRuntime) {
    let bad = Some(LineFault::BadSetting);
    for (seats, limit, wanted) in [
        (0, 1, bad),
        (65, 1, bad),
        (u32::MAX, 1, bad),
        (1, 0, bad),
        (1, 1_000_001, bad),
        (1, u64::MAX, bad),
        (0, 0, bad),
        (1, 1, None),
        (64, 1_000_000, None),
    ] {
        let found = (seats, limit, fault_of(&rt, rt.alloc(), seats, limit));
        equal(&rt, "seats, limit, fault", &found, &(seats, limit, wanted));
    }
}

// Why such a line is not opened, if it is not.
fn fault_of<R: Wait + Abort>(rt: &R, alloc: Global, seats: u32, limit: u64) -> Option<LineFault> {
    let document = Document::empty(alloc);
    refused::<Brand, R>(rt, alloc, Opened::new(), document, seats, limit)
}

fn refused<B: Lines, R: Wait + Abort>(
    rt: &R,
    alloc: Global,
    opened: Opened,
    document: Document,
    seats: u32,
    limit: u64,
) -> Option<LineFault>
    requires { B.line 1
        ≡ record { book = opened.head.word.book; opening = document; limit = limit } }
{
    match Line::open::<B, R>(rt, alloc, opened, 1, document, seats, limit) {
        Ok(all) => {
            close_all(rt, all, seats);
            None
        }
        Err(fault) => Some(fault),
    }
}

// Closes the seats of a line, of which there are to be so many.
fn close_all<B: Lines, R: Wait + Abort>(rt: &R, all: Vec<Seat<B>>, seats: u32) {
    equal(rt, "seats", &all.len(), &(seats as usize));
    for seat in all {
        equal(rt, "a seat's number", &seat.number(), &0);
        seat.close(rt);
    }
}

#[test]
fn seats_of_two_lines_are_strangers(rt: HostRuntime) {
    let alloc = rt.alloc();
    let one = Document::empty(alloc);
    let two = Document::empty(alloc);
    apart::<Brand, _>(&rt, alloc, Opened::new(), one, Opened::new(), two);
}

fn apart<B: Lines, R: Wait + Abort>(
    rt: &R,
    alloc: Global,
    first: Opened,
    one: Document,
    second: Opened,
    two: Document,
)
    requires first { B.line 3 ≡ record { book = first.head.word.book; opening = one; limit = 10 } }
    requires second { B.line 7
        ≡ record { book = second.head.word.book; opening = two; limit = 10 } }
{
    let threes = Line::open::<B, R>(rt, alloc, first, 3, one, 1, 10).expect(rt, "a line");
    let sevens = Line::open::<B, R>(rt, alloc, second, 7, two, 1, 10).expect(rt, "a line");
    let mut three = only(rt, threes);
    let mut seven = only(rt, sevens);
    check_strangers(rt, &mut three, &mut seven, (0, 0));
    accept(rt, &mut three, rectangle(1, 1, 0));
    check_strangers(rt, &mut three, &mut seven, (1, 0));
    accept(rt, &mut seven, rectangle(1, 1, 0));
    accept(rt, &mut seven, rectangle(1, 1, 0));
    check_strangers(rt, &mut three, &mut seven, (1, 2));
}

// Asserts that a seat of line 3 and one of line 7 do not meet, in either order, and that their
// fronts stay so long.
fn check_strangers<B: Lines, R: Wait + Abort>(
    rt: &R,
    three: &mut Seat<B>,
    seven: &mut Seat<B>,
    numbers: (u64, u64),
) {
    let first = LineFault::Strangers { own: 3, found: 7 };
    let second = LineFault::Strangers { own: 7, found: 3 };
    equal(rt, "seats that met", &met(rt, three, seven), &Err(first));
    equal(rt, "seats that met", &met(rt, seven, three), &Err(second));
    equal(rt, "its code", &first.code(), &18);
    let found = (three.number(), seven.number());
    equal(rt, "the numbers", &found, &numbers);
}

fn met<B: Lines, R: Wait>(rt: &R, one: &mut Seat<B>, other: &mut Seat<B>) -> Result<(), LineFault> {
    one.meet(rt, other)
}
