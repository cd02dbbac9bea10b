//! The damage of the last changes.
use crate::asserts::equal;
use crate::lines::seats::{Play, accept, at_a_line, rectangle, seen};
use canvas_doc::{Document, Edit};
use canvas_line::{Damage, Lines, Seat};
use canvas_plane::PageBox;
use std::alloc::Global;
use std::process::Abort;
use std::sync::Wait;

// The damage of the change that an edit makes of a document.
fn area_of<R: Abort>(rt: &R, alloc: Global, document: &Document, edit: &Edit) -> PageBox {
    let change = document
        .decide(alloc, edit)
        .expect(rt, "an edit that is accepted");
    document.damage(&change)
}

// The damage of the change that an edit makes of the document that a seat sees, which is then edited.
fn area_made<B: Lines, R: Wait + Abort>(
    rt: &R,
    alloc: Global,
    seat: &mut Seat<B>,
    edit: Edit,
) -> PageBox {
    let before = seen(seat).expect(rt, "a version");
    let area = area_of(rt, alloc, &before.document, &edit);
    accept(rt, seat, edit);
    area
}

// Makes so many rectangles, each one pixel to the right of the one before. Answers the damage of each.
fn damage_of<B: Lines, R: Wait + Abort>(
    rt: &R,
    alloc: Global,
    seat: &mut Seat<B>,
    count: u32,
) -> Vec<Damage> {
    let mut all = Vec::new(alloc);
    for before in 0..count {
        let edit = rectangle(1, 1, i64::from(before));
        let area = area_made(rt, alloc, seat, edit);
        let number = u64::from(before).wrapping_add(1);
        all.push(Damage { number, area }).expect(rt, "memory");
    }
    all
}

// Asserts that the version that a seat sees tells of this damage.
fn check_told<B: Lines, R: Abort>(rt: &R, alloc: Global, seat: &mut Seat<B>, wanted: &[Damage]) {
    let version = seen(seat).expect(rt, "a version");
    let (older, newer) = version.recent.as_slices();
    let mut told = Vec::from_slice(alloc, older).expect(rt, "memory");
    told.extend_from_slice(newer).expect(rt, "memory");
    equal(rt, "the damage", &told.as_slice(), &wanted);
    equal(rt, "its length", &version.recent.len(), &wanted.len());
}

/// Each of three changes is told of.
struct Three;

impl Play for Three {
    fn play<B: Lines, R: Wait + Abort>(rt: &R, alloc: Global, seat: &mut Seat<B>) {
        check_told(rt, alloc, seat, &[]);
        let damage = damage_of(rt, alloc, seat, 3);
        check_told(rt, alloc, seat, &damage);
    }
}

#[test]
fn a_version_tells_of_each_of_three_changes(rt: HostRuntime) {
    let document = Document::empty(rt.alloc());
    at_a_line::<Three, _>(&rt, rt.alloc(), document, 10);
}

/// Of seventy changes the first six are left out.
struct Seventy;

impl Play for Seventy {
    fn play<B: Lines, R: Wait + Abort>(rt: &R, alloc: Global, seat: &mut Seat<B>) {
        let damage = damage_of(rt, alloc, seat, 70);
        let last = damage.get(6..).expect(rt, "more than six changes");
        equal(rt, "the changes told of", &last.len(), &64);
        check_told(rt, alloc, seat, last);
    }
}

#[test]
fn a_version_tells_of_the_last_64_of_70_changes(rt: HostRuntime) {
    let document = Document::empty(rt.alloc());
    at_a_line::<Seventy, _>(&rt, rt.alloc(), document, 100);
}
