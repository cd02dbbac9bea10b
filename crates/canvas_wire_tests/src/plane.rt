//! Worked poses, windows and boxes.

use crate::asserts::{holds, holds_at};
use canvas_plane::{PageBox, Point, Pose, Window};
use std::process::Abort;

fn at(x: i64, y: i64) -> Point {
    Point { x, y }
}

fn pose(dx: i64, dy: i64, quarter: u8, flip: bool) -> Pose {
    Pose {
        dx,
        dy,
        quarter,
        flip,
    }
}

fn page_box(left: i64, top: i64, right: i64, bottom: i64) -> PageBox {
    PageBox {
        left,
        top,
        right,
        bottom,
    }
}

#[test]
fn poses_follow_one_another(rt: HostRuntime) {
    let a = Pose {
        dx: 3,
        dy: 0,
        quarter: 1,
        flip: false,
    };
    let b = Pose {
        dx: 0,
        dy: 0,
        quarter: 0,
        flip: true,
    };
    let point = Point { x: 1, y: 0 };
    let both = a.then(&b);
    holds(&rt, "turned point", a.apply(point) == at(3, 1));
    holds(&rt, "both", both == pose(-3, 0, 3, true));
    holds(&rt, "inverse", a.inverse() == pose(0, 3, 3, false));
    holds(&rt, "reach", both.reach() == 3);
    holds(&rt, "point of both", both.apply(point) == at(-3, 1));
}

#[test]
fn flips_come_before_turns(rt: HostRuntime) {
    let turned = Pose {
        dx: 0,
        dy: 0,
        quarter: 1,
        flip: true,
    };
    let point = Point { x: 1, y: 0 };
    holds(&rt, "point", turned.apply(point) == at(0, -1));
    holds(&rt, "inverse", turned.inverse() == turned);
}

#[test]
fn windows_have_their_place(rt: HostRuntime) {
    let tile = Window::tile(-1, 2).expect(&rt, "a tile");
    let sides = (tile.x(), tile.y(), tile.w(), tile.h());
    holds(&rt, "sides", sides == (-256, 512, 256, 256));
    holds(&rt, "box", tile.covered() == page_box(-256, 512, 0, 768));
}

#[test]
fn windows_of_levels_cover_a_box(rt: HostRuntime) {
    let window = Window::at_level(3, -1, 2, 2, 5).expect(&rt, "a window");
    holds(&rt, "level", window.level() == 3);
    let sides = (window.x(), window.y(), window.w(), window.h());
    holds(&rt, "sides", sides == (-1, 2, 2, 5));
    holds(&rt, "box", window.covered() == page_box(-8, 16, 8, 56));
    let rows = (window.row_shown(0), window.row_shown(4));
    holds(&rt, "first and last row", rows == (16, 48));
}

// Edges of the page, and how many columns lie before each.
const COLUMNS: [(i64, usize); 7] = [
    (i64::MIN, 0),
    (-8, 0),
    (-7, 1),
    (0, 1),
    (1, 2),
    (8, 2),
    (i64::MAX, 2),
];

// The same for rows.
const ROWS: [(i64, usize); 4] = [(16, 0), (17, 1), (48, 4), (49, 5)];

#[test]
fn windows_count_places_before_an_edge(rt: HostRuntime) {
    let window = Window::at_level(3, -1, 2, 2, 5).expect(&rt, "a window");
    for (edge, count) in &COLUMNS {
        holds_at(
            &rt,
            "columns before",
            *edge,
            window.columns_before(*edge) == *count,
        );
    }
    for (edge, count) in &ROWS {
        holds_at(
            &rt,
            "rows before",
            *edge,
            window.rows_before(*edge) == *count,
        );
    }
}

// Points at the corners of the box from (0, 0) to (4, 2), and whether it has each.
const CORNERS: [(&str, i64, i64, bool); 3] = [
    ("its corner", 0, 0, true),
    ("behind", 4, 0, false),
    ("below", 0, 2, false),
];

#[test]
fn boxes_meet_and_join(rt: HostRuntime) {
    let a = page_box(0, 0, 4, 2);
    let b = page_box(3, -1, 9, 1);
    holds(&rt, "meet", a.meet(&b) == page_box(3, 0, 4, 1));
    holds(&rt, "hull", a.hull(&b) == page_box(0, -1, 9, 2));
    assert_held(&rt, &a, &CORNERS);
}

#[test]
fn empty_boxes_add_nothing(rt: HostRuntime) {
    let some = page_box(0, 0, 4, 2);
    let empty = page_box(100, 7, 100, 90);
    holds(&rt, "empty", empty.is_empty());
    holds(&rt, "with none", some.hull(&empty) == some);
    holds(&rt, "of none", empty.hull(&some) == some);
    holds(&rt, "two of none", empty.hull(&empty) == PageBox::EMPTY);
}

// Ends the test unless a box has just those of some points that it should.
fn assert_held(rt: &impl Abort, page_box: &PageBox, points: &[(&str, i64, i64, bool)]) {
    for (what, x, y, is_held) in points {
        holds(rt, what, page_box.holds(*x, *y) == *is_held);
    }
}

// Ways of poses, and the reach of each.
const REACHES: [(&str, i64, i64, u64); 8] = [
    ("0 0", 0, 0, 0),
    ("3 2", 3, 2, 3),
    ("2 3", 2, 3, 3),
    ("-3 2", -3, 2, 3),
    ("2 -3", 2, -3, 3),
    ("-3 -3", -3, -3, 3),
    ("least", i64::MIN, 0, 9_223_372_036_854_775_808),
    ("most", 0, i64::MAX, 9_223_372_036_854_775_807),
];

// The poses are turned and flipped, which no reach heeds.
#[test]
fn reach_is_the_greater_size(rt: HostRuntime) {
    for (what, dx, dy, reach) in &REACHES {
        holds(&rt, what, pose(*dx, *dy, 3, true).reach() == *reach);
    }
}

// Points, and whether the box from (-1, 2) to (1, 4) has each.
const POINTS: [(&str, i64, i64, bool); 9] = [
    ("-1 2", -1, 2, true),
    ("0 2", 0, 2, true),
    ("-1 3", -1, 3, true),
    ("0 3", 0, 3, true),
    ("-2 2", -2, 2, false),
    ("1 2", 1, 2, false),
    ("-1 1", -1, 1, false),
    ("-1 4", -1, 4, false),
    ("1 4", 1, 4, false),
];

#[test]
fn boxes_hold_their_left_and_top_edges(rt: HostRuntime) {
    assert_held(&rt, &page_box(-1, 2, 1, 4), &POINTS);
    holds(&rt, "empty", !PageBox::EMPTY.holds(0, 0));
}
