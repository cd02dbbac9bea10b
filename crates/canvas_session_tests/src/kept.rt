//! Kept pictures: which are answered again, and that each is the picture of the version that it names.

ghost use denote.Param.Send.{IsSync};

use crate::asserts::{equal, holds, holds_at};
use crate::boards::{RED, at, square};
use crate::table::{Play, Table, play_at};
use canvas_board::Board;
use canvas_code::Coded;
use canvas_doc::{Document, Edit, Parent, Spot};
use canvas_line::Lines;
use canvas_plane::{Pose, Window};
use canvas_shape::Kind;
use std::alloc::Global;
use std::process::Abort;
use std::sync::Wait;
use std::thread::Threads;

/// An edit of a row.
#[derive(Clone, Copy)]
enum Act {
    Square { side: u32, dx: i64 },
    HiddenSquare,
    Group,
    Pose { dx: i64 },
    Show { hidden: bool },
    Delete { id: u32 },
    Respace,
}

// A square of ten at the page's origin.
const TEN: Act = Act::Square { side: 10, dx: 0 };

// A square that no window meets.
const FAR: Act = Act::Square { side: 1, dx: 500 };

/// An edit before a picture of 16 by 16 at the page's origin, one that is made so often between it
/// and the next picture of the same window, and how many of the two are answered as kept.
type Row = (Act, Act, u32, u64);

/// Two pictures with edits of one board between them.
#[derive(Clone, Copy)]
struct Twice<'a> {
    row: &'a Row,
    by_viewer: bool,
}

impl Play for Twice<'_> {
    fn play<B: Lines, H: Threads + Wait + Abort + Sync>(&self, rt: &H, table: &mut Table<B>) {
        let window = window_at(rt, 0, 0);
        let (before, between, times, hits) = *self.row;
        table.check_edit(rt, self.by_viewer, edit_of(before));
        let is_shown = table.shows_version(rt, &window, 1);
        holds(rt, "the first version", is_shown);
        let edit = edit_of(between);
        let mut version: u64 = 1;
        for _ in 0..times {
            let is_made = table.edits(rt, self.by_viewer, &edit);
            version = version.saturating_add(is_made as u64);
        }
        let is_shown = table.shows_version(rt, &window, version);
        holds_at(rt, "version", version, is_shown);
        table.check_hits(rt, version, hits);
    }
}

// Plays rows, of which the viewer and then the editor makes the edits.
fn play_rows<H: Threads + Wait + Abort + Sync>(rt: &H, alloc: Global, keep: u32, rows: &[Row])
    requires { IsSync H.row }
{
    for row in rows {
        play_row(rt, alloc, keep, row, true);
        play_row(rt, alloc, keep, row, false);
    }
}

fn play_row<H: Threads + Wait + Abort + Sync>(
    rt: &H,
    alloc: Global,
    keep: u32,
    row: &Row,
    by_viewer: bool,
)
    requires { IsSync H.row }
{
    let play = Twice { row, by_viewer };
    play_at(rt, alloc, Document::empty(alloc), keep, &play)
}

// A window of 16 by 16.
fn window_at(rt: &impl Abort, x: i32, y: i32) -> Window {
    window_of(rt, 0, x, y, 16)
}

// A window of a level, as wide as high.
fn window_of(rt: &impl Abort, level: u8, x: i32, y: i32, side: u32) -> Window {
    Window::at_level(level, x, y, side, side).expect(rt, "a window")
}

fn edit_of(act: Act) -> Edit {
    match act {
        Act::Square { side, dx } => square(side, dx),
        Act::HiddenSquare => hidden_square(),
        Act::Group => group(),
        Act::Pose { dx } => Edit::Pose {
            id: 1,
            pose: at(dx),
        },
        Act::Show { hidden } => Edit::Show { id: 1, hidden },
        Act::Delete { id } => Edit::Delete { id },
        Act::Respace => Edit::Respace {
            parent: Parent::Page,
        },
    }
}

fn group() -> Edit {
    Edit::Create {
        kind: Kind::Group,
        pose: Pose::STILL,
        hidden: false,
        parent: Parent::Page,
        spot: Spot::Front,
    }
}

fn hidden_square() -> Edit {
    Edit::Create {
        kind: Kind::Rect {
            w: 10,
            h: 10,
            fill: RED,
        },
        pose: Pose::STILL,
        hidden: true,
        parent: Parent::Page,
        spot: Spot::Front,
    }
}

#[test]
fn a_picture_is_answered_again_where_no_change_meets_it(rt: HostRuntime) {
    let rows = &[
        (TEN, FAR, 1, 1),
        (TEN, FAR, 64, 1),
        (TEN, Act::Square { side: 10, dx: 16 }, 1, 1),
        (TEN, Act::Square { side: 10, dx: -10 }, 1, 1),
        (
            Act::Square { side: 10, dx: 500 },
            Act::Pose { dx: 600 },
            1,
            1,
        ),
        (
            Act::Square { side: 10, dx: 500 },
            Act::Delete { id: 1 },
            1,
            1,
        ),
        (TEN, Act::Group, 3, 1),
        (TEN, Act::Respace, 2, 1),
        // refused
        (TEN, Act::Delete { id: 9 }, 70, 1),
        (TEN, Act::Group, 0, 1),
    ];
    play_rows(&rt, rt.alloc(), 4, rows)
}

#[test]
fn a_picture_that_a_change_meets_is_painted_anew(rt: HostRuntime) {
    let rows = &[
        (TEN, Act::Square { side: 2, dx: 3 }, 1, 0),
        (TEN, Act::Square { side: 10, dx: 15 }, 1, 0),
        (TEN, Act::Square { side: 10, dx: -9 }, 1, 0),
        (TEN, Act::Pose { dx: 100 }, 1, 0),
        (Act::Square { side: 10, dx: 100 }, Act::Pose { dx: 0 }, 1, 0),
        (TEN, Act::Delete { id: 1 }, 1, 0),
        (Act::HiddenSquare, Act::Show { hidden: false }, 1, 0),
        (TEN, Act::Show { hidden: true }, 1, 0),
        (TEN, FAR, 65, 0),
        (TEN, Act::Group, 65, 0),
    ];
    play_rows(&rt, rt.alloc(), 4, rows)
}

#[test]
fn a_board_that_keeps_none_paints_each_picture(rt: HostRuntime) {
    let rows = &[(TEN, FAR, 1, 0), (TEN, Act::Group, 0, 0)];
    play_rows(&rt, rt.alloc(), 0, rows)
}

/// So many windows asked in turn, three times over, and how many pictures are answered as kept.
#[derive(Clone, Copy)]
struct InTurn {
    windows: i32,
    hits: u64,
}

impl Play for InTurn {
    fn play<B: Lines, H: Threads + Wait + Abort + Sync>(&self, rt: &H, table: &mut Table<B>) {
        table.check_edit(rt, false, square(10, 4));
        for _ in 0..3u32 {
            for number in 0..self.windows {
                let window = window_at(rt, number, 0);
                holds(rt, "a picture", table.shows(rt, &window));
            }
        }
        table.check_hits(rt, 1, self.hits);
    }
}

#[test]
fn as_many_windows_as_are_kept(rt: HostRuntime) {
    let alloc = rt.alloc();
    for (keep, windows, hits) in &[
        (0, 1, 0),
        (1, 1, 2),
        (1, 2, 0),
        (2, 2, 4),
        (4, 5, 0),
        (256, 9, 18),
    ] {
        let play = InTurn {
            windows: *windows,
            hits: *hits,
        };
        play_at(&rt, alloc, Document::empty(alloc), *keep, &play);
    }
}

/// A picture of 2 by 2 pixels that lie 8 apart, after changes beside them, between them and at one of them.
#[derive(Clone, Copy)]
struct OfALevel;

impl Play for OfALevel {
    fn play<B: Lines, H: Threads + Wait + Abort + Sync>(&self, rt: &H, table: &mut Table<B>) {
        let window = window_of(rt, 3, 0, 0, 2);
        // Each edit makes a version, whose picture is all red, by so many answers as kept.
        let found = red_after(rt, table, &window, square(10, 0), 1);
        equal(rt, "a first square", &found, &(true, true, 0));
        let found = red_after(rt, table, &window, square(1, 20), 2);
        equal(rt, "beside them", &found, &(true, true, 1));
        let found = red_after(rt, table, &window, dot(15, 15), 3);
        equal(rt, "between them", &found, &(true, true, 1));
        let found = red_after(rt, table, &window, dot(16, 0), 4);
        equal(rt, "at their right", &found, &(true, true, 2));
        let found = red_after(rt, table, &window, dot(0, -1), 5);
        equal(rt, "above them", &found, &(true, true, 3));
    }
}

// Whether an edit is made, whether the picture of its version is all red, and how many are answered
// as kept then.
fn red_after<B: Lines, H: Threads + Wait + Sync>(
    rt: &H,
    table: &mut Table<B>,
    window: &Window,
    edit: Edit,
    version: u64,
) -> (bool, bool, u64)
    requires { IsSync H.row }
{
    let is_made = table.edits(rt, false, &edit);
    let is_red = shows_red(rt, table, window, version);
    (is_made, is_red, table.viewer.hits())
}

// Whether the picture of 2 by 2 pixels is all red, and one of such a version.
fn shows_red<B: Lines, H: Threads + Wait + Sync>(
    rt: &H,
    table: &mut Table<B>,
    window: &Window,
    version: u64,
) -> bool
    requires { IsSync H.row }
{
    let red = b"P6\n2 2\n255\n\xff\0\0\xff\0\0\xff\0\0\xff\0\0".as_slice();
    match table.picture(rt, window) {
        Some(picture) => picture.version == version && picture.bytes.as_slice() == red,
        None => false,
    }
}

// A red square of one pixel in front of all others on the page.
fn dot(dx: i64, dy: i64) -> Edit {
    Edit::Create {
        kind: Kind::Rect {
            w: 1,
            h: 1,
            fill: RED,
        },
        pose: Pose {
            dx,
            dy,
            quarter: 0,
            flip: false,
        },
        hidden: false,
        parent: Parent::Page,
        spot: Spot::Front,
    }
}

#[test]
fn pictures_of_a_level_are_kept(rt: HostRuntime) {
    let alloc = rt.alloc();
    play_at(&rt, alloc, Document::empty(alloc), 4, &OfALevel)
}

/// Windows of all levels at one place of as many pixels: the picture of each is kept beside the others.
#[derive(Clone, Copy)]
struct AtEachLevel;

impl Play for AtEachLevel {
    fn play<B: Lines, H: Threads + Wait + Abort + Sync>(&self, rt: &H, table: &mut Table<B>) {
        table.check_edit(rt, false, square(10, 4));
        for number in 0..14u8 {
            let window = window_of(rt, number % 7, 0, 0, 16);
            holds_at(rt, "picture", number.into(), table.shows(rt, &window));
        }
        table.check_hits(rt, 1, 7);
        table.check_edit(rt, false, square(1, 16));
        for level in 0..7u8 {
            let window = window_of(rt, level, 0, 0, 16);
            holds_at(rt, "level", level.into(), table.shows(rt, &window));
        }
        table.check_hits(rt, 2, 8);
    }
}

#[test]
fn levels_are_kept_apart(rt: HostRuntime) {
    let alloc = rt.alloc();
    play_at(&rt, alloc, Document::empty(alloc), 7, &AtEachLevel)
}

/// Pictures asked after some changes elsewhere each: what is answered again counts as kept then.
#[derive(Clone, Copy)]
struct KeptOn;

impl Play for KeptOn {
    fn play<B: Lines, H: Threads + Wait + Abort + Sync>(&self, rt: &H, table: &mut Table<B>) {
        let window = window_at(rt, 0, 0);
        let mut hits: u64 = 0;
        for changes in &[1u64, 64, 64, 40, 64, 65, 64] {
            let changes = *changes;
            for _ in 0..changes {
                table.check_edit(rt, false, square(1, 500));
            }
            holds_at(rt, "after", changes, table.shows(rt, &window));
            let is_kept = changes != 1 && changes != 65;
            hits = hits.saturating_add(is_kept as u64);
            holds_at(rt, "hits after", changes, table.viewer.hits() == hits);
        }
    }
}

#[test]
fn what_is_answered_again_counts_as_kept_then(rt: HostRuntime) {
    let alloc = rt.alloc();
    play_at(&rt, alloc, Document::empty(alloc), 1, &KeptOn)
}

/// Pictures of two windows in turn, asked for after some changes elsewhere each: that one of them
/// was asked for between does not make the other last for more changes.
#[derive(Clone, Copy)]
struct OtherBetween;

impl Play for OtherBetween {
    fn play<B: Lines, H: Threads + Wait + Abort + Sync>(&self, rt: &H, table: &mut Table<B>) {
        for wanted in &[
            (1u64, 0, 0),
            (40, 64, 0),
            (40, 0, 0),
            (40, 64, 0),
            (24, 0, 1),
        ] {
            let (changes, y, hits) = *wanted;
            for _ in 0..changes {
                table.check_edit(rt, false, square(1, 500));
            }
            let is_shown = table.shows(rt, &window_at(rt, 0, y));
            let found = (is_shown, table.viewer.hits());
            equal(rt, "hits in turn", &found, &(true, hits));
        }
    }
}

#[test]
fn a_picture_lasts_for_64_changes_whatever_else_is_asked(rt: HostRuntime) {
    let alloc = rt.alloc();
    play_at(&rt, alloc, Document::empty(alloc), 2, &OtherBetween)
}

/// A picture by too many workers is refused and changes nothing.
#[derive(Clone, Copy)]
struct Workers;

impl Play for Workers {
    fn play<B: Lines, H: Threads + Wait + Abort + Sync>(&self, rt: &H, table: &mut Table<B>) {
        let window = window_at(rt, 0, 0);
        table.check_edit(rt, true, square(10, 0));
        for wanted in &[
            (1, false, 0),
            (17, true, 0),
            (16, false, 1),
            (0, true, 1),
            (2, false, 2),
            (17, true, 2),
        ] {
            let (workers, _, _) = *wanted;
            let is_refused = refuses_workers(rt, table, &window, workers);
            let found = (workers, is_refused, table.viewer.hits());
            equal(rt, "workers", &found, wanted);
        }
    }
}

// Whether the viewer refuses a picture by so many workers.
fn refuses_workers<B: Lines, H: Threads + Wait + Sync>(
    rt: &H,
    table: &mut Table<B>,
    window: &Window,
    workers: u32,
) -> bool
    requires { IsSync H.row }
{
    match table.viewer.picture(rt, window, workers) {
        Ok(_) => false,
        Err(fault) => fault.code() == 31,
    }
}

#[test]
fn workers_are_judged_first(rt: HostRuntime) {
    let alloc = rt.alloc();
    play_at(&rt, alloc, Document::empty(alloc), 4, &Workers)
}
