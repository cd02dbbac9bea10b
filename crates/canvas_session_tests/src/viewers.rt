//! Kept pictures beside painted ones: random edits and windows, and viewers of a large document in
//! which one shape moves.

ghost use denote.Param.Send.{IsSync};

use crate::asserts::{holds, holds_at};
use crate::boards::{RED, at};
use crate::dice::Dice;
use crate::table::{Play, Table, play_at};
use canvas_board::Board;
use canvas_code::OutOfMemory;
use canvas_doc::{Document, Edit, MOST_RECORDS, Parent, Place, Record, Spot};
use canvas_key::fresh;
use canvas_line::Lines;
use canvas_plane::{Pose, Window};
use canvas_shape::{Colour, Kind};
use std::alloc::Global;
use std::process::Abort;
use std::sync::Wait;
use std::thread::Threads;

// How many edits are made at random.
const EDITS: u32 = 2000;

// How many of the last ids an edit may name.
const NEAR: u64 = 24;

// A shape that was made of late, or one that is gone.
fn id(dice: &mut Dice, made: u32) -> u32 {
    made.saturating_sub(dice.below(NEAR) as u32)
}

fn parent(dice: &mut Dice, made: u32) -> Parent {
    if dice.below(3) == 0 {
        Parent::Shape(id(dice, made))
    } else {
        Parent::Page
    }
}

fn spot(dice: &mut Dice) -> Spot {
    if dice.coin() { Spot::Front } else { Spot::Back }
}

fn pose(dice: &mut Dice) -> Pose {
    Pose {
        dx: dice.below(240) as i64,
        dy: dice.below(240) as i64,
        quarter: dice.below(4) as u8,
        flip: dice.coin(),
    }
}

fn kind(dice: &mut Dice) -> Kind {
    let w = dice.below(24) as u32 + 1;
    let h = dice.below(24) as u32 + 1;
    let fill = Colour([dice.below(250) as u8, dice.below(250) as u8, 9]);
    match dice.below(6) {
        0 => Kind::Group,
        1 => Kind::Frame { w, h, fill: None },
        2 => Kind::Frame {
            w,
            h,
            fill: Some(fill),
        },
        3 => Kind::Ellipse { w, h, fill },
        _ => Kind::Rect { w, h, fill },
    }
}

// An edit, some of which are refused.
fn edit(dice: &mut Dice, made: u32) -> Edit {
    let id = id(dice, made);
    let parent = parent(dice, made);
    match dice.below(12) {
        0 | 1 | 2 => Edit::Create {
            kind: kind(dice),
            pose: pose(dice),
            hidden: dice.below(6) == 0,
            parent,
            spot: spot(dice),
        },
        3 | 4 => Edit::Move {
            id,
            parent,
            spot: spot(dice),
        },
        5 | 6 => Edit::Pose {
            id,
            pose: pose(dice),
        },
        7 => Edit::Reshape {
            id,
            kind: kind(dice),
        },
        8 | 9 => Edit::Show {
            id,
            hidden: dice.coin(),
        },
        10 => Edit::Delete { id },
        _ => Edit::Respace { parent },
    }
}

// One of 64 windows, most often one of the first, and at times one of another level.
fn some_window(rt: &impl Abort, dice: &mut Dice) -> Window {
    match dice.below(8) {
        0 | 1 => tile(rt, 0, dice.below(64) as i32, 32),
        2 => tile(rt, dice.below(7) as u8, dice.below(6) as i32, 32),
        _ => tile(rt, 0, dice.below(6) as i32, 32),
    }
}

// A window of a level of 16 by 16, one of 8 in a row, so far apart.
fn tile(rt: &impl Abort, level: u8, number: i32, apart: i32) -> Window {
    let x = (number % 8).saturating_mul(apart);
    let y = (number / 8).saturating_mul(apart);
    Window::at_level(level, x, y, 16, 16).expect(rt, "a window")
}

/// Edits and windows at random.
#[derive(Clone, Copy)]
struct AtRandom;

impl Play for AtRandom {
    fn play<B: Lines, H: Threads + Wait + Abort + Sync>(&self, rt: &H, table: &mut Table<B>) {
        let mut dice = Dice { state: 5 };
        let mut made: u32 = 0;
        for number in 0..EDITS {
            if let Ok(edited) = table.editor.edit(rt, &edit(&mut dice, made)) {
                made = edited.id.unwrap_or(made);
            }
            let window = some_window(rt, &mut dice);
            holds_at(rt, "after", number.into(), table.shows(rt, &window));
        }
        let hits = table.viewer.hits();
        holds_at(rt, "hits", hits, hits > 100 && hits < 1900);
    }
}

#[test]
fn random_edits_and_windows(rt: HostRuntime) {
    let alloc = rt.alloc();
    play_at(&rt, alloc, Document::empty(alloc), 32, &AtRandom)
}

// Small squares in rows of 64.
fn squares(alloc: Global, count: u32) -> Result<Vec<Record>, OutOfMemory> {
    let mut records = Vec::new(alloc);
    for number in 0..count {
        let index = fresh(number);
        records.push(Record {
            id: number.saturating_add(1),
            kind: Kind::Rect {
                w: 10,
                h: 10,
                fill: RED,
            },
            place: Place {
                parent: Parent::Page,
                index,
            },
            pose: Pose {
                dx: i64::from(number % 64).saturating_mul(16),
                dy: i64::from(number / 64).saturating_mul(16),
                quarter: 0,
                flip: false,
            },
            hidden: false,
        })?;
    }
    Ok(records)
}

/// Viewers of eight windows, while a shape moves in a corner of the page.
#[derive(Clone, Copy)]
struct Elsewhere;

impl Play for Elsewhere {
    fn play<B: Lines, H: Threads + Wait + Abort + Sync>(&self, rt: &H, table: &mut Table<B>) {
        for number in 0..400u32 {
            let pose = at(i64::from(number % 7));
            table.check_edit(rt, false, Edit::Pose { id: 1, pose });
            let window = tile(rt, 0, (number % 8) as i32 + 8, 64);
            let picture = table.viewer.picture(rt, &window, 1);
            picture.expect(rt, "a picture");
        }
        // At least 90 of 100.
        let hits = table.viewer.hits();
        holds_at(rt, "hits", hits, hits >= 360);
        let corner = tile(rt, 0, 0, 64);
        holds(rt, "the corner", table.shows(rt, &corner));
        let beside = tile(rt, 0, 8, 64);
        holds(rt, "beside it", table.shows(rt, &beside));
    }
}

#[test]
fn viewers_elsewhere_are_answered_again(rt: HostRuntime) {
    let alloc = rt.alloc();
    let records = squares(alloc, 4000).expect(&rt, "memory");
    assert!(rt; records.len() <= MOST_RECORDS);
    let document = Document::restore(alloc, records, 4001).expect(&rt, "a document");
    play_at(&rt, alloc, document, 8, &Elsewhere)
}
