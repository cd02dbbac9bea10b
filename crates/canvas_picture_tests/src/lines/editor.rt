//! A thread that edits.
use crate::asserts::holds;
use crate::lines::seats::rectangle;
use canvas_doc::Edit;
use canvas_line::{Edited, Lines, Seat};
use canvas_plane::Pose;
use std::alloc::Global;
use std::process::Abort;
use std::sync::Wait;

/// An edit that was accepted, and its number.
#[derive(Drop)]
pub(crate) struct Accepted {
    pub(crate) number: u64,
    pub(crate) id: Option<u32>,
    pub(crate) edit: Edit,
}

/// So many edits, all of them accepted: new rectangles, moved, hidden and shown, and some of them deleted.
pub(crate) fn make_edits<B: Lines, R: Wait + Abort>(
    rt: &R,
    alloc: Global,
    seat: &mut Seat<B>,
    count: u32,
) -> Vec<Accepted> {
    let mut own: Vec<u32> = Vec::new(alloc);
    let mut accepted = Vec::new(alloc);
    for step in 0..count {
        let made = make(rt, seat, &mut own, step);
        accepted.push(made).expect(rt, "memory");
    }
    accepted
}

// Makes the next edit, which is to be accepted and to raise the seat's number to its own.
fn make<B: Lines, R: Wait + Abort>(
    rt: &R,
    seat: &mut Seat<B>,
    own: &mut Vec<u32>,
    step: u32,
) -> Accepted {
    let before = seat.number();
    let edit = next_edit(own, step);
    let answer = seat.edit(rt, &edit);
    let Edited { number, id } = answer.expect(rt, "an edit that is accepted");
    holds(rt, "a higher number", before < number);
    holds(rt, "the seat's number", seat.number() == number);
    if let Some(id) = id {
        own.push(id).expect(rt, "memory");
    }
    Accepted { number, id, edit }
}

// The next edit of an editor that has made these shapes.
fn next_edit(own: &mut Vec<u32>, step: u32) -> Edit {
    let dx = (step % 64) as i64;
    let Some(newest) = own.last().copied() else {
        return rectangle(2, 2, dx);
    };
    match step % 4 {
        0 => rectangle(2, 2, dx),
        1 => Edit::Pose {
            id: newest,
            pose: moved(63 - dx),
        },
        2 => Edit::Show {
            id: newest,
            hidden: step % 8 < 4,
        },
        _ => {
            if own.len() > 20 {
                Edit::Delete {
                    id: own.swap_remove(0),
                }
            } else {
                Edit::Pose {
                    id: newest,
                    pose: moved(dx),
                }
            }
        }
    }
}

fn moved(dx: i64) -> Pose {
    Pose {
        dx,
        dy: 1,
        quarter: 0,
        flip: false,
    }
}
