//! Edits through a seat, and by `decide` and `with` alone.

use crate::fault::Fault;
use crate::shapes::{Drawing, edited};
use crate::times::{least_and_middle, now, since};
use canvas_doc::Edit;
use canvas_line::{Lines, Seat};
use canvas_plane::Pose;
use std::alloc::Global;
use std::sync::Wait;
use std::time::{Clock, Duration};

/// How often an edit is timed.
const ROUNDS: u32 = 20_001;

/// What makes edits.
pub trait Editor<R> {
    fn make(&mut self, rt: &R, edit: &Edit) -> Result<(), Fault>;
}

impl<R> Editor<R> for Drawing {
    fn make(&mut self, _rt: &R, edit: &Edit) -> Result<(), Fault> {
        self.document = edited(self.alloc, &self.document, edit)?;
        Ok(())
    }
}

impl<B: Lines, R: Wait> Editor<R> for Seat<B> {
    fn make(&mut self, rt: &R, edit: &Edit) -> Result<(), Fault> {
        self.edit(rt, edit)?;
        Ok(())
    }
}

/// Another pose for a shape in the middle of a document of so many records.
pub fn pose_edit(records: usize, round: u32) -> Edit {
    Edit::Pose {
        id: (records / 2).min(4096) as u32,
        pose: Pose {
            dx: (round % 64) as i64,
            ..Pose::STILL
        },
    }
}

/// Times an edit by `decide` and `with`, with the end of the document before it.
pub fn time_alone<R: Clock + Print>(rt: &R, drawing: &mut Drawing) -> Result<(), Fault> {
    let mut times = Vec::new(drawing.alloc);
    let records = drawing.document.count();
    time_editor(rt, drawing, &mut times, "alone", records)
}

/// Times an edit through each of these seats, and closes them.
pub fn time_by_seat<B: Lines, R: Clock + Print + Wait>(
    rt: &R,
    alloc: Global,
    seats: Vec<Seat<B>>,
    records: usize,
) -> Result<(), Fault> {
    let mut times = Vec::new(alloc);
    for seat in seats {
        time_and_close(rt, seat, &mut times, records)?;
    }
    Ok(())
}

fn time_and_close<B: Lines, R: Clock + Print + Wait>(
    rt: &R,
    mut seat: Seat<B>,
    times: &mut Vec<u64>,
    records: usize,
) -> Result<(), Fault> {
    let timed = time_editor(rt, &mut seat, times, "by a seat", records);
    seat.close(rt);
    timed
}

fn time_editor<R: Clock + Print, E: Editor<R>>(
    rt: &R,
    editor: &mut E,
    times: &mut Vec<u64>,
    name: &str,
    records: usize,
) -> Result<(), Fault> {
    times.clear();
    for round in 0..ROUNDS {
        times.push(time_edit(rt, editor, &pose_edit(records, round))?)?;
    }
    let (least, middle) = least_and_middle(times);
    println!(rt;
        "edit of {records:>4} records {name:<9}: least {:?}, middle {:?}",
        Duration::from_nanos(least),
        Duration::from_nanos(middle)
    )?;
    Ok(())
}

fn time_edit<R: Clock, E: Editor<R>>(rt: &R, editor: &mut E, edit: &Edit) -> Result<u64, Fault> {
    let start = now(rt);
    editor.make(rt, edit)?;
    Ok(since(rt, start))
}
