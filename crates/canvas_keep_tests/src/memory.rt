//! A kept line for which memory may be refused: run with each allocation refused in turn, an edit
//! that is refused leaves the history as it was, and a journal that is lost is opened again with
//! all that was acknowledged.
ghost use Rattle.std.specs.Prelude.{◌≡◌};

use crate::asserts::{equal, holds};
use crate::disk::Disk;
use crate::edits::{EDITS, edit, saved_at_the_end};
use crate::seats::{Kept, Two, kept_line};
use canvas_code::OutOfMemory;
use canvas_doc::Document;
use canvas_journal::DeviceError;
use canvas_journal_file::Asked;
use canvas_keep::{Keep, KeepFault, OpenFault, ReplayWhy};
use canvas_line::{Edited, LineFault, Lines, Opened, Seat};
use canvas_saved::export;
use std::alloc::{AllocError, Global};
use std::marker::Brand;
use std::process::Abort;
use std::sync::Wait;
use std::test::Fail;

/// How a part of the history ended, and how many versions were acknowledged then.
#[derive(Clone, Copy)]
enum Part {
    Whole,
    Lost(u64),
}

#[test]
fn kept_edits_with_little_memory(rt: HostRuntime) -> Result<(), Fail> {
    let alloc = rt.alloc();
    let disk = Disk::new(alloc, Vec::new(alloc), 0)?;
    if let Part::Lost(told) = history(&rt, alloc, &disk, 0) {
        let left = disk.left(disk.moment(), 0).ok_or(AllocError)?;
        let again = Disk::new(alloc, left, 0)?;
        let rest = history(&rt, alloc, &again, told);
        holds(&rt, "the rest", matches!(rest, Part::Whole));
    }
    Ok(())
}

fn history<H: Wait + Abort>(rt: &H, alloc: Global, disk: &Disk, told: u64) -> Part {
    history_at::<Brand, H>(rt, alloc, Opened::new(), Document::empty(alloc), disk, told)
}

// Opens what a disk has, of which at least so many versions were acknowledged, and makes the other edits.
fn history_at<B: Lines, H: Wait + Abort>(
    rt: &H,
    alloc: Global,
    opened: Opened,
    document: Document,
    disk: &Disk,
    told: u64,
) -> Part
    requires { B.line 1
        ≡ record { book = opened.head.word.book; opening = document; limit = 1000 } }
{
    match kept_line::<B, H>(rt, alloc, opened, document, disk) {
        Ok(line) => {
            holds(rt, "what was acknowledged", told <= line.keeper.kept());
            rest(rt, alloc, line)
        }
        Err(fault) => {
            holds(rt, "want of memory at the opening", is_want(&fault));
            Part::Lost(told)
        }
    }
}

fn is_want(fault: &OpenFault) -> bool {
    match fault {
        OpenFault::Device(DeviceError::Memory) => true,
        // The disk of the test had no memory.
        OpenFault::Device(DeviceError::Failed) => true,
        OpenFault::Line(LineFault::OutOfMemory) => true,
        OpenFault::Replay(fault) => fault.why == ReplayWhy::OutOfMemory,
        _ => false,
    }
}

// Makes the edits behind those that are kept, and settles each.
fn rest<B: Lines, H: Wait + Abort>(rt: &H, alloc: Global, line: Kept<B>) -> Part
    requires { line.watch.name ≡ line.keeper.line.name }
{
    let Kept {
        keeper,
        watch,
        mut two,
    } = line;
    let mut told = keeper.kept();
    let keep = Keep::new(rt, alloc, keeper, watch).expect(rt, "a keep");
    for version in told.saturating_add(1)..=EDITS {
        make_again(rt, &mut two, version);
        match keep.settle(rt) {
            Ok(kept) => {
                equal(rt, "settled", &kept, &version);
                told = kept;
            }
            Err(fault) => {
                holds(rt, "want of memory", is_lost_by_want(fault));
                equal(rt, "a later wait", &keep.settle(rt), &Err(fault));
                return Part::Lost(told);
            }
        }
    }
    check_the_end(rt, alloc, &mut two.second);
    Part::Whole
}

fn is_lost_by_want(fault: KeepFault) -> bool {
    match fault {
        KeepFault::OutOfMemory => true,
        KeepFault::Device(DeviceError::Memory) => true,
        // The disk of the test had no memory.
        KeepFault::Device(DeviceError::Failed) => true,
        KeepFault::Line(LineFault::NoView) => true,
        _ => false,
    }
}

// Makes the edit of a version, and again where memory was wanted.
fn make_again<B: Lines, H: Wait + Abort>(rt: &H, two: &mut Two<B>, version: u64) {
    let edit = edit(version);
    let answer = match two.first.edit(rt, &edit) {
        Err(LineFault::OutOfMemory) => two.first.edit(rt, &edit),
        answer => answer,
    };
    let number = answer.map(|edited| edited.number);
    equal(rt, "an edit", &number, &Ok(version));
}

fn check_the_end<B: Lines>(rt: &impl Abort, alloc: Global, seat: &mut Seat<B>) {
    let text = match text_of(alloc, seat) {
        Err(_) => text_of(alloc, seat),
        text => text,
    };
    let text = text.expect(rt, "the text");
    holds(
        rt,
        "the document at the end",
        text.as_slice() == saved_at_the_end(),
    );
}

fn text_of<B: Lines>(alloc: Global, seat: &mut Seat<B>) -> Result<Vec<u8>, OutOfMemory> {
    match seat.look() {
        Ok(version) => export(alloc, &version.document),
        Err(_) => Err(OutOfMemory),
    }
}
