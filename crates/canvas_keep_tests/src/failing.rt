//! A disk of which each call fails in turn: the fault is told to all who wait, nobody is answered
//! after it, and what is opened then has all that was acknowledged.
ghost use Rattle.std.specs.Prelude.{◌≡◌};

use crate::asserts::{equal, holds, holds_at};
use crate::disk::Disk;
use crate::edits::{EDITS, make};
use crate::runs::{Run, reopened, whole_run};
use crate::seats::{Kept, kept_line};
use canvas_doc::Document;
use canvas_journal::DeviceError;
use canvas_journal_file::Asked;
use canvas_keep::{Keep, KeepFault, OpenFault};
use canvas_line::{Lines, Opened};
use std::alloc::Global;
use std::marker::Brand;
use std::process::Abort;
use std::sync::Wait;

const MOST_CALLS: usize = 40;

/// How many versions were made and how many acknowledged, and whether the disk has failed.
#[derive(Clone, Copy)]
struct Told {
    made: u64,
    kept: u64,
    is_lost: bool,
}

#[test]
fn each_call_fails_in_turn(rt: HostRuntime) {
    let alloc = rt.alloc();
    let run = whole_run(&rt, alloc);
    let mut failed: u64 = 0;
    for number in 1..MOST_CALLS {
        let disk = Disk::new(alloc, Vec::new(alloc), number).expect(&rt, "memory");
        let told = settled(&rt, alloc, &disk);
        check_the_rest(&rt, alloc, &run, &disk, told);
        failed = failed.saturating_add(told.is_lost as u64);
    }
    holds_at(
        &rt,
        "calls that failed",
        failed,
        failed >= 20 && failed < 40,
    );
}

fn settled<H: Wait + Abort>(rt: &H, alloc: Global, disk: &Disk) -> Told {
    settled_at::<Brand, H>(rt, alloc, Opened::new(), Document::empty(alloc), disk)
}

// Makes all edits, and settles after some of them, until the disk fails.
fn settled_at<B: Lines, H: Wait + Abort>(
    rt: &H,
    alloc: Global,
    opened: Opened,
    document: Document,
    disk: &Disk,
) -> Told
    requires { B.line 1
        ≡ record { book = opened.head.word.book; opening = document; limit = 1000 } }
{
    match kept_line::<B, H>(rt, alloc, opened, document, disk) {
        Ok(kept) => settled_until(rt, alloc, kept, disk),
        Err(fault) => {
            equal(
                rt,
                "no line",
                &fault,
                &OpenFault::Device(DeviceError::Failed),
            );
            Told {
                made: 0,
                kept: 0,
                is_lost: true,
            }
        }
    }
}

fn settled_until<B: Lines, H: Wait + Abort>(
    rt: &H,
    alloc: Global,
    line: Kept<B>,
    disk: &Disk,
) -> Told
    requires { line.watch.name ≡ line.keeper.line.name }
{
    let Kept {
        keeper,
        watch,
        mut two,
    } = line;
    let keep = Keep::new(rt, alloc, keeper, watch).expect(rt, "a keep");
    let mut kept = 0;
    for made in 1..=EDITS {
        make(rt, &mut two, made);
        if made % 3 == 1 {
            match keep.settle(rt) {
                Ok(settled) => {
                    equal(rt, "settled", &settled, &made);
                    equal(rt, "settled again", &keep.settle(rt), &Ok(settled));
                    kept = settled;
                }
                Err(fault) => {
                    equal(
                        rt,
                        "the fault",
                        &fault,
                        &KeepFault::Device(DeviceError::Failed),
                    );
                    check_lost(rt, &keep, disk, fault, kept);
                    return Told {
                        made,
                        kept,
                        is_lost: true,
                    };
                }
            }
        }
    }
    Told {
        made: EDITS,
        kept,
        is_lost: false,
    }
}

// Each who waits from now on is told the fault, no more is kept, and the disk is left alone.
fn check_lost<B: Lines, H: Wait + Abort>(
    rt: &H,
    keep: &Keep<Asked<Disk>, B>,
    disk: &Disk,
    fault: KeepFault,
    kept: u64,
) {
    let asked = disk.asked();
    for _ in 0..3 {
        equal(rt, "a later wait", &keep.settle(rt), &Err(fault));
    }
    equal(rt, "the fault", &keep.fault(rt), &Some(fault));
    equal(rt, "kept", &keep.kept(rt), &kept);
    equal(rt, "calls after the fault", &disk.asked(), &asked);
}

// Opens what the disk holds in the end, in each way in which it may be left.
fn check_the_rest<H: Wait + Abort>(rt: &H, alloc: Global, run: &Run, disk: &Disk, told: Told) {
    let moment = disk.moment();
    for way in 0..disk.ways(moment) {
        let left = disk.left(moment, way).expect(rt, "memory");
        let again = Disk::new(alloc, left, 0).expect(rt, "memory");
        let kept = reopened(rt, alloc, run, &again);
        holds(rt, "all that was acknowledged", told.kept <= kept);
        holds(rt, "nothing that was not made", kept <= told.made);
    }
}
