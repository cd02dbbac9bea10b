//! Threads that edit and wait while a call of the disk fails: each of them is told, and what was
//! acknowledged is there.
ghost use Rattle.std.specs.Prelude.{◌≡◌};

use crate::asserts::{equal, holds};
use crate::disk::Disk;
use crate::edits::square;
use crate::seats::{Kept, Two, kept_line};
use canvas_doc::Document;
use canvas_journal::DeviceError;
use canvas_journal_file::Asked;
use canvas_keep::{Keep, KeepFault};
use canvas_line::{Lines, Opened, Seat};
use std::alloc::Global;
use std::marker::Brand;
use std::process::Abort;
use std::sync::Wait;
use std::thread;
use std::thread::Threads;

/// How many edits a thread makes at most.
const EDITS: u32 = 100;

/// The first call that may fail once a line is open, and the last one that is tried.
const FAILS: (usize, usize) = (5, 40);

/// What threads wait at.
trait Waits {
    /// Waits until all is kept that was published, and says how many versions are.
    fn wait<R: Wait>(&self, rt: &R) -> Result<u64, KeepFault>;
}

impl<B: Lines> Waits for Keep<Asked<Disk>, B> {
    fn wait<R: Wait>(&self, rt: &R) -> Result<u64, KeepFault> {
        self.settle(rt)
    }
}

#[test]
fn threads_are_told_of_a_call_that_fails(rt: HostRuntime) {
    let alloc = rt.alloc();
    for number in FAILS.0..=FAILS.1 {
        let disk = Disk::new(alloc, Vec::new(alloc), number).expect(&rt, "memory");
        let told = crowd(&rt, alloc, &disk);
        let moment = disk.moment();
        for way in 0..disk.ways(moment) {
            let left = disk.left(moment, way).expect(&rt, "memory");
            let again = Disk::new(alloc, left, 0).expect(&rt, "memory");
            holds(
                &rt,
                "all that was acknowledged",
                told <= kept_on(&rt, alloc, &again),
            );
        }
    }
}

fn crowd<H: Threads + Wait + Abort + Sync>(rt: &H, alloc: Global, disk: &Disk) -> u64 {
    crowd_at::<Brand, H>(rt, alloc, Opened::new(), Document::empty(alloc), disk)
}

// Has two threads edit until the disk fails. Tells how many versions were acknowledged to some thread.
fn crowd_at<B: Lines + Send + Sync, H: Threads + Wait + Abort + Sync>(
    rt: &H,
    alloc: Global,
    opened: Opened,
    document: Document,
    disk: &Disk,
) -> u64
    requires { B.line 1
        ≡ record { book = opened.head.word.book; opening = document; limit = 1000 } }
{
    let line = kept_line::<B, H>(rt, alloc, opened, document, disk).expect(rt, "a line");
    let Kept { keeper, watch, two } = line;
    let keep = Keep::new(rt, alloc, keeper, watch).expect(rt, "a keep");
    race(rt, &keep, two)
}

fn race<K: Waits + Sync, B: Lines + Send, H: Threads + Wait + Abort + Sync>(
    rt: &H,
    keep: &K,
    two: Two<B>,
) -> u64 {
    let Two {
        mut first,
        mut second,
    } = two;
    let (one, other) = thread::join(
        rt,
        || edits(rt, keep, &mut first),
        || edits(rt, keep, &mut second),
    );
    one.max(other)
}

// Edits and waits until the disk fails. Tells how many versions were acknowledged.
fn edits<K: Waits, B: Lines, H: Wait + Abort>(rt: &H, keep: &K, seat: &mut Seat<B>) -> u64 {
    let mut told = 0;
    for _ in 0..EDITS {
        let edited = seat.edit(rt, &square()).expect(rt, "an edit");
        match keep.wait(rt) {
            Ok(kept) => {
                holds(rt, "what is told is kept", edited.number <= kept);
                told = kept;
            }
            Err(fault) => {
                let wanted = KeepFault::Device(DeviceError::Failed);
                equal(rt, "the fault", &fault, &wanted);
                return told;
            }
        }
    }
    holds(rt, "the fault was told", false);
    told
}

// How many versions a disk has.
fn kept_on<H: Wait + Abort>(rt: &H, alloc: Global, disk: &Disk) -> u64 {
    kept_at::<Brand, H>(rt, alloc, Opened::new(), Document::empty(alloc), disk)
}

fn kept_at<B: Lines, H: Wait + Abort>(
    rt: &H,
    alloc: Global,
    opened: Opened,
    document: Document,
    disk: &Disk,
) -> u64
    requires { B.line 1
        ≡ record { book = opened.head.word.book; opening = document; limit = 1000 } }
{
    let line = kept_line::<B, H>(rt, alloc, opened, document, disk).expect(rt, "a line");
    line.keeper.kept()
}
