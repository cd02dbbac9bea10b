//! Twenty-four threads at one line, more than it has readers: four edit, twenty look and paint.
ghost use Rattle.std.specs.Prelude.{◌≡◌};

use crate::lines::editor::{Accepted, make_edits};
use crate::lines::replayed::{check_sights, put, replayed};
use crate::lines::viewer::{Sight, take_looks};
use canvas_doc::Document;
use canvas_line::{Line, Lines, Opened, Seat};
use std::alloc::Global;
use std::marker::Brand;
use std::process::Abort;
use std::sync::Wait;
use std::thread::{self, Threads};

/// At how many lines the threads meet, one after another.
const LINES: u32 = 20;

/// How many edits each editor makes at a line.
const EDITS: u32 = 4_000;

/// How many looks each viewer takes at a line.
const LOOKS: u32 = 20_000;

/// How many seats a line has: a thread for each.
const SEATS: u32 = 24;

/// One in so many seats edits, the others look.
const TURN: usize = 6;

/// A thread's work at its seat: so many edits, and so many looks.
#[derive(Drop)]
struct Job<B: Lines> {
    seat: Seat<B>,
    edits: u32,
    looks: u32,
}

/// What a thread gives back.
#[derive(Drop)]
struct Done {
    accepted: Vec<Accepted>,
    seen: Vec<Sight>,
}

#[test]
fn four_threads_edit_and_twenty_look(rt: HostRuntime) {
    for _ in 0..LINES {
        crowd_at_a_line(&rt, rt.alloc());
    }
}

fn crowd_at_a_line<R: Threads + Wait + Abort + Sync>(rt: &R, alloc: Global) {
    let document = Document::empty(alloc);
    crowd::<Brand, R>(rt, alloc, Opened::new(), document);
}

fn crowd<B: Lines + Send + Sync, R: Threads + Wait + Abort + Sync>(
    rt: &R,
    alloc: Global,
    opened: Opened,
    document: Document,
)
    requires { B.line 1
        ≡ record { book = opened.head.word.book; opening = document; limit = 1000000 } }
{
    let seats = Line::open::<B, R>(rt, alloc, opened, 1, document, SEATS, 1_000_000);
    let jobs = jobs_of(rt, alloc, seats.expect(rt, "a line"));
    let done = thread::map_vec(rt, jobs, &|job: Job<B>| work(rt, alloc, job));
    check(rt, alloc, &done.expect(rt, "threads"));
}

fn jobs_of<B: Lines, R: Abort>(rt: &R, alloc: Global, seats: Vec<Seat<B>>) -> Vec<Job<B>> {
    let mut jobs = Vec::new(alloc);
    for seat in seats {
        let (edits, looks) = work_at(jobs.len());
        let job = Job { seat, edits, looks };
        jobs.push(job).expect(rt, "memory");
    }
    jobs
}

// How many edits and how many looks are the work at a place.
fn work_at(place: usize) -> (u32, u32) {
    if place % TURN == 0 {
        (EDITS, 0)
    } else {
        (0, LOOKS)
    }
}

fn work<B: Lines, R: Threads + Wait + Abort + Sync>(rt: &R, alloc: Global, job: Job<B>) -> Done {
    let Job {
        mut seat,
        edits,
        looks,
    } = job;
    let accepted = make_edits(rt, alloc, &mut seat, edits);
    let seen = take_looks(rt, alloc, &mut seat, looks);
    Done { accepted, seen }
}

fn check<R: Threads + Abort + Sync>(rt: &R, alloc: Global, done: &[Done]) {
    let edits = by_number(rt, alloc, done);
    let documents = replayed(rt, alloc, &edits);
    for one in done {
        check_sights(rt, alloc, &documents, &one.seen);
    }
}

// The accepted edits by their numbers, which are to be 1 to the number of edits, each given once.
fn by_number<'a, R: Abort>(rt: &R, alloc: Global, done: &'a [Done]) -> Vec<Option<&'a Accepted>> {
    let mut places = vec![in alloc; None; 4 * EDITS as usize].expect(rt, "memory");
    for one in done {
        put(rt, &mut places, &one.accepted);
    }
    places
}
