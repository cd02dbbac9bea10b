//! Looks by many seats, in turn and at once, and edits at once.

use crate::fault::Fault;
use crate::seats::edits::{Editor, pose_edit};
use crate::times::{now, since};
use canvas_line::{Lines, Seat};
use std::alloc::Global;
use std::sync::Wait;
use std::thread::{self, Threads};
use std::time::Clock;

/// How many looks each seat takes.
const LOOKS: u32 = 1_000_000;

/// How many edits an editor makes.
const EDITS: u32 = 100_000;

/// How many rounds of looks are taken in turn.
const ROUNDS: u32 = 100_000;

/// A thread's work at its seat.
#[derive(Drop)]
struct Job<B: Lines> {
    seat: Seat<B>,
    is_editor: bool,
}

/// How many calls a thread made, where none failed, and how long they took.
#[derive(Drop)]
struct Done {
    calls: Result<u32, Fault>,
    took: u64,
}

/// Times looks by one seat after another, on one thread.
pub fn time_in_turn<B: Lines, R: Clock + Print>(
    rt: &R,
    seats: &mut [Seat<B>],
) -> Result<(), Fault> {
    let start = now(rt);
    for _ in 0..ROUNDS {
        look_by_each(seats)?;
    }
    let round = since(rt, start) / u64::from(ROUNDS);
    println!(rt; "{:>2} seats in turn: {round} ns a round", seats.len())?;
    Ok(())
}

fn look_by_each<B: Lines>(seats: &mut [Seat<B>]) -> Result<(), Fault> {
    for seat in seats {
        let _ = seat.look()?;
    }
    Ok(())
}

/// Times looks by all seats, each on a thread of its own; so many of the first ones edit instead.
pub fn time_at_once<B: Lines + Send + Sync, R: Clock + Print + Threads + Wait + Sync>(
    rt: &R,
    alloc: Global,
    seats: Vec<Seat<B>>,
    editors: usize,
) -> Result<(), Fault> {
    let jobs = jobs(alloc, seats, editors)?;
    let done = thread::map_vec(rt, jobs, &|job: Job<B>| work(rt, job))?;
    print_done(rt, &done)
}

fn jobs<B: Lines>(
    alloc: Global,
    seats: Vec<Seat<B>>,
    editors: usize,
) -> Result<Vec<Job<B>>, Fault> {
    let mut jobs = Vec::with_capacity(alloc, seats.len())?;
    for seat in seats {
        let is_editor = jobs.len() < editors;
        jobs.push(Job { seat, is_editor })?;
    }
    Ok(jobs)
}

fn print_done<R: Print>(rt: &R, done: &[Done]) -> Result<(), Fault> {
    for Done { calls, took } in done {
        let calls = (*calls)?;
        let each = *took / u64::from(calls.max(1));
        println!(rt; "  {calls} calls of {each} ns")?;
    }
    Ok(())
}

// A thread's calls.
fn work<B: Lines, R: Clock + Wait>(rt: &R, job: Job<B>) -> Done {
    let Job {
        mut seat,
        is_editor,
    } = job;
    let start = now(rt);
    let calls = if is_editor {
        make_edits(rt, &mut seat)
    } else {
        take_looks(&mut seat)
    };
    let took = since(rt, start);
    Done { calls, took }
}

fn make_edits<B: Lines, R: Wait>(rt: &R, seat: &mut Seat<B>) -> Result<u32, Fault> {
    for round in 0..EDITS {
        seat.make(rt, &pose_edit(100, round))?;
    }
    Ok(EDITS)
}

fn take_looks<B: Lines>(seat: &mut Seat<B>) -> Result<u32, Fault> {
    for _ in 0..LOOKS {
        let _ = seat.look()?;
    }
    Ok(LOOKS)
}
