//! Strips at a gate: each strip of a picture passes it once, whatever the window's rows.

use crate::asserts::equal;
use crate::pictures::painted;
use canvas_doc::Document;
use canvas_paint::{FreeGate, Gate};
use canvas_plane::Window;
use std::alloc::Global;
use std::process::Abort;
use std::sync::atomic::{AtomicU64, Ordering};
use std::thread::Threads;

// Counts the strips that pass, by their numbers, and those whose number is no worker's.
#[derive(Drop)]
struct Counting {
    passed: [AtomicU64; 4],
    others: AtomicU64,
}

impl Gate for Counting {
    ghost admits = { λ _ _. Unit {0} };

    ghost passed = { λ _ _. Unit {0} };

    fn pass(&self, strip: u32) {
        let passed = self.passed.get(strip as usize).unwrap_or(&self.others);
        passed.fetch_add(1, Ordering::SeqCst);
    }
}

fn nobody_passed() -> Counting {
    Counting {
        passed: [
            AtomicU64::new(0),
            AtomicU64::new(0),
            AtomicU64::new(0),
            AtomicU64::new(0),
        ],
        others: AtomicU64::new(0),
    }
}

// How often each strip passed, and how often others.
fn passes(gate: &Counting) -> ([u64; 4], u64) {
    let [first, second, third, fourth] = &gate.passed;
    let passed = [
        first.load(Ordering::SeqCst),
        second.load(Ordering::SeqCst),
        third.load(Ordering::SeqCst),
        fourth.load(Ordering::SeqCst),
    ];
    (passed, gate.others.load(Ordering::SeqCst))
}

// The picture of an empty document in a window of so many rows, by so many workers who pass a gate.
fn counted<R: Threads + Sync + Abort>(
    rt: &R,
    alloc: Global,
    rows: u32,
    workers: u32,
    gate: &Counting,
) -> Vec<u8> {
    let document = Document::empty(alloc);
    let window = Window::new(0, 0, 4, rows).expect(rt, "a window");
    painted(rt, alloc, &document, &window, workers, gate).expect(rt, "a picture")
}

// The same picture by one worker through a gate that lets all pass.
fn alone<R: Threads + Sync + Abort>(rt: &R, alloc: Global, rows: u32) -> Vec<u8> {
    let document = Document::empty(alloc);
    let window = Window::new(0, 0, 4, rows).expect(rt, "a window");
    painted(rt, alloc, &document, &window, 1, &FreeGate).expect(rt, "a picture")
}

// Asserts that so many workers paint a picture of so many rows as one does, and that so often each
// strip passes.
fn check<R: Threads + Sync + Abort>(
    rt: &R,
    alloc: Global,
    rows: u32,
    workers: u32,
    wanted: [u64; 4],
) {
    let gate = nobody_passed();
    let raster = counted(rt, alloc, rows, workers, &gate);
    let found = (rows, workers, passes(&gate));
    equal(rt, "passes", &found, &(rows, workers, (wanted, 0)));
    let same = (rows, workers, alone(rt, alloc, rows));
    equal(rt, "the picture", &(rows, workers, raster), &same);
}

// More workers than the window has rows are as many strips, and one worker is one.
#[test]
fn each_strip_passes_the_gate_once(rt: HostRuntime) {
    for rows in 1..4u32 {
        check(&rt, rt.alloc(), rows, 1, [1, 0, 0, 0]);
        check(&rt, rt.alloc(), rows, 2, [1, 1, 0, 0]);
        check(&rt, rt.alloc(), rows, 3, [1, 1, 1, 0]);
        check(&rt, rt.alloc(), rows, 4, [1, 1, 1, 1]);
    }
}
