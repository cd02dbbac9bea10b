//! Scenes, pictures and images for which memory may be refused: run with each allocation refused in
//! turn, each call answers want of memory and leaves all as it was, or answers what it answers with
//! ample memory.

ghost use Rattle.std.specs.Prelude.{◌≤ℤ◌};

use crate::asserts::{equal, holds, holds_at};
use crate::painting::span;
use crate::shapes::{nested, page_box, red_rectangle};
use bumpalo::Bump;
use canvas_code::{Coded, OutOfMemory};
use canvas_doc::Document;
use canvas_paint::{FreeGate, FreeRow, Gate, PaintFault, paint, paint_strip};
use canvas_plane::{PageBox, Window};
use canvas_ppm::{Image, PpmFault, read, write};
use canvas_scene::{Item, Scene};
use canvas_shape::Span;
use std::alloc::Global;
use std::process::Abort;
use std::sync::atomic::{AtomicU64, Ordering};
use std::test::Fail;
use std::thread::{self, Threads};
use std::time::{Clock, Duration};

/// Whether of two answers at most one is want of memory, and each other one is right.
pub(crate) fn are_right(
    first: Result<bool, OutOfMemory>,
    again: Result<bool, OutOfMemory>,
) -> bool {
    match (first, again) {
        (Ok(right), Ok(too)) => right && too,
        (Ok(right), Err(OutOfMemory)) => right,
        (Err(OutOfMemory), Ok(right)) => right,
        (Err(OutOfMemory), Err(OutOfMemory)) => false,
    }
}

// Whether there is one item alone, with this clip.
fn is_one(items: &[Item<'_>], clip: PageBox) -> bool {
    match items {
        [item] => item.clip == clip,
        _ => false,
    }
}

// Whether the scene of frames in frames has the one item that both cut.
fn is_built(alloc: Global, document: &Document, window: &Window) -> Result<bool, OutOfMemory> {
    let bump = Bump::new(alloc);
    let scene = Scene::build(&bump, document, window)?;
    Ok(is_one(scene.display_list(), page_box(0, 0, 4, 2)))
}

#[test]
fn scenes_with_little_memory(rt: HostRuntime) -> Result<(), Fail> {
    let alloc = rt.alloc();
    let window = Window::new(0, 0, 6, 2)?;
    let document = nested(alloc)?;
    let first = is_built(alloc, &document, &window);
    let again = is_built(alloc, &document, &window);
    holds(&rt, "two scenes", are_right(first, again));
    Ok(())
}

// Counts the strips that pass, the first of them after a while.
#[derive(Drop)]
struct Slow<'a, C> {
    clock: &'a C,
    passed: AtomicU64,
}

impl<C: Clock> Gate for Slow<'_, C> {
    ghost admits = { λ _ _. Unit {0} };

    ghost passed = { λ _ _. Unit {0} };

    fn pass(&self, strip: u32) {
        if strip == 0 {
            thread::sleep(self.clock, Duration::from_millis(5));
        }
        self.passed.fetch_add(1, Ordering::SeqCst);
    }
}

// Whether it is white but for two red pixels at its beginning.
fn is_raster(bytes: &[u8], len: usize) -> bool {
    let head = b"\xff\x00\x00\xff\x00\x00".as_slice();
    bytes.len() == len && bytes.starts_with(head) && bytes.iter().skip(6).all(|byte| *byte == 255)
}

fn is_painted(answer: Result<Vec<u8>, PaintFault>) -> Result<bool, OutOfMemory> {
    match answer {
        Ok(raster) => Ok(is_raster(raster.as_slice(), 1_536)),
        Err(PaintFault::OutOfMemory) => Err(OutOfMemory),
        Err(PaintFault::BadWorkers) => Ok(false),
    }
}

// Asserts that three workers paint the picture, or no strip of it where memory is refused, and at a
// second time too.
fn check_three<R: Threads + Clock + Sync + Abort>(
    rt: &R,
    alloc: Global,
    items: &[Item<'_>],
    window: &Window,
) {
    let gate = Slow {
        clock: rt,
        passed: AtomicU64::new(0),
    };
    let first = is_painted(paint(rt, alloc, items, window, 3, &gate));
    let passed = gate.passed.load(Ordering::SeqCst);
    let is_so = passed == 3 || passed == 0 && first.is_err();
    holds_at(rt, "strips that passed:", passed, is_so);
    let again = is_painted(paint(rt, alloc, items, window, 3, &FreeGate));
    holds(rt, "two pictures", are_right(first, again));
}

#[test]
fn three_workers_with_little_memory(rt: HostRuntime) -> Result<(), Fail> {
    let alloc = rt.alloc();
    let window = Window::new(0, 0, 256, 2)?;
    let document = red_rectangle(alloc)?;
    let checked = check_scene(&rt, alloc, &document, &window);
    drop(document);
    checked?;
    Ok(())
}

fn check_scene<R: Threads + Clock + Sync + Abort>(
    rt: &R,
    alloc: Global,
    document: &Document,
    window: &Window,
) -> Result<(), OutOfMemory> {
    let bump = Bump::new(alloc);
    let scene = Scene::build(&bump, document, window)?;
    check_three(rt, alloc, scene.display_list(), window);
    Ok(())
}

// Whether the first row of a window is painted.
fn is_strip(alloc: Global, items: &[Item<'_>], window: &Window) -> Result<bool, OutOfMemory> {
    let strip = paint_strip(alloc, items, window, 0, 1)?;
    Ok(is_raster(strip.as_slice(), 768))
}

#[test]
fn strips_with_little_memory(rt: HostRuntime) -> Result<(), Fail> {
    let alloc = rt.alloc();
    let window = Window::new(0, 0, 256, 2)?;
    let document = red_rectangle(alloc)?;
    let are_so = are_strips(alloc, &document, &window);
    drop(document);
    holds(&rt, "two strips", are_so?);
    Ok(())
}

// Whether the first row is painted twice, or once where memory is refused.
fn are_strips(alloc: Global, document: &Document, window: &Window) -> Result<bool, OutOfMemory> {
    let bump = Bump::new(alloc);
    let scene = Scene::build(&bump, document, window)?;
    let items = scene.display_list();
    let first = is_strip(alloc, items, window);
    let again = is_strip(alloc, items, window);
    Ok(are_right(first, again))
}

// Asserts that a span is taken, at the second time where memory was wanted: then nothing had been
// taken. All spans that were taken are these then.
fn check_taken(
    rt: &impl Abort,
    row: &mut FreeRow,
    from: i32,
    to: i32,
    out: &mut Vec<Span>,
    wanted: &[Span],
)
    requires { from ≤ℤ to }
{
    let before = out.len();
    let is_taken = match row.take(Span { from, to }, out) {
        Ok(()) => true,
        Err(OutOfMemory) => out.len() == before && row.take(Span { from, to }, out).is_ok(),
    };
    holds(rt, "a span is taken", is_taken);
    equal(rt, "the spans", &out.as_slice(), &wanted);
}

#[test]
fn rows_with_little_memory(rt: HostRuntime) -> Result<(), Fail> {
    let mut row = FreeRow::new(rt.alloc(), 0, 10)?;
    let mut out = Vec::new(rt.alloc());
    check_taken(&rt, &mut row, 3, 5, &mut out, &[span(3, 5)]);
    holds(&rt, "some are free", !row.is_done());
    let all = [span(3, 5), span(0, 3), span(5, 10)];
    check_taken(&rt, &mut row, 0, 10, &mut out, &all);
    holds(&rt, "none is free", row.is_done());
    check_taken(&rt, &mut row, 2, 8, &mut out, &all);
    Ok(())
}

// Whether bytes are read as an image of 2 by 1, or refused by such a number where there is one.
fn is_read(alloc: Global, bytes: &[u8], code: Option<u16>) -> Result<bool, OutOfMemory> {
    match read(alloc, bytes) {
        Ok(Image { w, h, raster }) => {
            Ok((w, h, raster.as_slice(), code) == (2, 1, b"123456".as_slice(), None))
        }
        Err(PpmFault::OutOfMemory) => Err(OutOfMemory),
        Err(fault) => Ok(Some(fault.code()) == code),
    }
}

// Bytes, and the number of their fault where there is one.
const FILES: [(&[u8], Option<u16>); 6] = [
    (b"P6\n2 1\n255\n123456", None),
    (b"P6\n2 1\n255\n12345", Some(42)),
    (b"P6\n2 1\n255\n1234567", Some(43)),
    (b"P6 2 1 255 123456", None),
    (b"P5", Some(40)),
    (b"P6\n2 0\n255\n", Some(41)),
];

#[test]
fn images_with_little_memory(rt: HostRuntime) -> Result<(), Fail> {
    for (bytes, code) in &FILES {
        let first = is_read(rt.alloc(), bytes, *code);
        let again = is_read(rt.alloc(), bytes, *code);
        holds(&rt, "two images", are_right(first, again));
    }
    Ok(())
}

// Whether a file of two pixels is written.
fn is_written(alloc: Global) -> Result<bool, OutOfMemory> {
    let file = write(alloc, 2, 1, b"123456")?;
    Ok(file.as_slice() == b"P6\n2 1\n255\n123456".as_slice())
}

#[test]
fn files_with_little_memory(rt: HostRuntime) -> Result<(), Fail> {
    let first = is_written(rt.alloc());
    let again = is_written(rt.alloc());
    holds(&rt, "two files", are_right(first, again));
    Ok(())
}
