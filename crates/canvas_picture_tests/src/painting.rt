//! Clips, strips and workers, and free rows.

ghost use Rattle.std.specs.Prelude.{◌≤ℤ◌};

use crate::asserts::{equal, holds};
use crate::pictures::{painted, picture};
use crate::shapes::{RED, after, frame, page_box, rect, red_rectangle, with};
use bumpalo::Bump;
use canvas_doc::{Document, Edit, Parent};
use canvas_paint::{FreeGate, FreeRow, Gate, PaintFault, paint_strip, strip_rows};
use canvas_plane::{PageBox, Pose, Window};
use canvas_scene::Scene;
use canvas_shape::Span;
use std::alloc::Global;
use std::process::Abort;
use std::sync::atomic::{AtomicU64, Ordering};
use std::thread;
use std::thread::Threads;
use std::time::{Clock, Duration};

// Asserts that these are the clips of a document's items in a window.
fn check_clips(
    rt: &impl Abort,
    alloc: Global,
    document: &Document,
    window: &Window,
    wanted: &[PageBox],
) {
    let bump = Bump::new(alloc);
    let scene = Scene::build(&bump, document, window).expect(rt, "memory");
    let mut clips = Vec::new(alloc);
    for item in scene.display_list() {
        clips.push(item.clip).expect(rt, "memory");
    }
    equal(rt, "the clips", &clips.as_slice(), &wanted);
}

// A turned frame of 2 by 1 without fill that holds a rectangle of 5 by 5.
fn turned(rt: &impl Abort, alloc: Global) -> Document {
    let pose = Pose {
        dx: 1,
        dy: 0,
        quarter: 1,
        flip: false,
    };
    let (frame, red) = (frame(2, 1, None), rect(5, 5, RED));
    let document = Document::empty(alloc);
    let document = with(alloc, document, frame, pose, Parent::Page).expect(rt, "memory");
    with(alloc, document, red, Pose::STILL, Parent::Shape(1)).expect(rt, "memory")
}

#[test]
fn turned_frame_cuts_its_child(rt: HostRuntime) {
    let alloc = rt.alloc();
    let window = Window::new(0, 0, 4, 4).expect(&rt, "a window");
    let document = turned(&rt, alloc);
    check_clips(&rt, alloc, &document, &window, &[page_box(0, 0, 1, 2)]);
}

#[test]
fn a_hidden_frame_makes_no_item(rt: HostRuntime) {
    let alloc = rt.alloc();
    let window = Window::new(0, 0, 4, 4).expect(&rt, "a window");
    let hide = Edit::Show {
        id: 1,
        hidden: true,
    };
    let hidden = after(alloc, turned(&rt, alloc), &hide).expect(&rt, "memory");
    check_clips(&rt, alloc, &hidden, &window, &[]);
}

// The picture of a document in a window of 256 by 2, in two strips of a row each.
fn joined(rt: &impl Abort, alloc: Global, document: &Document) -> Vec<u8> {
    let window = Window::new(0, 0, 256, 2).expect(rt, "a window");
    let bump = Bump::new(alloc);
    let scene = Scene::build(&bump, document, &window).expect(rt, "memory");
    let items = scene.display_list();
    let mut joined = paint_strip(alloc, items, &window, 0, 1).expect(rt, "memory");
    let second = paint_strip(alloc, items, &window, 1, 2).expect(rt, "memory");
    joined.extend_from_slice(&second).expect(rt, "memory");
    joined
}

#[test]
fn strips_joined_are_the_picture(rt: HostRuntime) {
    let alloc = rt.alloc();
    let document = red_rectangle(alloc).expect(&rt, "memory");
    let window = Window::new(0, 0, 256, 2).expect(&rt, "a window");
    let whole = picture(&rt, alloc, &document, &window, 1);
    equal(&rt, "its length", &whole.len(), &1536);
    equal(&rt, "both strips", &joined(&rt, alloc, &document), &whole);
    equal(&rt, "the first rows", &strip_rows(2, 0, 2), &(0, 1));
    equal(&rt, "the second rows", &strip_rows(2, 1, 2), &(1, 2));
}

// The picture of a red rectangle in a window of so many columns and two rows, by so many workers.
fn by_workers<R: Threads + Sync + Abort>(
    rt: &R,
    alloc: Global,
    columns: u32,
    workers: u32,
) -> Result<Vec<u8>, PaintFault> {
    let document = red_rectangle(alloc).expect(rt, "memory");
    let window = Window::new(0, 0, columns, 2).expect(rt, "a window");
    painted(rt, alloc, &document, &window, workers, &FreeGate)
}

// Two red pixels, and the others of a window of 256 by 2.
fn red_corner(rt: &impl Abort, alloc: Global) -> Vec<u8> {
    let white = vec![in alloc; 255u8; 1530].expect(rt, "memory");
    let mut pixels = Vec::from_slice(alloc, b"\xff\x00\x00\xff\x00\x00").expect(rt, "memory");
    pixels.extend_from_slice(&white).expect(rt, "memory");
    pixels
}

#[test]
fn any_number_of_workers_paints_the_same(rt: HostRuntime) {
    let alloc = rt.alloc();
    let want = red_corner(&rt, alloc);
    for workers in [1, 3, 16] {
        let raster = by_workers(&rt, alloc, 256, workers).expect(&rt, "a picture");
        equal(&rt, "a picture", &(workers, &raster), &(workers, &want));
    }
    let fault = Some(PaintFault::BadWorkers);
    equal(
        &rt,
        "no worker",
        &by_workers(&rt, alloc, 256, 0).err(),
        &fault,
    );
    let many = by_workers(&rt, alloc, 256, 17).err();
    equal(&rt, "17 workers", &many, &fault);
}

// Holds each of two strips until the other has come too, and counts those that waited in vain.
#[derive(Drop)]
struct Meeting<'a, C> {
    clock: &'a C,
    come: [AtomicU64; 2],
    in_vain: AtomicU64,
}

impl<C: Clock> Gate for Meeting<'_, C> {
    ghost admits = { λ _ _. Unit {0} };

    ghost passed = { λ _ _. Unit {0} };

    fn pass(&self, strip: u32) {
        if let Some(mine) = self.come.get(strip as usize) {
            mine.store(1, Ordering::SeqCst);
        }
        for _ in 0..10_000u32 {
            if come(self) == (1, 1) {
                return;
            }
            thread::sleep(self.clock, Duration::from_millis(1));
        }
        self.in_vain.fetch_add(1, Ordering::SeqCst);
    }
}

// How often each strip came last: 1 where it came.
fn come<C>(gate: &Meeting<'_, C>) -> (u64, u64) {
    let [first, second] = &gate.come;
    (first.load(Ordering::SeqCst), second.load(Ordering::SeqCst))
}

// The same picture of four columns by two workers, at a gate where they meet.
fn by_two_that_meet<R: Threads + Clock + Sync + Abort>(
    rt: &R,
    alloc: Global,
    gate: &Meeting<'_, R>,
) -> Vec<u8> {
    let document = red_rectangle(alloc).expect(rt, "memory");
    let window = Window::new(0, 0, 4, 2).expect(rt, "a window");
    painted(rt, alloc, &document, &window, 2, gate).expect(rt, "a picture")
}

#[test]
fn two_workers_work_at_once(rt: HostRuntime) {
    let alloc = rt.alloc();
    let gate = Meeting {
        clock: &rt,
        come: [AtomicU64::new(0), AtomicU64::new(0)],
        in_vain: AtomicU64::new(0),
    };
    let together = by_two_that_meet(&rt, alloc, &gate);
    let in_vain = gate.in_vain.load(Ordering::SeqCst);
    equal(&rt, "those in vain", &in_vain, &0);
    equal(&rt, "strips that came", &come(&gate), &(1, 1));
    let alone = by_workers(&rt, alloc, 4, 1).expect(&rt, "a picture");
    equal(&rt, "the picture", &together, &alone);
}

pub(crate) fn span(from: i32, to: i32) -> Span {
    Span { from, to }
}

#[test]
fn free_row_gives_each_pixel_once(rt: HostRuntime) {
    let alloc = rt.alloc();
    let mut row = FreeRow::new(alloc, 0, 10).expect(&rt, "memory");
    check_taken(&rt, alloc, &mut row, 3, 5, &[span(3, 5)]);
    holds(&rt, "some are free", !row.is_done());
    check_taken(&rt, alloc, &mut row, 0, 10, &[span(0, 3), span(5, 10)]);
    holds(&rt, "none is free", row.is_done());
    check_taken(&rt, alloc, &mut row, 2, 8, &[]);
}

// Asserts that a row gives these spans of one that is asked for.
fn check_taken(
    rt: &impl Abort,
    alloc: Global,
    row: &mut FreeRow,
    from: i32,
    to: i32,
    wanted: &[Span],
)
    requires { from ≤ℤ to }
{
    let mut out = Vec::new(alloc);
    row.take(Span { from, to }, &mut out).expect(rt, "memory");
    equal(rt, "the spans", &out.as_slice(), &wanted);
}
