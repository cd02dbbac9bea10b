//! Times pictures by one strip and by workers.

use crate::drawings::{Part, drawn};
use crate::fault::Fault;
use crate::times::{least_and_middle, now, since};
use bumpalo::Bump;
use canvas_doc::Document;
use canvas_paint::{FreeGate, paint, paint_strip};
use canvas_plane::Window;
use canvas_scene::{Item, Scene, append_picture};
use std::alloc::Global;
use std::thread::Threads;
use std::time::Clock;

/// How often a picture is painted in one measurement.
const TIMES: u32 = 5;

/// How often each way is measured, the ways in turn, so that a slow moment of the machine meets all.
const ROUNDS: usize = 101;

/// How a picture is painted.
#[derive(Clone, Copy)]
enum Way {
    /// The items, by `paint_strip`, as one strip.
    OneStrip,
    /// The items, by `paint`, as a strip for each of so many workers.
    Workers(u32),
    /// The document, by `append_picture`, with up to so many workers.
    UpTo(u32),
}

/// A way that is timed.
type Named = (&'static str, Way);

/// The ways of painting items, all told as parts of the first one.
const OF_ITEMS: [Named; 4] = [
    ("one strip", Way::OneStrip),
    ("workers 1", Way::Workers(1)),
    ("workers 2", Way::Workers(2)),
    ("workers 4", Way::Workers(4)),
];

/// The ways of painting a document, all told as parts of the first one.
const OF_DOCUMENT: [Named; 4] = [
    ("picture by up to 1", Way::UpTo(1)),
    ("picture by up to 2", Way::UpTo(2)),
    ("picture by up to 4", Way::UpTo(4)),
    ("picture by up to 16", Way::UpTo(16)),
];

/// The times of a way, each round's in its place.
type Times = [u64; ROUNDS];

/// The documents: the seed of their numbers, how many parts they have, what these are called, and the parts.
const DOCUMENTS: [(u64, u32, &str, Part); 10] = [
    (
        7,
        10,
        "rectangles of up to 250 pixels",
        Part::Rectangle(250),
    ),
    (
        7,
        100,
        "rectangles of up to 120 pixels",
        Part::Rectangle(120),
    ),
    (
        7,
        1000,
        "rectangles of up to 40 pixels",
        Part::Rectangle(40),
    ),
    (
        7,
        4000,
        "rectangles of up to 12 pixels",
        Part::Rectangle(12),
    ),
    (9, 20, "ellipses of up to 120 pixels", Part::Ellipse(120)),
    (9, 200, "ellipses of up to 120 pixels", Part::Ellipse(120)),
    (11, 5, "polygons of 64 vertices", Part::Polygon(64)),
    (11, 20, "polygons of 64 vertices", Part::Polygon(64)),
    (11, 80, "polygons of 64 vertices", Part::Polygon(64)),
    (
        13,
        80,
        "polygons of 64 vertices, each in a frame of 8 by 8 pixels",
        Part::Framed(64),
    ),
];

/// Times pictures of documents of each kind of leaf.
pub fn time_all<R: Clock + Print + Threads + Sync>(rt: &R, alloc: Global) -> Result<(), Fault> {
    for (seed, count, name, part) in &DOCUMENTS {
        println!(rt; "{count} {name}")?;
        measure(rt, alloc, *seed, *part, *count)?;
    }
    Ok(())
}

/// A document in a window, and its items there.
#[derive(Clone, Copy)]
struct Sight<'a> {
    document: &'a Document,
    window: &'a Window,
    items: &'a [Item<'a>],
}

/// Prints what a picture of a document costs, painted as one strip and by workers.
fn measure<R: Clock + Print + Threads + Sync>(
    rt: &R,
    alloc: Global,
    seed: u64,
    part: Part,
    count: u32,
) -> Result<(), Fault> {
    let drawing = drawn(alloc, seed, part, count)?;
    let bump = Bump::new(alloc);
    measure_in(rt, alloc, &bump, &drawing.document)
}

/// The same with an arena for the scene.
fn measure_in<R: Clock + Print + Threads + Sync>(
    rt: &R,
    alloc: Global,
    bump: &Bump,
    document: &Document,
) -> Result<(), Fault> {
    let window = Window::tile(0, 0)?;
    let scene = Scene::build(bump, document, &window)?;
    let sight = Sight {
        document,
        window: &window,
        items: scene.display_list(),
    };
    measure_sight(rt, alloc, sight)
}

/// Measures all ways.
fn measure_sight<R: Clock + Print + Threads + Sync>(
    rt: &R,
    alloc: Global,
    sight: Sight<'_>,
) -> Result<(), Fault> {
    println!(rt; "    {} shown", sight.items.len())?;
    measure_rounds(rt, alloc, sight, &OF_ITEMS)?;
    measure_rounds(rt, alloc, sight, &OF_DOCUMENT)
}

/// Measures each way in rounds, and prints what was measured.
fn measure_rounds<R: Clock + Print + Threads + Sync>(
    rt: &R,
    alloc: Global,
    sight: Sight<'_>,
    ways: &[Named; 4],
) -> Result<(), Fault> {
    let mut times = [[0; ROUNDS]; 4];
    for round in 0..ROUNDS {
        time_each(rt, alloc, sight, ways, &mut times, round)?;
    }
    report(rt, ways, &mut times)
}

/// Times each way once.
fn time_each<R: Clock + Threads + Sync>(
    rt: &R,
    alloc: Global,
    sight: Sight<'_>,
    ways: &[Named; 4],
    times: &mut [Times; 4],
    round: usize,
) -> Result<(), Fault> {
    for ((_name, way), times) in ways.iter().zip(times) {
        let time = time_way(rt, alloc, sight, *way)?;
        if let Some(place) = times.get_mut(round) {
            *place = time;
        }
    }
    Ok(())
}

/// Prints the least and the middle of the times of each way, and what part they are of the first one's.
fn report<R: Print>(rt: &R, ways: &[Named; 4], times: &mut [Times; 4]) -> Result<(), Fault> {
    let whole = least_and_middle(&mut times[0]);
    for ((name, _way), times) in ways.iter().zip(times) {
        print_part(rt, name, least_and_middle(times), whole)?;
    }
    Ok(())
}

fn print_part<R: Print>(
    rt: &R,
    name: &str,
    (least, middle): (u64, u64),
    (whole_least, whole_middle): (u64, u64),
) -> Result<(), Fault> {
    let (part, least_part) = (percent(middle, whole_middle), percent(least, whole_least));
    print!(rt; "    {name}: middle {middle} ns ({part} %), ")?;
    println!(rt; "least {least} ns ({least_part} %)")?;
    Ok(())
}

/// How many hundredths of a whole a part is, rounded down; the whole counts as 1 where it is 0.
fn percent(part: u64, whole: u64) -> u64 {
    part.saturating_mul(100) / whole.max(1)
}

/// The nanoseconds that a picture takes, with an arena for scenes.
fn time_way<R: Clock + Threads + Sync>(
    rt: &R,
    alloc: Global,
    sight: Sight<'_>,
    way: Way,
) -> Result<u64, Fault> {
    let mut bump = Bump::new(alloc);
    let start = now(rt);
    let painted = paint_times(rt, alloc, &mut bump, sight, way);
    let took = since(rt, start) / u64::from(TIMES);
    drop(bump);
    painted?;
    Ok(took)
}

/// Paints a picture some times.
fn paint_times<R: Threads + Sync>(
    rt: &R,
    alloc: Global,
    bump: &mut Bump,
    sight: Sight<'_>,
    way: Way,
) -> Result<(), Fault> {
    for _ in 0..TIMES {
        paint_once(rt, alloc, bump, sight, way)?;
        // Nothing borrows the arena any more, so a reset can't fail.
        let _ = bump.reset();
    }
    Ok(())
}

/// Paints a picture, with an arena for the scene of a document.
fn paint_once<R: Threads + Sync>(
    rt: &R,
    alloc: Global,
    bump: &Bump,
    sight: Sight<'_>,
    way: Way,
) -> Result<(), Fault> {
    match way {
        Way::OneStrip => {
            paint_strip(alloc, sight.items, sight.window, 0, sight.window.h())?;
            Ok(())
        }
        Way::Workers(workers) => {
            paint(rt, alloc, sight.items, sight.window, workers, &FreeGate)?;
            Ok(())
        }
        Way::UpTo(workers) => paint_document(rt, alloc, bump, sight, workers),
    }
}

/// Paints a picture of a document with up to so many workers.
fn paint_document<R: Threads + Sync>(
    rt: &R,
    alloc: Global,
    bump: &Bump,
    sight: Sight<'_>,
    workers: u32,
) -> Result<(), Fault> {
    let mut out = Vec::new(alloc);
    let workers = workers.max(1).min(16);
    let Sight {
        document,
        window,
        ..
    } = sight;
    let painted = append_picture(rt, alloc, bump, document, window, workers, &mut out);
    drop(out);
    Ok(painted?)
}
