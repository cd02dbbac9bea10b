//! Times the row spans of leaves: the microseconds of the 256 rows of a window.

ghost use Rattle.std.specs.Prelude.{◌≤◌, ◌<◌, ◌^◌, All, length};
ghost use Rattle.canvas_plane.specs.Motion.{size_of};

mod rows;
mod vertices;

use crate::fault::Fault;
use crate::times::{least_and_middle, now, since, warm_up};
use canvas_plane::Pose;
use canvas_shape::Carried;
use rows::{Memory, Way};
use vertices::{Outline, vertices};

/// How often all rows of a leaf are timed together.
const TURNS: u32 = 16;

/// How many such times are taken.
const SAMPLES: usize = 401;

/// The polygons: what each is called, and its outline.
const POLYGONS: [(&str, Outline); 5] = [
    ("polygon round", Outline::Round),
    ("polygon of 128 rays", Outline::Rays),
    ("polygon of scattered vertices", Outline::Scattered),
    ("polygon of crossing edges", Outline::Crossing),
    ("polygon with frayed sides", Outline::Frayed),
];

/// Times the rows of leaves of each kind.
pub fn time_all(rt: &HostRuntime) -> Result<(), Fault> {
    warm_up(rt);
    let mut memory = Memory::new(rt.alloc());
    time_boxes(rt, &mut memory)?;
    time_polygons(rt, &mut memory)
}

fn time_boxes(rt: &HostRuntime, memory: &mut Memory) -> Result<(), Fault> {
    let pose = Pose {
        dx: 10,
        dy: 5,
        quarter: 0,
        flip: false,
    };
    let rectangle = Carried::rect(&pose, 200, 240);
    time(
        rt,
        memory,
        "rectangle of 200 by 240",
        &rectangle,
        Way::RowByRow,
    )?;
    let ellipse = Carried::ellipse(&pose, 200, 240);
    time(rt, memory, "ellipse of 200 by 240", &ellipse, Way::RowByRow)
}

fn time_polygons(rt: &HostRuntime, memory: &mut Memory) -> Result<(), Fault> {
    for (name, outline) in &POLYGONS {
        time_polygon(rt, memory, name, *outline)?;
    }
    Ok(())
}

fn time_polygon(
    rt: &HostRuntime,
    memory: &mut Memory,
    name: &str,
    outline: Outline,
) -> Result<(), Fault> {
    let points = vertices(rt.alloc(), outline)?;
    time_both_ways(rt, memory, name, &Carried::polygon(&points))
}

fn time_both_ways(
    rt: &HostRuntime,
    memory: &mut Memory,
    name: &str,
    leaf: &Carried<'_>,
) -> Result<(), Fault> {
    time(rt, memory, name, leaf, Way::RowByRow)?;
    time(rt, memory, name, leaf, Way::Together)
}

// Prints the median and the least time of a leaf's rows.
fn time(
    rt: &HostRuntime,
    memory: &mut Memory,
    name: &str,
    leaf: &Carried<'_>,
    way: Way,
) -> Result<(), Fault> {
    let mut times = [0; SAMPLES];
    for time in &mut times {
        *time = sample(rt, memory, leaf, way)?;
    }
    let (least, median) = least_and_middle(&mut times);
    print!(rt; "{name}, {}: ", way.name())?;
    print_times(rt, median, least, memory.out.len())
}

fn print_times(rt: &HostRuntime, median: u64, least: u64, spans: usize) -> Result<(), Fault> {
    print_hundredths(rt, "", median)?;
    print_hundredths(rt, " microseconds, at least ", least)?;
    println!(rt; "; {spans} spans")?;
    Ok(())
}

// Prints words, and nanoseconds as microseconds and their hundredths.
fn print_hundredths(rt: &HostRuntime, words: &str, time: u64) -> Result<(), Fault> {
    let (whole, hundredths) = (time / 1000, time % 1000 / 10);
    print!(rt; "{words}{whole}.{hundredths:02}")?;
    Ok(())
}

// The nanoseconds of all rows of a leaf.
fn sample(
    rt: &HostRuntime,
    memory: &mut Memory,
    leaf: &Carried<'_>,
    way: Way,
) -> Result<u64, Fault> {
    let start = now(rt);
    for _ in 0..TURNS {
        memory.take_rows(leaf, way)?;
    }
    Ok(since(rt, start) / u64::from(TURNS))
}
