//! Times scenes and their painting, beside filling the same tiles with a ready row.

mod tiles;

use crate::drawings::{Part, drawn};
use crate::fault::Fault;
use crate::times::warm_up;
use canvas_doc::Document;
use tiles::{Cost, Memory, mean};

/// The documents: what each is called; its seed, its parts and how many they are; how far from the
/// origin its tiles lie at most, and how many they are.
const DOCUMENTS: [(&str, (u64, Part, u32), u32, u32); 5] = [
    ("10 rectangles", (1, Part::Large, 10), 500, 400),
    (
        "1,000 mixed shapes in nested frames, some 30 of which meet a tile",
        (2, Part::Nest(1_050), 40),
        600,
        60,
    ),
    (
        "1,000 mixed shapes in nested frames, some 45 of which meet a tile",
        (2, Part::Nest(900), 40),
        600,
        60,
    ),
    (
        "200 polygons of 256 vertices",
        (3, Part::Star, 200),
        800,
        20,
    ),
    (
        "4,000 records in heavy overdraw",
        (4, Part::Group, 400),
        250,
        4,
    ),
];

/// Times the tiles of each document.
pub fn time_all(rt: &HostRuntime) -> Result<(), Fault> {
    warm_up(rt);
    for (name, document, across, tiles) in &DOCUMENTS {
        time(rt, name, *document, *across, *tiles)?;
    }
    Ok(())
}

// Times some tiles of a document, which is told by its seed, its parts and how many they are.
fn time(
    rt: &HostRuntime,
    name: &str,
    (seed, part, parts): (u64, Part, u32),
    across: u32,
    tiles: u32,
) -> Result<(), Fault> {
    let drawing = drawn(rt.alloc(), seed, part, parts)?;
    report(rt, name, &drawing.document, across, tiles)
}

// Prints what tiles of a document cost, of which the left and top edges lie within `across` of the origin.
fn report(
    rt: &HostRuntime,
    name: &str,
    document: &Document,
    across: u32,
    tiles: u32,
) -> Result<(), Fault> {
    let cost = cost_of(rt, document, across, tiles)?;
    let (records, items) = (document.count(), cost.items);
    print!(rt; "{name}: {records} records, {items} items a tile; ")?;
    print_times(rt, cost)?;
    print_ratios(rt, cost)
}

// The mean cost of tiles, with an arena of their own.
fn cost_of(rt: &HostRuntime, document: &Document, across: u32, tiles: u32) -> Result<Cost, Fault> {
    let mut memory = Memory::new(rt.alloc());
    mean(rt, &mut memory, document, across, tiles)
}

fn print_times(rt: &HostRuntime, cost: Cost) -> Result<(), Fault> {
    let Cost {
        filling,
        scene,
        painting,
        ..
    } = cost;
    print!(rt; "filling {filling} ns, scene {scene} ns, painting {painting} ns; ")?;
    Ok(())
}

fn print_ratios(rt: &HostRuntime, cost: Cost) -> Result<(), Fault> {
    let both = share(cost.filling, cost.scene.saturating_add(cost.painting));
    let alone = share(cost.filling, cost.painting);
    println!(rt; "ratios {both} of 1000, painting alone {alone}")?;
    Ok(())
}

// How many thousandths one time is of another; 0 where that is 0.
fn share(part: u64, whole: u64) -> u64 {
    part.saturating_mul(1000).checked_div(whole).unwrap_or(0)
}
