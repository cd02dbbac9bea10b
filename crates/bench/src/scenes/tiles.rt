//! What a tile costs.

use crate::fault::Fault;
use crate::times::{now, since};
use bumpalo::Bump;
use canvas_doc::Document;
use canvas_paint::append_strip;
use canvas_plane::Window;
use canvas_scene::{Item, Scene};
use std::alloc::Global;

/// How often each tile is painted; its least times count.
const ROUNDS: u32 = 10;

/// The bytes of a tile's row.
const ROW: usize = 768;

/// Nanoseconds a tile, and how many items a tile's display list has.
#[derive(Clone, Copy)]
pub struct Cost {
    pub items: u64,
    pub scene: u64,
    pub painting: u64,
    pub filling: u64,
}

impl Cost {
    // The costs of two tiles.
    fn and(&self, other: Cost) -> Cost {
        Cost {
            items: self.items.saturating_add(other.items),
            scene: self.scene.saturating_add(other.scene),
            painting: self.painting.saturating_add(other.painting),
            filling: self.filling.saturating_add(other.filling),
        }
    }

    // The lesser of each time.
    fn least(&self, other: Cost) -> Cost {
        Cost {
            items: other.items,
            scene: self.scene.min(other.scene),
            painting: self.painting.min(other.painting),
            filling: self.filling.min(other.filling),
        }
    }

    // The cost of one of so many tiles.
    fn each(&self, count: u32) -> Cost {
        let count = u64::from(count.max(1));
        Cost {
            items: self.items / count,
            scene: self.scene / count,
            painting: self.painting / count,
            filling: self.filling / count,
        }
    }
}

/// What all tiles share: the arena of scenes, a picture, and a ready row.
#[derive(Drop)]
pub struct Memory {
    bump: Bump,
    out: Vec<u8>,
    row: [u8; ROW],
}

impl Memory {
    pub fn new(alloc: Global) -> Memory {
        Memory {
            bump: Bump::new(alloc),
            out: Vec::new(alloc),
            row: ready_row(),
        }
    }

    // The cost of one tile.
    fn tile(
        &mut self,
        rt: &HostRuntime,
        document: &Document,
        window: &Window,
    ) -> Result<Cost, Fault> {
        let Memory { bump, out, row } = self;
        let cost = time_scene(rt, bump, out, document, window)?;
        let filling = time_filling(rt, out, row)?;
        if bump.reset().is_err() {
            return Err(Fault::Arena);
        }
        Ok(Cost { filling, ..cost })
    }
}

// The bytes of a row, each another than the one before.
fn ready_row() -> [u8; ROW] {
    let mut row = [0; ROW];
    let mut next = 0u8;
    for byte in &mut row {
        *byte = next;
        next = next.wrapping_add(1);
    }
    row
}

// The costs of a tile but that of filling it.
fn time_scene(
    rt: &HostRuntime,
    bump: &Bump,
    out: &mut Vec<u8>,
    document: &Document,
    window: &Window,
) -> Result<Cost, Fault> {
    let start = now(rt);
    let scene = Scene::build(bump, document, window)?;
    let built = since(rt, start);
    let list = scene.display_list();
    let painting = time_painting(rt, list, window, out)?;
    Ok(Cost {
        items: list.len() as u64,
        scene: built,
        painting,
        filling: 0,
    })
}

// The time of painting a tile.
fn time_painting(
    rt: &HostRuntime,
    list: &[Item<'_>],
    window: &Window,
    out: &mut Vec<u8>,
) -> Result<u64, Fault> {
    out.clear();
    let start = now(rt);
    append_strip(rt.alloc(), list, window, 0, window.h(), out)?;
    Ok(since(rt, start))
}

// The time of filling a tile with the ready row.
fn time_filling(rt: &HostRuntime, out: &mut Vec<u8>, row: &[u8]) -> Result<u64, Fault> {
    let start = now(rt);
    fill(out, row)?;
    Ok(since(rt, start))
}

// Fills a tile with the ready row.
fn fill(out: &mut Vec<u8>, row: &[u8]) -> Result<(), Fault> {
    out.clear();
    out.reserve(256 * ROW)?;
    for _ in 0..256u32 {
        out.extend_from_slice(row)?;
    }
    Ok(())
}

/// The mean cost of some tiles of a document, whose left and top edges lie below `across`.
pub fn mean(
    rt: &HostRuntime,
    memory: &mut Memory,
    document: &Document,
    across: u32,
    count: u32,
) -> Result<Cost, Fault> {
    let mut all = Cost {
        items: 0,
        scene: 0,
        painting: 0,
        filling: 0,
    };
    let mut place = 7u32;
    for _ in 0..count {
        place = place.wrapping_mul(1_664_525).wrapping_add(1_013_904_223);
        let x = within(place >> 16, across);
        let y = within(place >> 8, across);
        all = all.and(least(rt, memory, document, &Window::new(x, y, 256, 256)?)?);
    }
    Ok(all.each(count))
}

// The least costs of a tile.
fn least(
    rt: &HostRuntime,
    memory: &mut Memory,
    document: &Document,
    window: &Window,
) -> Result<Cost, Fault> {
    let mut least = memory.tile(rt, document, window)?;
    for _ in 1..ROUNDS {
        least = least.least(memory.tile(rt, document, window)?);
    }
    Ok(least)
}

fn within(number: u32, size: u32) -> i32 {
    number.checked_rem(size).unwrap_or(0).min(1_000_000) as i32
}
