//! Pictures painted by several workers, a strip each.

ghost use Rattle.std.specs.Prelude.{◌≡◌, ◌<◌, ◌++◌, ℕ, Err, IfErr, IfOk, MatchBool, OnErr, OnOk, length, take, true, vec_len};
ghost use Rattle.canvas_paint.specs.Items.{last_colour};
ghost use Rattle.canvas_paint.specs.Pictures.{picture_of, rows_of};
ghost use Rattle.canvas_paint.specs.Strips.{AreStrips, IsStrip};
ghost use Rattle.canvas_paint.specs.Workers.{are_workers};
ghost use Rattle.canvas_paint.specs.declared.fault.PaintFault.TheVariants.{BadWorkers};

use crate::fault::PaintFault;
use crate::gate::{Gate, GateFor};
use crate::item::Item;
use crate::strip::{append_strip, paint_strip, strip_rows};
use crate::worth::strips_worth;
use canvas_code::OutOfMemory;
use canvas_plane::Window;
use std::alloc::Global;
use std::thread;
use std::thread::Threads;

// The k-th of n strips of a picture, painted once the gate lets it pass.
fn gated_strip<G: Gate>(
    alloc: Global,
    items: &[Item<'_>],
    window: &Window,
    k: u32,
    n: u32,
    gate: &G,
) -> Result<Vec<u8>, OutOfMemory>
    requires strip { k < n }
    requires admitted { G.admits gate.now k }
    ensures strip { IfOk result (λ bytes. IsStrip items.now window.now k n bytes.items) }
    ensures passed { G.passed gate.now k }
{
    gate.pass(k);
    let (first, end) = strip_rows(window.h(), k, n);
    paint_strip(alloc, items, window, first, end)
}

// The n strips of a picture in order, each painted by a worker of its own.
fn painted_strips<R: Threads + Sync, G: Gate + Sync>(
    rt: &R,
    alloc: Global,
    items: &[Item<'_>],
    window: &Window,
    n: u32,
    gate: &G,
) -> Result<Vec<Result<Vec<u8>, OutOfMemory>>, OutOfMemory>
    requires { (k : ℕ) → k < n → G.admits gate.now k }
    ensures len { IfOk result (λ strips. vec_len strips ≡ n) }
    ensures each { IfOk result (λ strips. AreStrips items.now window.now n strips.items) }
    ensures passed { OnOk result ((k : ℕ) → k < n → G.passed gate.now k) }
{
    let strips = thread::map_indices(
        rt,
        alloc,
        n as usize,
        &|k| { gated_strip(alloc, items, window, k as u32, n, gate) },
    )?;
    Ok(strips)
}

// Appends the n strips of a picture in order, once all of them are painted.
fn append_strips<R: Threads + Sync, G: Gate + Sync>(
    rt: &R,
    alloc: Global,
    items: &[Item<'_>],
    window: &Window,
    n: u32,
    gate: &G,
    out: &mut Vec<u8>,
) -> Result<(), OutOfMemory>
    requires some { 0 < n }
    requires admitted { (k : ℕ) → k < n → G.admits gate.now k }
    ensures ok { OnOk result (out.new.items
        ≡ out.old.items ++ rows_of (last_colour items.now) window.now 0 window.now.h) }
    ensures kept { take (length out.old.items) out.new.items ≡ out.old.items }
    ensures passed { OnOk result ((k : ℕ) → k < n → G.passed gate.now k) }
{
    let strips = painted_strips(rt, alloc, items, window, n, gate)?;
    for strip in &strips {
        match strip {
            Ok(bytes) => out.extend_from_slice(bytes.as_slice())?,
            Err(_) => return Err(OutOfMemory),
        }
    }
    Ok(())
}

// Appends the picture of items in a window, painted by so many workers, each a strip, after the
// gate. Without memory `out` is as it was.
fn append_painted<R: Threads + Sync, G: Gate + Sync>(
    rt: &R,
    alloc: Global,
    items: &[Item<'_>],
    window: &Window,
    workers: u32,
    gate: &G,
    out: &mut Vec<u8>,
) -> Result<(), OutOfMemory>
    requires workers { are_workers workers ≡ true }
    requires admitted { (k : ℕ) → k < workers → G.admits gate.now k }
    ensures ok { OnOk result (out.new.items
        ≡ out.old.items ++ rows_of (last_colour items.now) window.now 0 window.now.h) }
    ensures err { OnErr result (out.new.items ≡ out.old.items) }
    ensures passed { OnOk result ((k : ℕ) → k < workers → G.passed gate.now k) }
{
    let (width, rows) = (window.w(), window.h());
    if workers == 1 {
        gate.pass(0);
        return append_strip(alloc, items, window, 0, rows, out);
    }
    out.reserve(3 * width as usize * rows as usize)?;
    let before = out.len();
    match append_strips(rt, alloc, items, window, workers, gate, out) {
        Ok(()) => Ok(()),
        Err(fault) => {
            out.truncate(before);
            Err(fault)
        }
    }
}

/// The picture of items in a window: row by row, for each pixel red, green and blue of the last
/// item that holds it, or of white. It is painted by 1 to 16 workers, else it is `BadWorkers`.
///
/// A picture has one strip for each worker, with the rows of `strip_rows`, which may be none. Each
/// passes the gate with its number, which is below the number of workers, and is then painted: the
/// last by the caller, the others each by a thread of their own. All have ended when this returns.
/// Where it returns a picture, all have passed.
pub fn paint<R: Threads + Sync, G: Gate + Sync>(
    rt: &R,
    alloc: Global,
    items: &[Item<'_>],
    window: &Window,
    workers: u32,
    gate: &G,
) -> Result<Vec<u8>, PaintFault>
    requires { (k : ℕ) → k < workers → G.admits gate.now k }
    ensures raster { IfOk result
        (λ raster. raster.items ≡ rows_of (last_colour items.now) window.now 0 window.now.h) }
    ensures passed { OnOk result ((k : ℕ) → k < workers → G.passed gate.now k) }
    ensures refused { MatchBool (are_workers workers)
        (IfErr result (λ fault. fault ≡ PaintFault.OutOfMemory)) (result ≡ Err BadWorkers) }
{
    if workers < 1 || 16 < workers {
        return Err(PaintFault::BadWorkers);
    }
    let mut raster = Vec::new(alloc);
    append_painted(rt, alloc, items, window, workers, gate, &mut raster)?;
    Ok(raster)
}

/// Appends the picture of items in a window, the bytes of `paint`, painted by as many of 1 to 16
/// workers as pay. Without memory `out` is as it was.
pub fn append_raster<R: Threads + Sync>(
    rt: &R,
    alloc: Global,
    items: &[Item<'_>],
    window: &Window,
    workers: u32,
    out: &mut Vec<u8>,
) -> Result<(), OutOfMemory>
    requires { are_workers workers ≡ true }
    ensures ok { OnOk result
        (out.new.items ≡ out.old.items ++ picture_of (last_colour items.now) window.now) }
    ensures err { OnErr result (out.new.items ≡ out.old.items) }
{
    let strips = strips_worth(items, window, workers);
    let gate = GateFor { workers };
    append_painted(rt, alloc, items, window, strips, &gate, out)
}
