//! How many strips a picture is worth: to start a thread costs more than to paint a light picture.

ghost use Rattle.std.specs.Prelude.{◌≡◌, ◌≤◌, ◌<◌, length, true};
ghost use Rattle.canvas_paint.specs.Workers.{are_workers};

use crate::item::Item;
use canvas_plane::{PageBox, Point, Window};
use canvas_shape::Carried;

// About how many nanoseconds of painting pay for one more thread. This and the other costs are
// estimates, from what threads and tiles of few and of many shapes were measured to take.
const STRIP: u64 = 120_000;
// About how many nanoseconds an item takes, and what a row of an ellipse or a polygon, a vertex,
// and a row that an edge of a polygon meets add to that.
const ITEM: u64 = 900;

const ROW: u64 = 30;

const VERTEX: u64 = 20;

const CROSSING: u64 = 3;

/// How many strips a picture is worth, of as many as there are workers for. It goes over the items
/// once, and no further than is needed to know that all the workers pay.
pub(crate) fn strips_worth(items: &[Item<'_>], window: &Window, workers: u32) -> u32
    requires { are_workers workers ≡ true }
    ensures some { are_workers result ≡ true }
    ensures most { result ≤ workers }
{
    let most = workers.min(window.h());
    let enough = STRIP * most as u64;
    let mut cost = 0_u64;
    for item in items {
        if enough <= cost {
            return most;
        }
        cost = cost.saturating_add(cost_of(item, window));
    }
    strips_for(cost, most)
}

// How many strips pay at a cost, 1 at least.
fn strips_for(cost: u64, most: u32) -> u32
    requires { are_workers most ≡ true }
    ensures some { are_workers result ≡ true }
    ensures most { result ≤ most }
{
    (cost / STRIP).min(most as u64).max(1) as u32
}

// About how many nanoseconds an item takes: of its rows only those count that its clip leaves.
fn cost_of(item: &Item<'_>, window: &Window) -> u64 {
    let clip = &item.clip;
    match &item.leaf {
        Carried::Rect(_) => ITEM,
        Carried::Ellipse(sides) => ITEM + ROW * rows_between(sides.top, sides.bottom, clip, window),
        Carried::Polygon(vertices) => {
            let bounds = &vertices.bounds;
            let rows = ROW * rows_between(bounds.top, bounds.bottom, clip, window);
            cost_of_edges(vertices.points, clip, window).saturating_add(ITEM + rows)
        }
    }
}

// About how many nanoseconds the edges of a polygon take in the rows of a clip.
fn cost_of_edges(points: &[Point], clip: &PageBox, window: &Window) -> u64
    requires { 0 < length points.now }
{
    let mut cost = 0_u64;
    let mut from = row_at(points[points.len() - 1].y, clip, window);
    for to in points {
        let row = row_at(to.y, clip, window);
        cost = cost.saturating_add(VERTEX + CROSSING * from.abs_diff(row));
        from = row;
    }
    cost
}

// How many rows of a window and of a clip lie between two heights of the page, in either order.
fn rows_between(one: i64, other: i64, clip: &PageBox, window: &Window) -> u64
    ensures { result ≤ 256 }
{
    row_at(one, clip, window).abs_diff(row_at(other, clip, window))
}

// How many rows of a window lie above a height of the page, or above the end of a clip that is nearer.
fn row_at(height: i64, clip: &PageBox, window: &Window) -> u64
    ensures { result ≤ 256 }
{
    window.rows_before(height.max(clip.top).min(clip.bottom)) as u64
}
