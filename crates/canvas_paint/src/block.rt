//! Items as a window shows them.

ghost use Rattle.std.specs.Prelude.{◌≡◌, ℕ, ◌+◌, ◌-◌, ◌<◌, ◌≤◌, ◌%◌, ◌&&◌, false, true, IfOk, length};
ghost use Rattle.canvas_plane.specs.Page.{is_in};
ghost use Rattle.canvas_plane.specs.Window.{column_shown, row_shown};
ghost use Rattle.canvas_shape.specs.Leaves.{carried_holds, page_box_of};
ghost use Rattle.canvas_paint.specs.Items.{fill_at};
ghost use Rattle.canvas_paint.specs.Blocks.{cut_fill, form_holds, is_free};
ghost use Rattle.canvas_shape.specs.Words.{has};
ghost use Rattle.canvas_paint.specs.Words.{is_within};

use crate::item::Item;
use crate::leaf::{RowWords, ellipse_rows, polygon_rows};
use crate::word::{PIXELS, both, row_between, row_both, row_without};
use bumpalo::Bump;
use canvas_code::OutOfMemory;
use canvas_plane::{PageBox, Window};
use canvas_shape::{Carried, Colour};

/// What of a block's columns and rows is held.
#[derive(Clone, Copy)]
pub(crate) enum Form<'a> {
    Whole,
    Rows(RowWords<'a>),
}

/// An item in a window: the columns and the rows of the window that its leaf's box and its clip
/// leave, and what of them it holds.
#[derive(Clone, Copy)]
pub(crate) struct Block<'a> {
    pub from: usize,
    pub to: usize,
    pub top: usize,
    pub bottom: usize,
    pub fill: Colour,
    pub form: Form<'a>,
}

/// Pixels of a word that are held, and up to which row they are the same.
#[derive(Clone, Copy)]
pub(crate) struct Held {
    pub word: u64,
    pub until: usize,
}

// What of its box a leaf holds in the rows from one up to another. A rectangle takes no memory.
fn form_of<'a>(
    bump: &'a Bump,
    leaf: &Carried<'_>,
    window: &Window,
    top: usize,
    bottom: usize,
) -> Result<Form<'a>, OutOfMemory>
    requires rows { top < bottom }
    requires bottom { bottom ≤ window.now.h }
    ensures { IfOk result (λ form. (k j : ℕ) → k < window.now.w → top ≤ j → j < bottom
        → is_in (page_box_of leaf.now) (column_shown window.now k) (row_shown window.now j) ≡ true
        → form_holds form k j
        ≡ carried_holds leaf.now (column_shown window.now k) (row_shown window.now j)) }
{
    match leaf {
        Carried::Rect(_) => Ok(Form::Whole),
        Carried::Ellipse(sides) => Ok(Form::Rows(ellipse_rows(bump, sides, window, top, bottom)?)),
        Carried::Polygon(vertices) => Ok(Form::Rows(polygon_rows(
            bump, vertices, window, top, bottom,
        )?)),
    }
}

/// Columns and rows of a window, each from one up to another.
#[derive(Clone, Copy)]
struct Region {
    from: usize,
    to: usize,
    top: usize,
    bottom: usize,
}

impl Region {
    // The columns, and the rows from one up to another, that show pixels of a box of the page.
    fn of(sides: &PageBox, window: &Window, first: usize, end: usize) -> Region
        requires { end ≤ window.now.h }
        ensures exact { (k j : ℕ) → k < window.now.w → first ≤ j → j < end
            → (is_within result.from k result.to && is_within result.top j result.bottom)
            ≡ is_in sides.now (column_shown window.now k) (row_shown window.now j) }
        ensures bottom { result.bottom ≤ end }
        ensures right { result.to ≤ 256 }
    {
        Region {
            from: window.columns_before(sides.left),
            to: window.columns_before(sides.right),
            top: window.rows_before(sides.top).max(first),
            bottom: window.rows_before(sides.bottom).min(end),
        }
    }

    fn is_empty(&self) -> bool
        ensures none { result ≡ true → (k j : ℕ)
            → (is_within self.now.from k self.now.to && is_within self.now.top j self.now.bottom)
            ≡ false }
        ensures rows { result ≡ false → self.now.top < self.now.bottom }
    {
        self.to <= self.from || self.bottom <= self.top
    }

    // The region without the rows at its top and at its bottom in which none of its pixels is free.
    fn uncovered(self, free: &[[u64; 4]]) -> Region
        requires right { self.to ≤ 256 }
        requires bottom { self.bottom ≤ length free.now }
        ensures exact { (k j : ℕ) → k < 256 → is_free free.now k j ≡ true
            → (is_within result.from k result.to && is_within result.top j result.bottom)
            ≡ (is_within self.from k self.to && is_within self.top j self.bottom) }
        ensures right { result.to ≤ 256 }
        ensures bottom { result.bottom ≤ self.bottom }
    {
        let reach = row_between(self.from, self.to);
        let mut top = self.top;
        while top < self.bottom && row_both(free[top], reach) == [0; 4] {
            top += 1;
        }
        let mut bottom = self.bottom;
        while top < bottom && row_both(free[bottom - 1], reach) == [0; 4] {
            bottom -= 1;
        }
        Region {
            from: self.from,
            to: self.to,
            top,
            bottom,
        }
    }

    // Takes the pixels that a form holds in the region from the free ones. Those of a rectangle
    // stay free: what rectangles hide, scenes leave out.
    fn take(&self, form: &Form<'_>, free: &mut [[u64; 4]])
        requires right { self.now.to ≤ 256 }
        requires bottom { self.now.bottom ≤ length free.old }
        ensures { (k j : ℕ) → k < 256 → is_free free.old k j ≡ true
            → ((is_within self.now.from k self.now.to && is_within self.now.top j self.now.bottom)
            && form_holds form.now k j)
            ≡ false
            → is_free free.new k j ≡ true }
    {
        match form {
            Form::Whole => {}
            Form::Rows(rows) => {
                let reach = row_between(self.from, self.to);
                for j in self.top..self.bottom {
                    free[j] = row_without(free[j], row_both(rows.row(j), reach));
                }
            }
        }
    }
}

impl<'a> Block<'a> {
    /// An item in the rows of a window from one up to another, if it may hold a free pixel there.
    /// Pixels that an ellipse or a polygon holds are free no more.
    pub(crate) fn cut(
        bump: &'a Bump,
        item: &Item<'_>,
        window: &Window,
        first: usize,
        end: usize,
        free: &mut [[u64; 4]],
    ) -> Result<Option<Block<'a>>, OutOfMemory>
        requires end { end ≤ window.now.h }
        requires rows { length free.old ≡ 256 }
        ensures fill { IfOk result (λ block. (k j : ℕ) → k < window.now.w → first ≤ j → j < end
            → is_free free.old k j ≡ true
            → cut_fill block k j
            ≡ fill_at item.now (column_shown window.now k) (row_shown window.now j)) }
        ensures free { IfOk result (λ block. (k j : ℕ) → k < window.now.w
            → is_free free.old k j ≡ true → cut_fill block k j ≡ None
            → is_free free.new k j ≡ true) }
    {
        let page_box = item.leaf.page_box();
        let region = Region::of(&page_box.meet(&item.clip), window, first, end);
        let region = region.uncovered(free);
        if region.is_empty() {
            return Ok(None);
        }
        let form = form_of(bump, &item.leaf, window, region.top, region.bottom)?;
        region.take(&form, free);
        Ok(Some(Block {
            from: region.from,
            to: region.to,
            top: region.top,
            bottom: region.bottom,
            fill: item.fill,
            form,
        }))
    }

    /// Whether the block has a column of the word at a column.
    pub(crate) fn meets(&self, base: usize) -> bool
        requires { base < 256 }
        ensures { (k : ℕ) → base ≤ k → k < base + 64 → is_within self.now.from k self.now.to ≡ true
            → result ≡ true }
    {
        self.from < base + PIXELS && base < self.to
    }

    /// Whether the block has a row from one up to another.
    pub(crate) fn meets_rows(&self, first: usize, end: usize) -> bool
        ensures { (j : ℕ) → first ≤ j → j < end → is_within self.now.top j self.now.bottom ≡ true
            → result ≡ true }
    {
        self.top < end && first < self.bottom
    }

    /// How many rows the block has.
    pub(crate) fn height(&self) -> usize {
        self.bottom.saturating_sub(self.top)
    }
}

impl Form<'_> {
    /// The pixels of a word's reach that are held in each row.
    pub(crate) fn covered(&self, reach: u64) -> u64
        ensures { (i k j : ℕ) → has result i ≡ true
            → (has reach i && form_holds self.now k j) ≡ true }
    {
        match self {
            Form::Whole => reach,
            Form::Rows(_) => 0,
        }
    }

    /// The pixels of a word's reach that are held in the row `y`.
    pub(crate) fn held(&self, reach: u64, base: usize, y: usize) -> Held
        requires y { y < usize.MAX }
        requires base { base < 256 }
        requires whole { base % 64 ≡ 0 }
        ensures until { y < result.until }
        ensures exact { (i z : ℕ) → i < 64 → y ≤ z → z < result.until
            → has result.word i ≡ (has reach i && form_holds self.now (base + i) z) }
    {
        match self {
            Form::Whole => Held {
                word: reach,
                until: usize::MAX,
            },
            Form::Rows(rows) => Held {
                word: both(reach, rows.word(base, y)),
                until: y + 1,
            },
        }
    }
}
