//! Boxes of whole pixels.

ghost use Rattle.std.specs.Prelude.{◌≡◌, ◌&&◌, ◌↔◌, ℤ, false, int_le, int_lt, IsTrue};
ghost use Rattle.std.specs.Int.{int_max, int_min};
ghost use Rattle.canvas_plane.specs.declared.PageBox.{PageBox};
ghost use Rattle.canvas_plane.specs.Page.{is_in, is_empty_box, meet_of, hull_of, joined, IsWithin};

use crate::PageBox;

impl PageBox {
    /// The box that holds nothing.
    pub const EMPTY: PageBox = PageBox {
        left: 0,
        top: 0,
        right: 0,
        bottom: 0,
    };

    /// Whether the box holds a pixel.
    pub fn holds(&self, x: i64, y: i64) -> bool
        ensures { result ≡ is_in self.now x y }
    {
        let is_across = is_from_to(self.left, x, self.right);
        let is_down = is_from_to(self.top, y, self.bottom);
        is_across && is_down
    }

    /// Whether the box holds no pixel.
    pub fn is_empty(&self) -> bool
        ensures value { result ≡ is_empty_box self.now }
        ensures nothing { IsTrue result ↔ ((x y : ℤ) → is_in self.now x y ≡ false) }
    {
        is_without_pixel(self)
    }

    /// The pixels that both boxes hold.
    pub fn meet(&self, other: &PageBox) -> PageBox
        ensures value { result ≡ meet_of self.now other.now }
        ensures exact { (x y : ℤ) → is_in result x y ≡ (is_in self.now x y && is_in other.now x y) }
    {
        common(self, other)
    }

    /// The least box that holds what either box holds. An empty box adds nothing; of two empty
    /// boxes it is 0, 0, 0, 0.
    pub fn hull(&self, other: &PageBox) -> PageBox
        ensures value { result ≡ hull_of self.now other.now }
        ensures first { IsWithin self.now result }
        ensures second { IsWithin other.now result }
        ensures least { (outer : PageBox) → IsWithin self.now outer → IsWithin other.now outer
            → IsWithin result outer }
    {
        if self.is_empty() {
            if other.is_empty() {
                PageBox::EMPTY
            } else {
                *other
            }
        } else if other.is_empty() {
            *self
        } else {
            joined(self, other)
        }
    }
}

fn is_without_pixel(shape: &PageBox) -> bool
    ensures { result ≡ is_empty_box shape.now }
{
    let is_narrow = shape.right <= shape.left;
    let is_low = shape.bottom <= shape.top;
    is_narrow || is_low
}

fn common(a: &PageBox, b: &PageBox) -> PageBox
    ensures { result ≡ meet_of a.now b.now }
{
    PageBox {
        left: greater(a.left, b.left),
        top: greater(a.top, b.top),
        right: lesser(a.right, b.right),
        bottom: lesser(a.bottom, b.bottom),
    }
}

fn joined(a: &PageBox, b: &PageBox) -> PageBox
    ensures { result ≡ joined a.now b.now }
{
    PageBox {
        left: lesser(a.left, b.left),
        top: lesser(a.top, b.top),
        right: greater(a.right, b.right),
        bottom: greater(a.bottom, b.bottom),
    }
}

fn lesser(a: i64, b: i64) -> i64
    ensures { result ≡ int_min a b }
{
    a.min(b)
}

fn greater(a: i64, b: i64) -> i64
    ensures { result ≡ int_max a b }
{
    a.max(b)
}

fn is_from_to(from: i64, at: i64, to: i64) -> bool
    ensures { result ≡ (int_le from at && int_lt at to) }
{
    if from <= at { at < to } else { false }
}
