//! Columns and rows of a plane, as bits of words: bit n is each slab whose number leaves n where
//! it is divided by 64.

ghost use Rattle.std.specs.Prelude.{◌≡◌, ◌≤◌, ◌<◌, ◌/◌, ◌%◌, ◌^◌, ◌&&◌, ◌||◌, ℕ, false, true};
ghost use Rattle.canvas_shape.specs.Words.{has};
ghost use Rattle.canvas_doc.specs.Slabs.{rank, HasSlabs, HasSlabsThrough};

/// How many coordinates a slab has: as many as a tile has pixels.
const WIDTH: u64 = 256;

/// How many slabs have a bit of their own.
const BITS: u64 = 64;

/// The slabs from one edge up to another.
pub(crate) fn slabs_between(from: i32, to: i32) -> u64
    ensures { HasSlabs from to result }
{
    let first = rank(from);
    let end = rank(to);
    if first < end {
        slabs_through(first / WIDTH, (end - 1) / WIDTH)
    } else {
        0
    }
}

// How many coordinates come before one.
fn rank(x: i32) -> u64
    ensures { result ≡ rank x }
{
    (i64::from(x) + (1 << 31)) as u64
}

// The slabs from one through another, by their numbers.
fn slabs_through(first: u64, last: u64) -> u64
    requires { first ≤ last }
    ensures { HasSlabsThrough first last result }
{
    match last / BITS - first / BITS {
        0 => both(bits_from(first % BITS), bits_through(last % BITS)),
        1 => either(bits_from(first % BITS), bits_through(last % BITS)),
        _ => u64::MAX,
    }
}

// The bits from one on.
fn bits_from(bit: u64) -> u64
    requires { bit < 64 }
    ensures { (i : ℕ) → bit ≤ i → i < 64 → has result i ≡ true }
{
    u64::MAX << bit
}

// The bits through one.
fn bits_through(bit: u64) -> u64
    requires { bit < 64 }
    ensures { (i : ℕ) → i ≤ bit → has result i ≡ true }
{
    u64::MAX >> (63 - bit)
}

// The bits of both words.
fn both(a: u64, b: u64) -> u64
    ensures { (i : ℕ) → has result i ≡ (has a i && has b i) }
{
    a & b
}

/// The bits of either word.
pub(crate) fn either(a: u64, b: u64) -> u64
    ensures { (i : ℕ) → has result i ≡ (has a i || has b i) }
{
    a | b
}

/// Whether two words may have a bit in common: no only if they have none.
pub(crate) fn share_one(a: u64, b: u64) -> bool
    ensures { result ≡ false → (i : ℕ) → has a i ≡ true → has b i ≡ false }
{
    both(a, b) != 0
}

/// Whether a word is known to have all bits of another.
pub(crate) fn has_all(a: u64, b: u64) -> bool
    ensures { result ≡ true → (i : ℕ) → has b i ≡ true → has a i ≡ true }
{
    either(a, b) == a
}
