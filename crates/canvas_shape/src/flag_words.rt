//! Words of 64 edge flags, and what follows from them for 64 columns.

ghost use Rattle.std.specs.Prelude.{◌≡◌, ◌≤◌, ◌<◌, ◌+◌, ℕ, false, true, ◌==◌};
ghost use Rattle.canvas_plane.specs.Motion.{not_same};
ghost use Rattle.canvas_shape.specs.Flags.{is_odd_among};
ghost use Rattle.canvas_shape.specs.Words.{has};

/// The places from which on an odd number of the word's bits stand.
pub(crate) fn odd_from(word: u64) -> u64
    ensures { (i : ℕ) → has result i ≡ is_odd_among (has word) i 64 }
{
    if word == 0 {
        return 0;
    }
    let two = folded(word, 1);
    let four = folded(two, 2);
    let eight = folded(four, 4);
    let sixteen = folded(eight, 8);
    let half = folded(sixteen, 16);
    folded(half, 32)
}

// Each bit, turned over where the one so many places higher stands.
fn folded(word: u64, by: u32) -> u64
    requires { by < 64 }
    ensures { (i : ℕ) → has result i ≡ not_same (has word i) (has word (i + by)) }
{
    word ^ (word >> by)
}

/// The word, turned over where the first bit of the next one stands.
pub(crate) fn carried(word: u64, next: u64) -> u64
    ensures { (i : ℕ) → i < 64 → has result i ≡ not_same (has word i) (has next 0) }
{
    if is_first(next) { !word } else { word }
}

/// Whether the first bit stands.
pub(crate) fn is_first(word: u64) -> bool
    ensures { result ≡ has word 0 }
{
    word % 2 == 1
}

/// The word with one bit turned over.
pub(crate) fn flipped(word: u64, at: u32) -> u64
    requires { at < 64 }
    ensures { (i : ℕ) → has result i ≡ not_same (has word i) (i == at) }
{
    word ^ (1 << at)
}

/// The place of the lowest bit of a word that has one.
pub(crate) fn lowest(word: u64) -> u32
    requires { 0 < word }
    ensures within { result < 64 }
    ensures there { has word result ≡ true }
    ensures before { (i : ℕ) → i < result → has word i ≡ false }
{
    word.trailing_zeros()
}
