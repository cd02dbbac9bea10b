//! Edge flags: a row of up to 256 columns as the places behind which it goes from held to not held, or back.

ghost use Rattle.std.specs.Prelude.{List, ◌≡◌, ◌≤◌, ◌<◌, ◌+◌, ◌-◌, ◌*◌, ◌++◌, ℕ, ℤ, ◌+ℤ◌, ◌≤ℤ◌, pos, false, true, nat_lt, slice_index, length, take, OnOk, OnErr, IfOk};
ghost use Rattle.canvas_plane.specs.Motion.{not_same};
ghost use Rattle.canvas_shape.specs.Cuts.{spans_of};
ghost use Rattle.canvas_shape.specs.Flags.{cuts_behind, flag, held_from, is_held};
ghost use Rattle.canvas_shape.specs.Spans.{AppendsSpans};
ghost use Rattle.canvas_shape.specs.Words.{has};

use crate::Span;
use crate::flag_words::{carried, flipped, is_first, lowest, odd_from};
use crate::parts::Row;
use crate::polygon::push_piece;
use canvas_code::OutOfMemory;

/// The edge flags of a row of up to 256 columns, as plain data: bit i % 64 of word i / 64 says that
/// the row goes from held to not held, or back, behind column i. So a column is held where an odd
/// number of flags stand at it or right of it, two flags in one place cancel each other, and the
/// flags that stand are the row's cuts in order, without a sort. (Ackland and Weste, "The Edge Flag
/// Algorithm", 1981.)
#[derive(Clone, Copy, Debug)]
pub struct EdgeFlags {
    pub words: [u64; 4],
}

impl EdgeFlags {
    /// No flag: no column is held.
    pub fn none() -> EdgeFlags
        ensures { (i : ℕ) → is_held result.words i ≡ false }
    {
        EdgeFlags { words: [0; 4] }
    }

    /// The held columns: bit i of word k is column 64 k + i.
    pub fn held(&self) -> [u64; 4]
        ensures { (k i : ℕ) → k < 4 → i < 64
            → has (slice_index result k) i ≡ is_held self.now.words (64 * k + i) }
    {
        let fourth = odd_from(self.words[3]);
        let third = carried(odd_from(self.words[2]), fourth);
        let second = carried(odd_from(self.words[1]), third);
        let first = carried(odd_from(self.words[0]), second);
        [first, second, third, fourth]
    }

    /// Turns over all columns before a place: what was held is not, and the other way round.
    pub(crate) fn toggle_before(&mut self, place: usize)
        requires { place ≤ 256 }
        ensures { (i : ℕ)
            → is_held self.new.words i ≡ not_same (is_held self.old.words i) (nat_lt i place) }
    {
        if 0 < place {
            self.toggle_through((place - 1) as u8);
        }
    }

    /// Turns over all columns up to one, and that one too.
    pub(crate) fn toggle_through(&mut self, last: u8)
        ensures { (i : ℕ)
            → is_held self.new.words i ≡ not_same (is_held self.old.words i) (nat_lt i (last + 1)) }
    {
        let word = (last / 64) as usize;
        self.words[word] = flipped(self.words[word], (last % 64) as u32);
    }

    /// Appends the held columns before `width`, of which the first is the pixel `left`, as spans
    /// that rise, lie apart and are not empty. Without memory `out` stays as it was; no column
    /// wants no memory. The width is at most 256, and the columns end at 2,147,483,647 at most.
    pub fn append_spans(
        &self,
        left: i32,
        width: u32,
        out: &mut Vec<Span>,
    ) -> Result<(), OutOfMemory>
        requires wide { width ≤ 256 }
        requires range { (left +ℤ pos width) ≤ℤ pos 2147483647 }
        ensures ok { OnOk result
            (AppendsSpans out.old.items out.new.items (held_from left width self.now.words)) }
        ensures err { OnErr result (out.new.items ≡ out.old.items) }
        ensures want { OnErr result (0 < width) }
    {
        let before = out.len();
        match push_spans(self, row_from(left, width), width, out) {
            Ok(()) => Ok(()),
            Err(fault) => {
                out.truncate(before);
                Err(fault)
            }
        }
    }
}

// The row of pixels that begins at `left` and is so wide; its y is not looked at.
fn row_from(left: i32, width: u32) -> Row
    requires { (left +ℤ pos width) ≤ℤ pos 2147483647 }
    ensures left { result.left ≡ left }
    ensures right { result.right ≡ left +ℤ pos width }
{
    Row {
        y: 0,
        left,
        right: (i64::from(left) + width as i64) as i32,
    }
}

/// How far a row's spans are appended, and whether the columns from there on are held.
#[derive(Clone, Copy)]
struct Reached {
    place: u32,
    inside: bool,
}

// Appends the spans of a row. Without memory some of them may stand.
fn push_spans(
    flags: &EdgeFlags,
    row: Row,
    width: u32,
    out: &mut Vec<Span>,
) -> Result<(), OutOfMemory>
    requires wide { row.right ≡ row.left +ℤ pos width }
    ensures ok { OnOk result (out.new.items
        ≡ out.old.items
        ++ spans_of row.left (is_held flags.now.words 0) 0
        (cuts_behind width (flag flags.now.words) 0 256)) }
    ensures kept { take (length out.old.items) out.new.items ≡ out.old.items }
    ensures want { OnErr result (0 < width) }
{
    let mut reached = Reached {
        place: 0,
        inside: is_first(flags.held()[0]),
    };
    for k in 0..4 {
        reached = push_word(flags.words[k], 64 * k as u32, row, width, reached, out)?;
    }
    Ok(())
}

// Appends the spans that end behind the flags of one word, the first of which is flag `base`.
fn push_word(
    mut word: u64,
    base: u32,
    row: Row,
    width: u32,
    reached: Reached,
    out: &mut Vec<Span>,
) -> Result<Reached, OutOfMemory>
    requires small { base ≤ 192 }
    requires wide { row.right ≡ row.left +ℤ pos width }
    requires start { reached.place ≤ width }
    ensures ok { IfOk result (λ after. (rest : List ℕ)
        → out.new.items ++ spans_of row.left after.inside after.place rest
        ≡ out.old.items
        ++ spans_of row.left reached.inside reached.place
        (cuts_behind width (λ j. has word (j - base)) base 64 ++ rest)) }
    ensures place { IfOk result (λ after. after.place ≤ width) }
    ensures kept { take (length out.old.items) out.new.items ≡ out.old.items }
    ensures want { OnErr result (0 < width) }
{
    let mut place = reached.place;
    let mut inside = reached.inside;
    while word != 0 {
        let at = lowest(word);
        let cut = (base + at + 1).min(width);
        push_piece(row, inside, place, cut, out)?;
        place = cut;
        inside = !inside;
        word = flipped(word, at);
    }
    Ok(Reached { place, inside })
}
