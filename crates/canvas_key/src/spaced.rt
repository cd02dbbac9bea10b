//! The keys of a row of siblings that are spaced anew.
ghost use Rattle.std.specs.Prelude.{◌≡◌, ◌<◌, ◌≤◌, ◌+◌, ◌-◌, ◌++◌, ◌∷◌, ◌^◌, [], Some, length, ℕ, ℤ, pos, ◌<ℤ◌, List};
ghost use Rattle.canvas_key.specs.Order.{Before};
ghost use Rattle.canvas_key.specs.Text.{IsKey};
ghost use Rattle.canvas_key.specs.Part.{IsPart};
ghost use Rattle.canvas_key.specs.Rank.{digits, part_above, part_of_rank, rank_of, fresh_key};

use super::digit::digit_of;
use super::{KEY_LIMIT, Key};
use arrayvec::ArrayVec;

/// The n-th fresh key, counted from 0: the integer part of rank n, so `a0`, `a1`, .., `az`, `b00`,
/// .. These are the keys of siblings that are spaced anew, and those that fractional-indexing gives
/// one after the other from `a0` on. They rise with n.
#[inline(always)]
pub fn fresh(n: u32) -> Key
    ensures value { result ≡ fresh_key n }
    ensures rank { part_of_rank (pos n) ≡ Some result }
    ensures key { IsKey result }
{
    let mut key = first_fresh();
    key.make_fresh(n);
    key
}

/// The first fresh key, `a0`: a constant, to be put where a key shall lie, and then to be turned
/// there into another by `Key::make_fresh`.
#[inline(always)]
pub fn first_fresh() -> Key
    ensures value { result ≡ fresh_key 0 }
    ensures key { IsKey result }
{
    let mut text = ArrayVec::new();
    text.push(b'a');
    // Eight bytes written one by one are kept apart from the other 120, which then are whole words
    // to the compiler. After two bytes alone the rest would be copied by words that overlap, and
    // each such copy stalls.
    for _ in 0..7u32 {
        text.push(b'0');
    }
    text.truncate(2);
    Key { text }
}

impl Key {
    /// Turns the key into the n-th fresh key, where it lies: what `fresh` gives, with no move of a key.
    #[inline(always)]
    pub fn make_fresh(&mut self, n: u32)
        ensures { self.new ≡ fresh_key n }
    {
        write_part(&mut self.text, n);
    }
}

// Writes the integer part of a rank over a text. Parts of one and two digits, which are those of
// nearly all siblings, are written at fixed places.
#[inline(always)]
fn write_part(text: &mut ArrayVec<u8, KEY_LIMIT>, n: u32)
    requires { 2 ≤ length text.old.items }
    ensures { part_above 25 1 n ≡ Some text.new.items }
{
    if n < 62 {
        write_start(text, b'a', digit_of(n as u8));
    } else if n < 3_906 {
        let rest = n - 62;
        write_start(text, b'b', digit_of((rest / 62) as u8));
        text.push(digit_of((rest % 62) as u8));
    } else {
        write_long_part(text, n);
    }
}

// Makes a text these two bytes, where it has two or more.
#[inline(always)]
fn write_start(text: &mut ArrayVec<u8, KEY_LIMIT>, head: u8, digit: u8)
    requires { 2 ≤ length text.old.items }
    ensures { text.new.items ≡ head ∷ digit ∷ [] }
{
    text.truncate(2);
    text[0] = head;
    text[1] = digit;
}

// Writes the integer part of any rank over a text. If it made a text of its own, a caller that it
// is inlined in would clear that one on every path.
fn write_long_part(text: &mut ArrayVec<u8, KEY_LIMIT>, n: u32)
    ensures { part_above 25 1 n ≡ Some text.new.items }
{
    text.clear();
    push_part(text, 1, 62, u64::from(n));
}

// Appends the part that is `rest` places above the first one of `count` digits.
fn push_part(text: &mut ArrayVec<u8, KEY_LIMIT>, count: u8, power: u64, rest: u64)
    requires start { text.old.items ≡ [] }
    requires count { 0 < count }
    requires short { count ≤ 6 }
    requires power { power ≡ 62 ^ count }
    requires small { rest < 2 ^ 32 }
    ensures { part_above (26 - count) count rest ≡ Some text.new.items }
{
    if rest < power {
        text.push(b'a' - 1 + count);
        push_digits(text, count, power, rest);
    } else {
        push_part(text, count + 1, power * 62, rest - power);
    }
}

// Appends a number in `count` digits. The last two want no division but by 62.
fn push_digits(text: &mut ArrayVec<u8, KEY_LIMIT>, count: u8, power: u64, rest: u64)
    requires power { power ≡ 62 ^ count }
    requires small { rest < power }
    requires short { count ≤ 6 }
    requires room { length text.old.items + count ≤ 128 }
    ensures { text.new.items ≡ text.old.items ++ digits count rest }
{
    if count > 2 {
        let unit = power / 62;
        text.push(digit_of((rest / unit) as u8));
        push_digits(text, count - 1, unit, rest % unit);
    } else if count == 2 {
        text.push(digit_of((rest / 62) as u8));
        text.push(digit_of((rest % 62) as u8));
    } else if count == 1 {
        text.push(digit_of(rest as u8));
    }
}

/// A law: fresh keys rise with their numbers.
pub fn fresh_keys_rise()
    ensures { (m n : ℕ) → m < n → n < 2 ^ 32 → Before (fresh_key m) (fresh_key n) }
{}

/// A law: integer parts stand in the order of their ranks.
pub fn parts_are_in_order()
    ensures { (r s : ℤ) (low high : List ℕ) → r <ℤ s → part_of_rank r ≡ Some low
        → part_of_rank s ≡ Some high
        → Before low high }
{}

/// A law: each integer part has a rank of its own, and the part of a rank has that rank.
pub fn ranks_number_the_parts()
    ensures part { (part : List ℕ) → IsPart part → part_of_rank (rank_of part) ≡ Some part }
    ensures rank { (r : ℤ) (part : List ℕ) → part_of_rank r ≡ Some part
        → IsPart part × (rank_of part ≡ r) }
{}
