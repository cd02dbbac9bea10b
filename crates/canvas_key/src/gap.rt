//! The key between two keys.
ghost use Rattle.std.specs.Prelude.{◌≡◌, ◌<◌, ◌≤◌, ◌↔◌, None, Some, length, slice_index, IfOk, IsErr, IsOk, Err, MatchResult, Ok, Option, List, ℕ};
ghost use Rattle.std.specs.Option.{option_copied};
ghost use Rattle.canvas_key.specs.Order.{AreApart, IsAbove, IsBelow};
ghost use Rattle.canvas_key.specs.Text.{IsKey, IsKeyOrNone, integer_part, integer_part_len};
ghost use Rattle.canvas_key.specs.Part.{IsPart};
ghost use Rattle.canvas_key.specs.Between.{key_between, key_text, LiesBetween, split_part, text_between, over_least};

use super::middle::{Draft, push_midpoint_above, push_midpoint_between};
use super::part::{decrease, increase};
use super::spaced::first_fresh;
use super::text::{integer_part_len, is_least};
use super::{KEY_LIMIT, Key, KeyFault};
use arrayvec::ArrayVec;

/// The key strictly between two others, either of which may be left out: `generateKeyBetween` of
/// rocicorp's fractional-indexing, with the 62 digits `0`..`9`, `A`..`Z`, `a`..`z`. Equal ends give equal
/// keys, byte for byte.
///
/// It differs from the library in three places: below `A` and 25 zeros and `1` it answers `A`, 26 zeros and
/// `V`, where the library gives a text that it does not read as a key; a key is no longer than 128 bytes; and
/// the midpoint's padding is as `midpoint_between` of `specs/` says, whatever a release of the library does.
///
/// Its only refusal is `NoRoom`, where that key has more than 128 bytes.
pub fn between(low: Option<&Key>, high: Option<&Key>) -> Result<Key, KeyFault>
    requires { AreApart (option_copied low) (option_copied high) }
    ensures exact { result ≡ key_between (option_copied low.entry) (option_copied high.entry) }
    ensures no_room { IsErr result
        ↔ (128 < length (key_text (option_copied low.entry) (option_copied high.entry))) }

    ensures key { IfOk result IsKey }
    ensures above { IfOk result (λ key. IsAbove (option_copied low.entry) key) }
    ensures below { IfOk result (λ key. IsBelow (option_copied high.entry) key) }
{
    let mut key = first_fresh();
    key.make_between(low, high)?;
    Ok(key)
}

impl Key {
    /// Turns the key into the one between two others, where it lies: what `between` gives, with no
    /// move of a key. Where that is refused, the key stays.
    pub fn make_between(&mut self, low: Option<&Key>, high: Option<&Key>) -> Result<(), KeyFault>
        requires { AreApart (option_copied low) (option_copied high) }
        ensures exact { MatchResult result
            (λ _. key_between (option_copied low.entry) (option_copied high.entry) ≡ Ok self.new)
            (λ fault. key_between (option_copied low.entry) (option_copied high.entry)
            ≡ Err fault) }
        ensures no_room { IsErr result
            ↔ (128 < length (key_text (option_copied low.entry) (option_copied high.entry))) }
        ensures kept { IsErr result → self.new ≡ self.old }
        ensures key { IsOk result → IsKey self.new }
        ensures above { IsOk result → IsAbove (option_copied low.entry) self.new }
        ensures below { IsOk result → IsBelow (option_copied high.entry) self.new }
    {
        let mut text = ArrayVec::new();
        write_key_text(&mut text, low, high);
        if text.len() > KEY_LIMIT {
            return Err(KeyFault::NoRoom);
        }
        self.text.clear();
        // It has room for any key.
        let _fits = self.text.try_extend_from_slice(text.as_slice());
        Ok(())
    }
}

/// A law: a key that lies between two others by definition is a key, strictly between them.
pub fn defined_keys_lie_between()
    ensures { (low high : Option (List ℕ)) (key : List ℕ) → IsKeyOrNone low → IsKeyOrNone high
        → AreApart low high → key_between low high ≡ Ok key
        → IsKey key × IsAbove low key × IsBelow high key }
{}

// Each `write_..` below puts a text in place of what the draft has, so that no draft is copied.

// The text of the key between two ends.
fn write_key_text(text: &mut Draft, low: Option<&Key>, high: Option<&Key>)
    requires { AreApart (option_copied low) (option_copied high) }
    ensures lies { LiesBetween (option_copied low.entry) (option_copied high.entry) text.new.items }
    ensures exact { text.new.items ≡ key_text (option_copied low.entry) (option_copied high.entry) }
{
    match (low, high) {
        (None, None) => write_first(text),
        (None, Some(high)) => write_below(text, high.bytes()),
        (Some(low), None) => write_above(text, low.bytes()),
        (Some(low), Some(high)) => write_amid(text, low.bytes(), high.bytes()),
    }
    push_over_least(text);
}

// Adds `V` to what is the least integer part alone.
fn push_over_least(text: &mut Draft)
    ensures { text.new.items ≡ over_least text.old.items }
{
    if is_least(text.as_slice()) {
        text.push(b'V');
    }
}

// The text where there is no other key.
fn write_first(text: &mut Draft)
    ensures { text.new.items ≡ text_between None None }
{
    text.clear();
    text.push(b'a');
    text.push(b'0');
}

// The text below a key.
fn write_below(text: &mut Draft, high: &[u8])
    requires { IsKey high.now }
    ensures { text.new.items ≡ text_between None (Some high.now) }
{
    write_part(text, high);
    let len = text.len();
    if is_least(text.as_slice()) {
        push_midpoint_between(text, &[], high, len);
    } else if len == high.len() && !decrease(text) {
        write_split_above(text, high);
    }
}

// The text above a key.
fn write_above(text: &mut Draft, low: &[u8])
    requires { IsKey low.now }
    ensures { text.new.items ≡ text_between (Some low.now) None }
{
    write_part(text, low);
    if !increase(text) {
        write_split_above(text, low);
    }
}

// The text between two keys.
fn write_amid(text: &mut Draft, low: &[u8], high: &[u8])
    requires low { IsKey low.now }
    requires high { IsKey high.now }
    ensures { text.new.items ≡ text_between (Some low.now) (Some high.now) }
{
    write_part(text, low);
    if text.as_slice() == integer_part(high) {
        let len = text.len();
        push_midpoint_between(text, low, high, len);
    } else if !(increase(text) && text.as_slice().cmp(high).is_lt()) {
        write_split_above(text, low);
    }
}

// A key's integer part, and a midpoint above its fraction.
fn write_split_above(text: &mut Draft, low: &[u8])
    requires { IsKey low.now }
    ensures { text.new.items ≡ split_part low.now None }
{
    write_part(text, low);
    let len = text.len();
    push_midpoint_above(text, low, len);
}

// A key's integer part.
fn write_part(text: &mut Draft, key: &[u8])
    requires { IsKey key.now }
    ensures value { text.new.items ≡ integer_part key.now }
    ensures part { IsPart text.new.items }
    ensures long { length text.new.items ≡ integer_part_len (slice_index key.now 0) }
    ensures within { length text.new.items ≤ length key.now }
{
    text.clear();
    for byte in integer_part(key) {
        text.push(*byte);
    }
}

// A key's integer part.
fn integer_part(key: &[u8]) -> &[u8]
    requires { IsKey key.now }
    ensures value { result.now ≡ integer_part key.now }
    ensures part { IsPart result.now }
    ensures long { length result.now ≡ integer_part_len (slice_index key.now 0) }
    ensures short { length result.now ≤ 27 }
{
    &key[..integer_part_len(key[0])]
}
