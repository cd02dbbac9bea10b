//! Texts that are no keys, fresh keys, and random insertions.

ghost use Rattle.std.specs.Prelude.{◌≡◌, ◌<◌, ◌≤◌, ◌↔◌, IsTrue, vec_len};

use crate::asserts::{holds, holds_for};
use crate::key_rows::{bad_heads, bad_long, bad_parts, fresh_numbers, keys};
use canvas_code::Coded;
use canvas_key::{Key, KeyFault, between, first_fresh, fresh};
use std::process::Abort;

// The key between two ends. Ends that are not in order get a refusal that `between` never gives.
fn between_ends(low: Option<&Key>, high: Option<&Key>) -> Result<Key, KeyFault> {
    match (low, high) {
        (Some(low), Some(high)) => {
            if low.is_before(high) {
                between(Some(low), Some(high))
            } else {
                Err(KeyFault::BadHead)
            }
        }
        (Some(low), None) => between(Some(low), None),
        (None, Some(high)) => between(None, Some(high)),
        (None, None) => between(None, None),
    }
}

// What `==` says to callers.
fn is_same(a: &Key, b: &Key) -> bool
    ensures { IsTrue result ↔ (a.now ≡ b.now) }
{
    a == b
}

// Whether a text is no key, with this fault.
fn is_refused(text: &str, fault: &str) -> bool {
    match Key::read(text.as_bytes()) {
        Ok(_) => false,
        Err(found) => found.name() == fault,
    }
}

fn assert_refused(rt: &impl Abort, what: &str, rows: &[[&str; 2]]) {
    let mut number: usize = 0;
    for [text, fault] in rows {
        holds_for(rt, what, number, is_refused(text, fault));
        number = number.saturating_add(1);
    }
}

#[test]
fn texts_that_are_no_keys(rt: HostRuntime) {
    assert_refused(&rt, "heads, row", bad_heads());
    assert_refused(&rt, "whole parts, row", bad_parts());
    assert_refused(&rt, "long texts, row", bad_long());
}

// Whether a fresh key and its copy have a text.
fn is_fresh(n: u32, want: &str) -> bool {
    let key = fresh(n);
    key.bytes() == want.as_bytes() && key.copy() == key
}

fn assert_fresh(rt: &impl Abort, rows: &[(u32, &str)]) {
    for (n, want) in rows {
        holds_for(rt, "fresh key", *n as usize, is_fresh(*n, want));
    }
}

#[test]
fn fresh_keys(rt: HostRuntime) {
    assert_fresh(&rt, fresh_numbers());
}

// Whether a key that is made the n-th fresh one has a text.
fn is_made(key: &mut Key, n: u32, want: &str) -> bool {
    key.make_fresh(n);
    key.bytes() == want.as_bytes()
}

// The same of a key with a text.
fn is_made_fresh(text: &str, n: u32, want: &str) -> bool {
    match Key::read(text.as_bytes()) {
        Ok(mut key) => is_made(&mut key, n, want),
        Err(_) => false,
    }
}

fn assert_made_fresh(rt: &impl Abort, text: &str, n: u32, want: &str) {
    assert!(rt; is_made_fresh(text, n, want), "{n} over {text}");
}

fn assert_made_over(rt: &impl Abort, texts: &[&str], n: u32, want: &str) {
    for text in texts {
        assert_made_fresh(rt, text, n, want);
    }
}

// Over keys of 2 to 128 bytes.
fn assert_made_over_keys(rt: &impl Abort, rows: &[(u32, &str)]) {
    for (n, want) in rows {
        assert_made_over(rt, keys(), *n, want);
    }
}

// Over the fresh key before it.
fn assert_made_in_turn(rt: &impl Abort, rows: &[(u32, &str)]) {
    let mut last = first_fresh();
    for (n, want) in rows.iter().rev() {
        holds_for(rt, "fresh key", *n as usize, is_made(&mut last, *n, want));
    }
}

fn is_first(text: &str) -> bool {
    first_fresh().bytes() == text.as_bytes()
}

#[test]
fn keys_made_fresh(rt: HostRuntime) {
    holds(&rt, "the first", is_first("a0"));
    assert_made_over_keys(&rt, fresh_numbers());
    assert_made_in_turn(&rt, fresh_numbers());
}

// Numbers in no order that a reader would guess, by a linear congruence.
#[derive(Drop)]
struct Numbers {
    state: u64,
}

impl Numbers {
    fn below(&mut self, limit: usize) -> usize
        requires { 0 < limit }
        ensures { result < limit }
    {
        self.state = self
            .state
            .wrapping_mul(6_364_136_223_846_793_005)
            .wrapping_add(1_442_695_040_888_963_407);
        (self.state >> 33) as usize % limit
    }
}

// The key at a place in an order.
fn key_at<'a>(keys: &'a [Key], order: &[usize], place: usize) -> Option<&'a Key> {
    keys.get(*order.get(place)?)
}

// Puts a key between two that are side by side, or at an end.
fn insert_some(rt: &impl Abort, keys: &mut Vec<Key>, order: &mut Vec<usize>, place: usize)
    requires { place ≤ vec_len order.old }
{
    let low = match place {
        0 => None,
        _ => key_at(keys, order, place - 1),
    };
    let Ok(key) = between_ends(low, key_at(keys, order, place)) else {
        assert!(rt; false, "no key at {place}");
        return;
    };
    order.insert(place, keys.len()).expect(rt, "memory");
    keys.push(key).expect(rt, "memory");
}

// Whether two keys are there, and one is before the other.
fn are_in_order(keys: &[Key], low: usize, high: usize) -> bool {
    match (keys.get(low), keys.get(high)) {
        (Some(low), Some(high)) => low.is_before(high) && low < high && !is_same(low, high),
        _ => false,
    }
}

fn assert_order(rt: &impl Abort, keys: &[Key], order: &[usize]) {
    for pair in order.windows(2) {
        holds_for(
            rt,
            "above key",
            pair[0],
            are_in_order(keys, pair[0], pair[1]),
        );
    }
}

fn push_fresh(rt: &impl Abort, keys: &mut Vec<Key>, order: &mut Vec<usize>) {
    for n in 0..1_000 {
        order.push(keys.len()).expect(rt, "memory");
        keys.push(fresh(n)).expect(rt, "memory");
    }
}

fn insert_at_random(rt: &impl Abort, keys: &mut Vec<Key>, order: &mut Vec<usize>) {
    let mut numbers = Numbers { state: 1 };
    for _ in 0..100_000 {
        let place = numbers.below(order.len() + 1);
        insert_some(rt, keys, order, place);
    }
}

#[test]
fn random_insertions(rt: HostRuntime) {
    let mut keys = Vec::new(rt.alloc());
    let mut order = Vec::new(rt.alloc());
    push_fresh(&rt, &mut keys, &mut order);
    insert_at_random(&rt, &mut keys, &mut order);
    assert_order(&rt, &keys, &order);
}
