//! Lists made of all their items at once: what they have, where their numbers stand, and how they are
//! taken away.

ghost use Rattle.std.specs.Prelude.{◌≡◌, ◌<◌, ◌≤◌, length};
ghost use Rattle.std.specs.List.Sorted.{IsNonDecreasingBy, IsPartitionPoint};

use crate::asserts::holds_at;
use crate::changes::Both;
use crate::in_place::{clone_of, first_evens};
use crate::numbers::{NumberItem, Numbers};
use crate::picks::Pick;
use canvas_list::{FoundRange, Hint, ItemChange};
use std::alloc::Global;
use std::process::Abort;

fn hint_of(major: u32) -> Hint {
    Hint { major, minor: 0 }
}

fn number_of(item: Option<&NumberItem>) -> Option<u32> {
    match item {
        Some(item) => Some(item.value().value),
        None => None,
    }
}

// Where the first number stands that is no less than another, searched from the front and begun
// where a hint points to, and that number.
fn places_of(list: &Numbers, hint: u32, least: u32) -> (usize, usize, Option<u32>)
    requires { IsNonDecreasingBy (λ number. number.value) list.now }
    ensures place { IsPartitionPoint (λ number. number.value < least)
        (λ number. least ≤ number.value) list.now result.0 }
    ensures near { IsPartitionPoint (λ number. number.value < least)
        (λ number. least ≤ number.value) list.now result.1 }
{
    let is_less = |number: &NumberItem| number.value().value < least;
    let place = list.partition_point(is_less);
    let near = list.partition_point_near(hint_of(hint), is_less);
    let found = list.found_near(hint_of(hint), is_less);
    (place, near, number_of(found.item))
}

fn number_at(list: &Numbers, place: usize) -> Option<u32> {
    number_of(list.get(place))
}

// Where a number stands in a list of so many even numbers, or the next one if it is odd.
fn place_in(count: u32, value: u32) -> usize {
    (value as usize).div_ceil(2).min(count as usize)
}

// Whether the numbers from one up to another stand where they should, wherever the searches for
// both ends begin, and the reader gives the first of them.
fn finds_range(list: &Numbers, count: u32, least: u32, end: u32, [from, to]: [u32; 2]) -> bool {
    let FoundRange {
        start,
        end: behind,
        mut reader,
    } = list.range_near(
        hint_of(from),
        |number| number.value().value < least,
        hint_of(to),
        |number| number.value().value < end,
    );
    let mut found = start == place_in(count, least);
    found &= behind == place_in(count, end);
    if start < behind {
        found &= number_at(list, start) == Some(reader.at(start).value().value);
    }
    found
}

// Whether a number is found, wherever the search for it begins.
fn finds(list: &Numbers, count: u32, value: u32) -> bool
    requires { IsNonDecreasingBy (λ number. number.value) list.now }
{
    let (half, next) = (value / 2, value.saturating_add(3));
    let place = place_in(count, value);
    let wanted = (place, place, number_at(list, place));
    let mut found = places_of(list, value, value) == wanted;
    found &= places_of(list, half, value) == wanted;
    found &= places_of(list, u32::MAX, value) == wanted;
    found &= finds_range(list, count, value, next, [value, next]);
    found &= finds_range(list, count, half, value, [half, value]);
    found &= finds_range(list, count, half, value, [value, half]);
    found
}

// Whether each number stands where it should, and each odd one before the next even one.
fn finds_all(list: &Numbers, count: u32) -> bool
    requires rising { IsNonDecreasingBy (λ number. number.value) list.now }
    requires few { count ≤ 100000 }
{
    let mut found = true;
    for value in 0..2 * count + 3 {
        found &= finds(list, count, value);
    }
    found
}

// Takes the number in the middle away, and compares the rest now and then.
fn take_middle(rt: &impl Abort, alloc: Global, rest: &mut Both, count: u32) {
    let at = rest.plain.len() / 2;
    if at < rest.list.len() {
        let change = ItemChange::Remove;
        rest.change(rt, alloc, Pick { at, change });
        if rest.list.len() % 50 == 0 {
            rest.check(rt, "going: items", count);
        }
    }
}

// Asserts that a list is right while all of it is taken away from its middle.
fn check_going(rt: &impl Abort, alloc: Global, mut rest: Both, count: u32) {
    for _ in 0..count {
        take_middle(rt, alloc, &mut rest, count);
    }
    holds_at(rt, "nothing left of", count, rest.list.is_empty());
    drop(rest);
}

// Asserts that a list of so many numbers is right, made at once and taken away.
fn check_made(rt: &impl Abort, alloc: Global, count: u32)
    requires { count ≤ 100000 }
{
    let both = first_evens(rt, alloc, count);
    both.check(rt, "items:", count);
    holds_at(rt, "found items:", count, finds_all(&both.list, count));
    check_going(rt, alloc, clone_of(rt, alloc, &both), count);
    drop(both);
}

#[test]
fn lists_made_at_once(rt: HostRuntime) {
    for count in [
        0u32, 1, 5, 6, 7, 23, 24, 25, 95, 96, 97, 383, 384, 385, 1_535, 1_536, 1_537, 3_000, 6_144,
    ] {
        check_made(&rt, rt.alloc(), count);
    }
}
