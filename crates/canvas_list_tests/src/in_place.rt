//! Changes of a list alone, and beside a clone that stays, each beside the same change of a plain list.

ghost use Rattle.std.specs.List.Sorted.{IsNonDecreasingBy};

use crate::changes::Both;
use crate::dice::Dice;
use crate::numbers::{evens, plain_evens};
use crate::picks::some_change;
use canvas_list::SharedList;
use std::alloc::Global;
use std::process::Abort;

/// The first even numbers, 100,000 at most.
pub(crate) fn first_evens(rt: &impl Abort, alloc: Global, count: u32) -> Both
    ensures { IsNonDecreasingBy (λ number. number.value) result.list }
{
    let count = count.min(100_000);
    let items = evens(alloc, count).expect(rt, "memory");
    Both {
        list: SharedList::from_vec(alloc, items).expect(rt, "memory"),
        plain: plain_evens(alloc, count).expect(rt, "memory"),
    }
}

/// A clone of the list, with the plain list of this moment.
pub(crate) fn clone_of(rt: &impl Abort, alloc: Global, both: &Both) -> Both {
    Both {
        list: both.list.try_clone(alloc).expect(rt, "memory"),
        plain: both.plain.clone().expect(rt, "memory"),
    }
}

/// A change at some place.
pub(crate) fn change(
    rt: &impl Abort,
    alloc: Global,
    dice: &mut Dice,
    both: &mut Both,
    grows: usize,
) {
    let pick = some_change(rt, alloc, dice, &both.list, grows);
    both.change(rt, alloc, pick);
}

// Some changes in turn. The numbers are compared after them.
fn changes(rt: &impl Abort, alloc: Global, dice: &mut Dice, both: &mut Both, number: u32) {
    let grows = if number % 6 < 3 { 9 } else { 3 };
    for _ in 0..50u32 {
        change(rt, alloc, dice, both, grows);
    }
    both.check(rt, "count times 12, and turn:", number);
}

// Changes of a list with no clone, and then beside one that is kept.
fn turn_of(rt: &impl Abort, alloc: Global, dice: &mut Dice, both: &mut Both, number: u32) {
    changes(rt, alloc, dice, both, number);
    let clone = clone_of(rt, alloc, both);
    changes(rt, alloc, dice, both, number);
    clone.check_last(rt, "clone, count times 12, and turn:", number);
}

// Changes of a list of so many numbers, in turns without a clone and beside one that is kept.
fn changes_from(rt: &impl Abort, alloc: Global, dice: &mut Dice, count: u32) {
    let mut both = first_evens(rt, alloc, count);
    for turn in 0..12u32 {
        let number = count.saturating_mul(12).saturating_add(turn);
        turn_of(rt, alloc, dice, &mut both, number);
    }
    both.check_last(rt, "changed, of", count);
}

const COUNTS: [u32; 10] = [0, 1, 7, 90, 96, 383, 700, 1_500, 3_000, 6_100];

#[test]
fn changes_beside_clones(rt: HostRuntime) {
    let alloc = rt.alloc();
    let mut dice = Dice { state: 2_468 };
    for count in &COUNTS {
        changes_from(&rt, alloc, &mut dice, *count);
    }
}

// A list that loses its numbers one by one, at its front, at its end and in the middle, and gets as
// many again.
fn emptied(rt: &impl Abort, alloc: Global, dice: &mut Dice, count: u32) {
    let mut both = first_evens(rt, alloc, count);
    for round in 0..count {
        remove_some(rt, alloc, dice, &mut both, round);
    }
    both.check(rt, "emptied, of", count);
    for _ in 0..count {
        change(rt, alloc, dice, &mut both, 16);
    }
    both.check_last(rt, "filled again, of", count);
}

#[test]
fn lists_become_empty(rt: HostRuntime) {
    let mut dice = Dice { state: 1_357 };
    for count in &[1, 2, 7, 100, 700] {
        emptied(&rt, rt.alloc(), &mut dice, *count);
    }
}

// Takes the first number away, the last one, or one between, if there is one.
fn remove_some(rt: &impl Abort, alloc: Global, dice: &mut Dice, both: &mut Both, round: u32) {
    let len = both.list.len();
    if len > 0 {
        let at = match round % 3 {
            0 => 0,
            1 => len - 1,
            _ => dice.below(len),
        };
        both.remove(rt, alloc, at);
    }
}
