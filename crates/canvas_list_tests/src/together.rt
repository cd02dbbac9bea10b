//! Changes of two lists at once, beside clones that stay.

ghost use Rattle.canvas_list.specs.Changed.{IsPositionOf};

use crate::asserts::holds_at;
use crate::changes::Both;
use crate::dice::Dice;
use crate::in_place::{change, clone_of, first_evens};
use crate::picks::{Pick, change_plain, some_change};
use crate::reader::reads_on;
use canvas_list::ListChange;
use std::alloc::Global;
use std::process::Abort;

// Whether lists have the numbers of their plain ones, as a reader reads them.
fn have(first: &Both, second: &Both) -> bool {
    reads_on(&first.list, &first.plain) & reads_on(&second.list, &second.plain)
}

/// Ends the test with these words and a number unless lists have the numbers of their plain ones.
pub(crate) fn check_both(rt: &impl Abort, what: &str, number: u32, first: &Both, second: &Both) {
    holds_at(rt, what, number, have(first, second));
}

// Changes both lists.
fn change_both(
    rt: &impl Abort,
    alloc: Global,
    first: &mut Both,
    second: &mut Both,
    pick: Pick,
    other: Pick,
)
    requires first { IsPositionOf pick.change pick.at first.old.list }
    requires second { IsPositionOf other.change other.at second.old.list }
{
    change_plain(rt, &mut first.plain, &pick);
    change_plain(rt, &mut second.plain, &other);
    let also = ListChange::At(other.at, other.change);
    first
        .list
        .change_both(alloc, pick.at, pick.change, &mut second.list, also)
        .expect(rt, "memory");
}

// A change of each list, and then one of both at once.
fn change_in_turn(
    rt: &impl Abort,
    alloc: Global,
    dice: &mut Dice,
    first: &mut Both,
    second: &mut Both,
) {
    change(rt, alloc, dice, first, 6);
    change(rt, alloc, dice, second, 6);
    let pick = some_change(rt, alloc, dice, &first.list, 6);
    let also = some_change(rt, alloc, dice, &second.list, 6);
    change_both(rt, alloc, first, second, pick, also);
}

fn changes_in_turn(
    rt: &impl Abort,
    alloc: Global,
    dice: &mut Dice,
    first: &mut Both,
    second: &mut Both,
) {
    for round in 0..40u32 {
        change_in_turn(rt, alloc, dice, first, second);
        check_both(rt, "change", round, first, second);
    }
}

// A list of no numbers, or a clone of one of two.
fn some_clone(rt: &impl Abort, alloc: Global, first: &Both, second: &Both, turn: u32) -> Both {
    match turn % 3 {
        0 => first_evens(rt, alloc, 0),
        1 => clone_of(rt, alloc, first),
        _ => clone_of(rt, alloc, second),
    }
}

fn turn_of(
    rt: &impl Abort,
    alloc: Global,
    dice: &mut Dice,
    first: &mut Both,
    second: &mut Both,
    turn: u32,
) {
    let clone = some_clone(rt, alloc, first, second, turn);
    changes_in_turn(rt, alloc, dice, first, second);
    first.check(rt, "first: turn", turn);
    second.check(rt, "second: turn", turn);
    clone.check_last(rt, "clone: turn", turn);
}

// Changes of two lists, in turns with no clone, with one of the first and with one of the second. The
// first begins with so many numbers.
fn changes_from(rt: &impl Abort, alloc: Global, dice: &mut Dice, count: u32) {
    let mut first = first_evens(rt, alloc, count);
    let mut second = first_evens(rt, alloc, 400);
    for turn in 0..9u32 {
        turn_of(rt, alloc, dice, &mut first, &mut second, turn);
    }
    first.check_last(rt, "first, of", count);
    second.check_last(rt, "second, beside", count);
}

const COUNTS: [u32; 6] = [0, 1, 7, 300, 1_500, 3_000];

#[test]
fn two_lists_change_at_once(rt: HostRuntime) {
    let alloc = rt.alloc();
    let mut dice = Dice { state: 8_642 };
    for count in &COUNTS {
        changes_from(&rt, alloc, &mut dice, *count);
    }
}
