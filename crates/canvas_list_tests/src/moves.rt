//! Moves together with a change of another list.

ghost use Rattle.std.specs.Prelude.{◌<◌};

use crate::changes::Both;
use crate::dice::Dice;
use crate::in_place::{clone_of, first_evens};
use crate::numbers::number_item;
use crate::picks::{change_plain, insert_plain, remove_plain, some_replacement};
use crate::together::check_both;
use canvas_list::ListChange;
use std::alloc::Global;
use std::process::Abort;

/// Takes the number at a position away from a plain list, and puts another in front of what then
/// stands at `to`.
pub(crate) fn move_plain(
    rt: &impl Abort,
    plain: &mut Vec<u32>,
    from: usize,
    to: usize,
    number: u32,
) {
    remove_plain(plain, from);
    insert_plain(rt, plain, to, number);
}

// Where a number goes to: far away, near, or to the front.
fn some_target(dice: &mut Dice, from: usize, len: usize) -> usize
    requires { 0 < len }
    ensures { result < len }
{
    match dice.below(4) {
        0 => dice.below(len),
        1 => 0,
        _ => from.saturating_add(dice.below(40)) % len,
    }
}

// Replaces a number of the first list and moves one of the second, if both have one.
fn move_both(
    rt: &impl Abort,
    alloc: Global,
    dice: &mut Dice,
    first: &mut Both,
    second: &mut Both,
    number: u32,
) {
    let len = second.list.len();
    if len == 0 || first.list.len() == 0 {
        return;
    }
    let from = dice.below(len);
    let to = some_target(dice, from, len);
    let pick = some_replacement(rt, alloc, dice, &first.list);
    change_plain(rt, &mut first.plain, &pick);
    move_plain(rt, &mut second.plain, from, to, number);
    let also = ListChange::Move(from, to, number_item(rt, alloc, number));
    first
        .list
        .change_both(alloc, pick.at, pick.change, &mut second.list, also)
        .expect(rt, "memory");
}

// Numbers are moved.
fn moves_in_turn(
    rt: &impl Abort,
    alloc: Global,
    dice: &mut Dice,
    first: &mut Both,
    second: &mut Both,
) {
    for round in 0..60u32 {
        move_both(rt, alloc, dice, first, second, round);
        check_both(rt, "move", round, first, second);
    }
}

// Moves in a list of so many numbers, with no clone and then beside clones of both.
fn moves_of(rt: &impl Abort, alloc: Global, dice: &mut Dice, count: u32) {
    let mut first = first_evens(rt, alloc, 400);
    let mut second = first_evens(rt, alloc, count);
    moves_in_turn(rt, alloc, dice, &mut first, &mut second);
    let clone = clone_of(rt, alloc, &first);
    let other = clone_of(rt, alloc, &second);
    moves_in_turn(rt, alloc, dice, &mut first, &mut second);
    clone.check_last(rt, "clone beside", count);
    other.check_last(rt, "clone of", count);
    first.check_last(rt, "replaced, beside", count);
    second.check_last(rt, "moved, of", count);
}

const COUNTS: [u32; 8] = [0, 1, 2, 7, 40, 300, 1_500, 3_000];

#[test]
fn moves_beside_replacements(rt: HostRuntime) {
    let alloc = rt.alloc();
    let mut dice = Dice { state: 97_531 };
    for count in &COUNTS {
        moves_of(&rt, alloc, &mut dice, *count);
    }
}
