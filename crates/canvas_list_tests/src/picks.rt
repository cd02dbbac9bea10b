//! Changes of lists of numbers that the dice pick, and what they make of plain lists.

ghost use Rattle.std.specs.Prelude.{◌<◌, length};
ghost use Rattle.canvas_list.specs.Changed.{IsPositionOf};

use crate::dice::Dice;
use crate::numbers::{NumberItem, Numbers, number_item};
use canvas_list::ItemChange;
use std::alloc::Global;
use std::process::Abort;

/// How many items a list gets at most.
pub(crate) const MOST: usize = 50_000;

pub(crate) type NumberChange = ItemChange<NumberItem>;

/// A change, and where it is made.
#[derive(Drop)]
pub(crate) struct Pick {
    pub(crate) at: usize,
    pub(crate) change: NumberChange,
}

fn some_number(rt: &impl Abort, alloc: Global, dice: &mut Dice) -> NumberItem {
    number_item(rt, alloc, dice.below(1_000_000_000) as u32)
}

/// Another number in the place of some number of a list.
pub(crate) fn some_replacement(
    rt: &impl Abort,
    alloc: Global,
    dice: &mut Dice,
    list: &Numbers,
) -> Pick
    requires { 0 < length list.now }
    ensures { IsPositionOf result.change result.at list.now }
{
    Pick {
        at: dice.below(list.len()),
        change: ItemChange::Replace(some_number(rt, alloc, dice)),
    }
}

/// A change at some place of a list; `grows` of 16 times an insertion.
pub(crate) fn some_change(
    rt: &impl Abort,
    alloc: Global,
    dice: &mut Dice,
    list: &Numbers,
    grows: usize,
) -> Pick
    ensures { IsPositionOf result.change result.at list.now }
{
    let len = list.len();
    let number = dice.below(16);
    if len == 0 || (number < grows && len < MOST) {
        return Pick {
            at: dice.below(len + 1),
            change: ItemChange::Insert(some_number(rt, alloc, dice)),
        };
    }
    if number < 11 {
        return some_replacement(rt, alloc, dice, list);
    }
    Pick {
        at: dice.below(len),
        change: ItemChange::Remove,
    }
}

/// Makes a change of a list and of its plain one.
pub(crate) fn change_both_lists(
    rt: &impl Abort,
    alloc: Global,
    list: &mut Numbers,
    plain: &mut Vec<u32>,
    pick: Pick,
)
    requires { IsPositionOf pick.change pick.at list.old }
{
    change_plain(rt, plain, &pick);
    list.change(alloc, pick.at, pick.change)
        .expect(rt, "memory");
}

/// Changes a plain list, if it has the place of the change.
pub(crate) fn change_plain(rt: &impl Abort, plain: &mut Vec<u32>, pick: &Pick) {
    match &pick.change {
        ItemChange::Replace(item) => replace_plain(plain, pick.at, item.value().value),
        ItemChange::Remove => remove_plain(plain, pick.at),
        ItemChange::Insert(item) => insert_plain(rt, plain, pick.at, item.value().value),
    }
}

fn replace_plain(plain: &mut Vec<u32>, at: usize, number: u32) {
    if at < plain.len() {
        plain[at] = number;
    }
}

/// Takes the number at a position away from a plain list, if there is one.
pub(crate) fn remove_plain(plain: &mut Vec<u32>, at: usize) {
    if at < plain.len() {
        plain.remove(at);
    }
}

/// Puts a number in front of the one at a position of a plain list or behind its last one, if there
/// is such a place.
pub(crate) fn insert_plain(rt: &impl Abort, plain: &mut Vec<u32>, at: usize, number: u32) {
    if at <= plain.len() {
        plain.insert(at, number).expect(rt, "memory");
    }
}
