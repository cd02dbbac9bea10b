//! Some thousands of changes, each beside the same change of a plain list.

ghost use Rattle.std.specs.Prelude.{◌≡◌, ◌<◌, ◌≤◌, ◌+◌, ◌^◌, length, vec_len};
ghost use Rattle.canvas_list.specs.Changed.{IsPositionOf};

use crate::asserts::holds_at;
use crate::dice::Dice;
use crate::in_place::clone_of;
use crate::moves::move_plain;
use crate::numbers::{NumberItem, Numbers, has, number_item};
use crate::picks::{MOST, Pick, change_both_lists, insert_plain, remove_plain};
use crate::reader::reads_about;
use canvas_list::{ItemChange, SharedList};
use std::alloc::Global;
use std::process::Abort;

// How many items a splice puts in at most.
const SPLICED: usize = 40;

/// A list, and the plain list that has the same numbers.
#[derive(Drop)]
pub(crate) struct Both {
    pub(crate) list: Numbers,
    pub(crate) plain: Vec<u32>,
}

impl Both {
    /// Ends the test with these words and a number unless both have the same numbers, however the
    /// list is read.
    pub(crate) fn check(&self, rt: &impl Abort, what: &str, number: u32) {
        holds_at(rt, what, number, has(&self.list, &self.plain));
    }

    /// The same, of what is not needed any more.
    pub(crate) fn check_last(self, rt: &impl Abort, what: &str, number: u32) {
        self.check(rt, what, number);
        drop(self);
    }

    /// Makes a change of both.
    pub(crate) fn change(&mut self, rt: &impl Abort, alloc: Global, pick: Pick)
        requires { IsPositionOf pick.change pick.at self.old.list }
    {
        change_both_lists(rt, alloc, &mut self.list, &mut self.plain, pick);
    }

    fn insert(&mut self, rt: &impl Abort, alloc: Global, at: usize, value: u32)
        requires list { at ≤ length self.old.list }
        requires few { length self.old.list + 1 < 2 ^ 32 }
    {
        let change = ItemChange::Insert(number_item(rt, alloc, value));
        self.change(rt, alloc, Pick { at, change });
    }

    /// Takes the number at a position away.
    pub(crate) fn remove(&mut self, rt: &impl Abort, alloc: Global, at: usize)
        requires { at < length self.old.list }
    {
        let change = ItemChange::Remove;
        self.change(rt, alloc, Pick { at, change });
    }

    fn replace(&mut self, rt: &impl Abort, alloc: Global, at: usize, value: u32)
        requires { at < length self.old.list }
    {
        let change = ItemChange::Replace(number_item(rt, alloc, value));
        self.change(rt, alloc, Pick { at, change });
    }

    fn move_item(&mut self, rt: &impl Abort, alloc: Global, from: usize, to: usize, value: u32)
        requires from { from < length self.old.list }
        requires to { to < length self.old.list }
    {
        move_plain(rt, &mut self.plain, from, to, value);
        let item = number_item(rt, alloc, value);
        self.list.shift(alloc, from, to, item).expect(rt, "memory");
    }

    // Puts a number so many times in the place of those from one position up to another.
    fn splice(
        &mut self,
        rt: &impl Abort,
        alloc: Global,
        first: usize,
        end: usize,
        count: usize,
        value: u32,
    )
        requires order { first ≤ end }
        requires list { end ≤ length self.old.list }
        requires few { length self.old.list + count < 2 ^ 32 }
    {
        splice_plain(rt, &mut self.plain, first, end, count, value);
        let items = number_items(rt, alloc, count, value);
        let made = self.list.with_spliced(alloc, first, end, items);
        self.list = made.expect(rt, "memory");
    }
}

// A number, so many times.
fn number_items(rt: &impl Abort, alloc: Global, count: usize, value: u32) -> Vec<NumberItem>
    ensures { vec_len result ≡ count }
{
    let mut items = Vec::new(alloc);
    for _ in 0..count {
        items
            .push(number_item(rt, alloc, value))
            .expect(rt, "memory");
    }
    items
}

// Puts a number so many times in the place of those of a plain list from one position up to another.
fn splice_plain(
    rt: &impl Abort,
    plain: &mut Vec<u32>,
    first: usize,
    end: usize,
    count: usize,
    value: u32,
) {
    for _ in first..end {
        remove_plain(plain, first);
    }
    for _ in 0..count {
        insert_plain(rt, plain, first, value);
    }
}

// A change at a place that the dice pick; `grows` of 16 times an insertion.
fn change(
    rt: &impl Abort,
    alloc: Global,
    dice: &mut Dice,
    both: &mut Both,
    value: u32,
    grows: usize,
) {
    let len = both.list.len();
    if len >= MOST {
        return;
    }
    if len == 0 || dice.below(16) < grows {
        both.insert(rt, alloc, dice.below(len + 1), value);
    } else {
        change_some(rt, alloc, dice, both, value);
    }
}

// A change of a number that is there, or of some.
fn change_some(rt: &impl Abort, alloc: Global, dice: &mut Dice, both: &mut Both, value: u32)
    requires some { 0 < length both.old.list }
    requires few { length both.old.list < MOST }
{
    let len = both.list.len();
    let at = dice.below(len);
    match dice.below(8) {
        0..4 => both.remove(rt, alloc, at),
        4 => both.move_item(rt, alloc, at, dice.below(len), value),
        5 => both.move_item(rt, alloc, at, (at + dice.below(4)).min(len - 1), value),
        6 => both.replace(rt, alloc, at, value),
        _ => {
            let end = at + dice.below(SPLICED).min(len - at);
            both.splice(rt, alloc, at, end, dice.below(SPLICED), value)
        }
    }
}

// The first numbers, put behind one another, or each in front of those before it.
fn filled(rt: &impl Abort, alloc: Global, count: u32, is_in_front: bool) -> Both {
    let mut both = Both {
        list: SharedList::empty(alloc),
        plain: Vec::new(alloc),
    };
    for value in 0..count {
        put(rt, alloc, &mut both, value, is_in_front);
    }
    both
}

// Puts one more number in, of which the numbers are compared now and then.
fn put(rt: &impl Abort, alloc: Global, both: &mut Both, value: u32, is_in_front: bool) {
    let len = both.list.len();
    if len < MOST {
        both.insert(rt, alloc, if is_in_front { 0 } else { len }, value);
    }
    if value % 127 == 0 {
        both.check(rt, "after", value);
    }
}

// Some thousands of changes, of which the numbers are compared now and then.
fn changes_in_turn(rt: &impl Abort, alloc: Global, dice: &mut Dice, both: &mut Both) {
    for round in 0..7_500u32 {
        let grows = if round < 3_000 { 11 } else { 4 };
        change(rt, alloc, dice, both, round, grows);
        if round % 97 == 0 || both.list.len() < 40 {
            both.check(rt, "after", round);
        }
    }
}

#[test]
fn changes_beside_a_plain_list(rt: HostRuntime) {
    let alloc = rt.alloc();
    let mut dice = Dice { state: 12_345 };
    let mut both = filled(&rt, alloc, 1_500, false);
    both.check(&rt, "after the first", 1_500);
    changes_in_turn(&rt, alloc, &mut dice, &mut both);
    let is_read = reads_about(&both.list, &both.plain, &mut dice);
    holds_at(&rt, "read after all", 7_500, is_read);
    both.check_last(&rt, "after all", 7_500);
}

#[test]
fn items_come_in_front_of_one_another(rt: HostRuntime) {
    let both = filled(&rt, rt.alloc(), 3_000, true);
    both.check_last(&rt, "after all", 3_000);
}

// A clone from before each of some changes, and what they make.
fn kept_before_changes(rt: &impl Abort, alloc: Global, mut both: Both) -> Vec<Both> {
    let mut dice = Dice { state: 54_321 };
    let mut kept = Vec::new(alloc);
    for round in 0..400u32 {
        kept.push(clone_of(rt, alloc, &both)).expect(rt, "memory");
        change(rt, alloc, &mut dice, &mut both, round, 5);
    }
    kept.push(both).expect(rt, "memory");
    kept
}

fn check_all(rt: &impl Abort, kept: &[Both]) {
    let mut round: u32 = 0;
    for clone in kept {
        clone.check(rt, "before change", round);
        round = round.saturating_add(1);
    }
}

#[test]
fn a_change_leaves_the_list_before_it(rt: HostRuntime) {
    let both = filled(&rt, rt.alloc(), 700, false);
    let kept = kept_before_changes(&rt, rt.alloc(), both);
    check_all(&rt, &kept);
    drop(kept);
}
