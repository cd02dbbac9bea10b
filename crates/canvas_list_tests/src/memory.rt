//! Changes for which memory may be refused: run with each allocation refused in turn, they answer want of
//! memory or the list that they answer with ample memory, and leave the list as it was.

ghost use Rattle.std.specs.Prelude.{◌<◌, ◌≡◌, List, IfOk, length};
ghost use Rattle.canvas_list.specs.Changed.{MayChange};

use crate::asserts::holds_at;
use crate::numbers::{NumberItem, Numbers, evens, has, plain_evens, shared_number};
use canvas_code::OutOfMemory;
use canvas_list::{ItemChange, ListChange, SharedList};
use std::alloc::Global;
use std::process::Abort;
use std::test::Fail;

const COUNT: u32 = 600;

// A change of each sort at some place of 600 items.
fn pick_of(alloc: Global, sort: u32) -> Result<ListChange<NumberItem>, OutOfMemory>
    ensures { IfOk result
        (λ change. (xs : List NumberItem) → length xs ≡ 600 → MayChange change xs) }
{
    let item = shared_number(alloc, 7)?;
    Ok(match sort {
        0 => ListChange::At(300, ItemChange::Replace(item)),
        1 => ListChange::At(600, ItemChange::Insert(item)),
        2 => ListChange::At(300, ItemChange::Insert(item)),
        3 => ListChange::Move(300, 301, item),
        4 => ListChange::Move(300, 305, item),
        5 => ListChange::Move(300, 599, item),
        _ => ListChange::At(300, ItemChange::Remove),
    })
}

// How many items each sort leaves.
const LENS: [usize; 7] = [600, 601, 601, 600, 600, 600, 599];

// Replaces an item of a list and changes a list with it. Where memory is refused, both stay.
fn check_both(
    rt: &impl Abort,
    alloc: Global,
    list: &mut Numbers,
    other: &mut Numbers,
    sort: u32,
    len: usize,
    plain: &[u32],
) -> Result<(), OutOfMemory>
    requires list { length list.old ≡ 600 }
    requires other { length other.old ≡ 600 }
{
    let also = pick_of(alloc, sort)?;
    let item = ItemChange::Replace(shared_number(alloc, 8)?);
    let made = list.change_both(alloc, 200, item, other, also);
    let is_right = if made.is_ok() {
        other.len() == len && !has(list, plain)
    } else {
        has(list, plain) && has(other, plain)
    };
    holds_at(rt, "both after sort", sort, is_right);
    made
}

// The same for lists that share their items with a third, or with none.
fn check_sort(
    rt: &impl Abort,
    alloc: Global,
    sort: u32,
    len: usize,
    plain: &[u32],
) -> Result<(), OutOfMemory> {
    let mut list = SharedList::from_vec(alloc, evens(alloc, COUNT)?)?;
    let third = list.try_clone(alloc)?;
    let mut other = list.try_clone(alloc)?;
    let first = check_both(rt, alloc, &mut list, &mut other, sort, len, plain);
    holds_at(rt, "third after sort", sort, has(&third, plain));
    drop(third);
    first?;
    let mut list = SharedList::from_vec(alloc, evens(alloc, COUNT)?)?;
    let mut other = SharedList::from_vec(alloc, evens(alloc, COUNT)?)?;
    check_both(rt, alloc, &mut list, &mut other, sort, len, plain)
}

#[test]
fn changes_of_two_lists_with_little_memory(rt: HostRuntime) -> Result<(), Fail> {
    let alloc = rt.alloc();
    let plain = plain_evens(alloc, COUNT)?;
    let mut sort: u32 = 0;
    for len in &LENS {
        check_sort(&rt, alloc, sort, *len, &plain)?;
        sort = sort.saturating_add(1);
    }
    Ok(())
}

// A list without a range.
fn check_spliced(
    rt: &impl Abort,
    alloc: Global,
    list: &Numbers,
    plain: &[u32],
) -> Result<(), OutOfMemory>
    requires { length list.now ≡ 600 }
{
    let after = list.with_spliced(alloc, 100, 500, Vec::new(alloc));
    holds_at(rt, "list after splice", 200, has(list, plain));
    holds_at(rt, "spliced to", 200, after?.len() == 200);
    Ok(())
}

#[test]
fn splices_with_little_memory(rt: HostRuntime) -> Result<(), Fail> {
    let alloc = rt.alloc();
    let plain = plain_evens(alloc, COUNT)?;
    let list = SharedList::from_vec(alloc, evens(alloc, COUNT)?)?;
    check_spliced(&rt, alloc, &list, &plain)?;
    Ok(())
}
