//! Lists of numbers, and plain ones that should have the same.

ghost use Rattle.std.specs.Prelude.{◌≡◌, ◌≤◌, IfOk, length, vec_len};
ghost use Rattle.std.specs.List.Sorted.{IsNonDecreasingBy};

use crate::reader::{meets, reads_on};
use canvas_code::OutOfMemory;
use canvas_list::{Hint, Hinted, Items, Share, Shared, SharedList, ShortHint};
use std::alloc::Global;
use std::marker::Model;
use std::process::Abort;

/// A number.
#[derive(Drop)]
pub(crate) struct Number {
    pub(crate) value: u32,
}

impl Hinted for Number {
    fn hint(&self) -> Hint {
        Hint {
            major: self.value,
            minor: 0,
        }
    }
}

/// A number in a list, seen as that number.
#[derive(Drop)]
pub(crate) struct NumberItem {
    number: Shared<Number>,
}

impl Model for NumberItem {
    ghost use Rattle.canvas_list_tests.specs.declared.numbers.Number.{Number};

    ghost Value = { Number };

    ghost view = { λ item. item.number };
}

impl NumberItem {
    /// The number.
    pub(crate) fn value(&self) -> &Number
        ensures { result.now ≡ self.now }
    {
        self.number.value()
    }
}

/// The numbers from the least up to the greatest, which is one of them; none, if that is less.
#[derive(Clone, Copy)]
pub(crate) struct Span {
    pub(crate) least: u32,
    pub(crate) greatest: u32,
}

impl Span {
    pub(crate) fn of(least: u32, greatest: u32) -> Span {
        Span { least, greatest }
    }

    pub(crate) fn has(&self, value: u32) -> bool {
        self.least <= value && value <= self.greatest
    }
}

// A summary of some numbers is a span that has them. A walk seeks those that a span has.
impl Share for NumberItem {
    ghost use Rattle.std.specs.Prelude.{◌≤◌};

    type Summary = Span;

    ghost covers = { λ summary item. (summary.least ≤ item.value)
        × (item.value ≤ summary.greatest) };

    ghost lies_apart = { λ sought item. sought.least ≤ item.value → item.value ≤ sought.greatest
        → ⊥ };

    fn share(&self) -> Result<NumberItem, OutOfMemory> {
        Ok(NumberItem {
            number: self.number.share()?,
        })
    }

    fn hint(&self) -> Hint {
        self.number.hint()
    }

    fn short_hint(&self) -> ShortHint {
        self.number.short_hint()
    }

    fn summary(&self) -> Span {
        let value = self.value().value;
        Span {
            least: value,
            greatest: value,
        }
    }

    fn summed(first: &Span, second: &Span) -> Span {
        Span {
            least: first.least.min(second.least),
            greatest: first.greatest.max(second.greatest),
        }
    }

    fn may_meet(summary: &Span, sought: &Span) -> bool {
        summary.least <= sought.greatest && sought.least <= summary.greatest
    }
}

pub(crate) type Numbers = SharedList<NumberItem>;

pub(crate) fn shared_number(alloc: Global, value: u32) -> Result<NumberItem, OutOfMemory>
    ensures { IfOk result (λ number. number.value ≡ value) }
{
    Ok(NumberItem {
        number: Shared::new(alloc, Number { value })?,
    })
}

/// The same, where there is memory.
pub(crate) fn number_item(rt: &impl Abort, alloc: Global, value: u32) -> NumberItem {
    shared_number(alloc, value).expect(rt, "memory")
}

/// The first even numbers.
pub(crate) fn evens(alloc: Global, count: u32) -> Result<Vec<NumberItem>, OutOfMemory>
    requires { count ≤ 100000 }
    ensures len { IfOk result (λ items. vec_len items ≡ count) }
    ensures rising { IfOk result (λ items. IsNonDecreasingBy (λ number. number.value) items.items) }
{
    let mut items = Vec::new(alloc);
    for at in 0..count {
        items.push(shared_number(alloc, 2 * at)?)?;
    }
    Ok(items)
}

/// The same numbers, as a plain list.
pub(crate) fn plain_evens(alloc: Global, count: u32) -> Result<Vec<u32>, OutOfMemory>
    requires { count ≤ 100000 }
{
    let mut values = Vec::new(alloc);
    for at in 0..count {
        values.push(2 * at)?;
    }
    Ok(values)
}

/// Whether a list has the numbers of a plain one, however it is read.
pub(crate) fn has(list: &Numbers, plain: &[u32]) -> bool {
    if list.len() != plain.len() {
        return false;
    }
    let mut same = list.is_empty() == plain.is_empty();
    same &= reads(list, plain);
    same &= reads_on(list, plain);
    same &= meets(list, plain);
    same & iterates(list, plain)
}

// Whether a list and its parts give the numbers of a plain one, from the first to the last and back.
fn iterates(list: &Numbers, plain: &[u32]) -> bool
    requires { length list.now ≡ length plain.now }
{
    let third = plain.len() / 3;
    let end = plain.len() - third;
    let middle = &plain[third..end];
    let mut same = gives(list.iter(), plain);
    same &= gives_back(list.iter(), plain);
    same &= gives(list.iter_from(third), &plain[third..]);
    same &= gives_back(list.iter_before(third), &plain[..third]);
    same &= gives(list.iter_range(third, end), middle);
    same &= gives_back(list.iter_range(third, end), middle);
    same
}

fn reads(list: &Numbers, plain: &[u32]) -> bool
    requires { length list.now ≡ length plain.now }
{
    let mut same = list.get(plain.len()).is_none();
    for at in 0..plain.len() {
        same &= list.at(at).value().value == plain[at];
    }
    same
}

fn is_number(item: Option<&NumberItem>, value: u32) -> bool {
    match item {
        Some(item) => item.value().value == value,
        None => false,
    }
}

// Whether items are some numbers.
fn gives(mut items: Items<'_, NumberItem>, numbers: &[u32]) -> bool {
    let mut same = true;
    for number in numbers {
        same &= is_number(items.next(), *number);
    }
    same & items.next().is_none()
}

// The same, from the last to the first.
fn gives_back(mut items: Items<'_, NumberItem>, numbers: &[u32]) -> bool {
    let mut same = true;
    for number in numbers.iter().rev() {
        same &= is_number(items.next_back(), *number);
    }
    same & items.next_back().is_none()
}
