//! Where the items that pass a test end, in a list where these come first.

ghost use Rattle.std.specs.Prelude.{◌≡◌, ◌≤◌, ◌<◌, ◌+◌, ◌^◌, Bool, IfSome, true, false, length};
ghost use Rattle.std.specs.Fn.{ComputesKey};
ghost use Rattle.std.specs.List.{slice_get};
ghost use Rattle.std.specs.List.Sorted.{IsPartitionedBy, IsPartitionPoint};
ghost use Rattle.std.specs.Option.{option_copied};
ghost use Rattle.canvas_list.specs.Chunks.{first_passes, IsEnd, IsRun};

use crate::contents::Contents;
use crate::hint::{Hint, ShortHint};
use crate::list::SharedList;
use crate::part::Part;
use crate::reader::{Reader, Run};
use crate::share::Share;
use std::marker::Model;

impl<T: Share> SharedList<T> {
    /// The position of the first item for which `pred` answers false, where those for which it answers
    /// true come first.
    pub fn partition_point<P: Fn(&T) -> bool>(&self, pred: P) -> usize
        requires { P.IsAlwaysCallable pred }
        ensures bound { result ≤ length self.now }
        ensures partitioned { (p : T → Bool) → ComputesKey P.FnMut p pred
            → IsPartitionedBy p self.now
            → IsPartitionPoint (λ y. p y ≡ true) (λ y. p y ≡ false) self.now result }
    {
        self.table.passed(&pred)
    }
}

/// Where the items that pass a test end in a list, and the item there, if that is not the end of the list.
#[derive(Drop)]
pub struct Found<'a, T> {
    /// How many items pass, 0 to the list's length.
    pub at: usize,
    /// The first one that fails; none where all pass.
    pub item: Option<&'a T>,
}

impl<T: Share> SharedList<T> {
    /// Where the items that pass a test end, as by `partition_point`, sought from where a hint
    /// points to: it is quick where those that pass are the items whose hints come before it.
    #[inline(always)]
    pub fn partition_point_near<P: Fn(&T) -> bool>(&self, hint: Hint, pred: P) -> usize
        requires { P.IsAlwaysCallable pred }
        ensures bound { result ≤ length self.now }
        ensures partitioned { (p : T → Bool) → ComputesKey P.FnMut p pred
            → IsPartitionedBy p self.now
            → IsPartitionPoint (λ y. p y ≡ true) (λ y. p y ≡ false) self.now result }
    {
        self.found_near(hint, pred).at
    }

    /// The same as `partition_point_near`, with the item that stands there.
    #[inline(always)]
    pub fn found_near<P: Fn(&T) -> bool>(&self, hint: Hint, pred: P) -> Found<'_, T>
        requires { P.IsAlwaysCallable pred }
        ensures bound { result.at ≤ length self.now }
        ensures item { option_copied result.item ≡ slice_get self.now result.at }
        ensures partitioned { (p : T → Bool) → ComputesKey P.FnMut p pred
            → IsPartitionedBy p self.now
            → IsPartitionPoint (λ y. p y ≡ true) (λ y. p y ≡ false) self.now result.at }
    {
        if let Some(run) = self.run_near(hint) {
            if let Some(found) = self.found_in(&run, hint, &pred) {
                return found;
            }
        }
        let at = self.partition_point(pred);
        Found {
            at,
            item: self.get(at),
        }
    }
}

/// Where some items of a list stand side by side, and a reader of the list, which most likely gives
/// the first of them without a search.
#[derive(Drop)]
pub struct FoundRange<'a, T: Share> {
    /// Where the first of them stands.
    pub start: usize,
    /// Where they end: the position behind the last one. No clause says that this is not before
    /// `start`: that depends on the tests.
    pub end: usize,
    /// A reader of the list.
    pub reader: Reader<'a, T>,
}

impl<T: Share> SharedList<T> {
    /// From where the items end that pass a first test up to where those end that pass a second
    /// one, each as by `partition_point_near`. The second search goes on from the part that the first
    /// hint leads to, so this is quicker than two.
    pub fn range_near<P: Fn(&T) -> bool, Q: Fn(&T) -> bool>(
        &self,
        from: Hint,
        before: P,
        to: Hint,
        within: Q,
    ) -> FoundRange<'_, T>
        requires before { P.IsAlwaysCallable before }
        requires within { Q.IsAlwaysCallable within }
        ensures start { result.start ≤ length self.now }
        ensures end { result.end ≤ length self.now }
        ensures before { (p : T → Bool) → ComputesKey P.FnMut p before → IsPartitionedBy p self.now
            → IsPartitionPoint (λ y. p y ≡ true) (λ y. p y ≡ false) self.now result.start }
        ensures within { (p : T → Bool) → ComputesKey Q.FnMut p within → IsPartitionedBy p self.now
            → IsPartitionPoint (λ y. p y ≡ true) (λ y. p y ≡ false) self.now result.end }
        ensures reader { result.reader ≡ self.now }
    {
        let Some(run) = self.run_near(from) else {
            return FoundRange {
                start: self.partition_point(before),
                end: self.partition_point(within),
                reader: self.reader(),
            };
        };
        let start = self.partition_point_by(&run, from, before);
        let end = self.partition_point_by(&self.run_from(&run, to), to, within);
        FoundRange {
            start,
            end,
            reader: self.reader_of(run),
        }
    }

    // The same as `partition_point`, sought in a part first.
    #[inline(always)]
    fn partition_point_by<'a, P: Fn(&T) -> bool>(
        &'a self,
        run: &Run<'a, T>,
        hint: Hint,
        pred: P,
    ) -> usize
        requires callable { P.IsAlwaysCallable pred }
        requires run { IsRun self.now run.now.items.now run.now.start }
        requires few { run.now.start + length run.now.items.now < 2 ^ 32 }
        ensures bound { result ≤ length self.now }
        ensures partitioned { (p : T → Bool) → ComputesKey P.FnMut p pred
            → IsPartitionedBy p self.now
            → IsPartitionPoint (λ y. p y ≡ true) (λ y. p y ≡ false) self.now result }
    {
        match self.found_in(run, hint, &pred) {
            Some(found) => found.at,
            None => self.partition_point(pred),
        }
    }
}

impl<T: Share> SharedList<T> {
    // The end in a part, if it is there.
    #[inline(always)]
    fn found_in<'a, P: Fn(&T) -> bool>(
        &'a self,
        run: &Run<'a, T>,
        hint: Hint,
        pred: &P,
    ) -> Option<Found<'a, T>>
        requires callable { P.IsAlwaysCallable pred.now }
        requires run { IsRun self.now run.now.items.now run.now.start }
        requires few { run.now.start + length run.now.items.now < 2 ^ 32 }
        ensures bound { IfSome result (λ found. found.at ≤ length self.now) }
        ensures item { IfSome result
            (λ found. option_copied found.item ≡ slice_get self.now found.at) }
        ensures partitioned { IfSome result
            (λ found. (p : T → Bool) → ComputesKey P.FnMut p pred.now → IsPartitionedBy p self.now
            → IsPartitionPoint (λ y. p y ≡ true) (λ y. p y ≡ false) self.now found.at) }
    {
        let passed = run.passed(hint, pred);
        self.found_behind(run, passed, pred)
    }
}

impl<T: Share> SharedList<T> {
    // The end behind so many items of a part, if it is there: the item before it is one of them, or
    // there is none, and the one there fails the test, or there is none.
    #[inline(always)]
    fn found_behind<'a, P: Fn(&T) -> bool>(
        &'a self,
        run: &Run<'a, T>,
        passed: usize,
        pred: &P,
    ) -> Option<Found<'a, T>>
        requires callable { P.IsAlwaysCallable pred.now }
        requires run { IsRun self.now run.now.items.now run.now.start }
        requires few { run.now.start + length run.now.items.now < 2 ^ 32 }
        requires passed { passed ≤ length run.now.items.now }
        ensures bound { IfSome result (λ found. found.at ≤ length self.now) }
        ensures item { IfSome result
            (λ found. option_copied found.item ≡ slice_get self.now found.at) }
        ensures end { IfSome result (λ found. (p : T → Bool) → ComputesKey P.FnMut p pred.now
            → IsEnd p run.now.items.now passed
            → IsEnd p self.now found.at) }
    {
        let at = run.start + passed;
        if passed == 0 && at > 0 {
            return None;
        }
        if passed < run.items.len() {
            let item = Some(&run.items[passed]);
            return Some(Found { at, item });
        }
        let item = self.get(at);
        match item {
            Some(next) if passes(next, pred) => None,
            _ => Some(Found { at, item }),
        }
    }
}

// What a test answers.
#[inline(always)]
fn passes<T, P: Fn(&T) -> bool>(item: &T, pred: &P) -> bool
    requires { P.IsAlwaysCallable pred.now }
    ensures { (p : T → Bool) → ComputesKey P.FnMut p pred.now → result ≡ p item.now }
{
    pred(item)
}

/// How many items pass a test, where those that pass come first.
pub(crate) fn count_passed<T, P: Fn(&T) -> bool>(items: &[T], pred: &P) -> usize
    requires { P.IsAlwaysCallable pred.now }
    ensures bound { result ≤ length items.now }
    ensures partitioned { (p : T → Bool) → ComputesKey P.FnMut p pred.now
        → IsPartitionedBy p items.now
        → IsPartitionPoint (λ y. p y ≡ true) (λ y. p y ≡ false) items.now result }
{
    items.partition_point(pred)
}

impl<T: Share> Run<'_, T> {
    // How many of its items pass a test. They are counted by their hints, and where these are wrong
    // by the test.
    #[inline(always)]
    fn passed<P: Fn(&T) -> bool>(&self, hint: Hint, pred: &P) -> usize
        requires { P.IsAlwaysCallable pred.now }
        ensures bound { result ≤ length self.now.items.now }
        ensures end { (p : T → Bool) → ComputesKey P.FnMut p pred.now
            → IsPartitionedBy p self.now.items.now
            → IsEnd p self.now.items.now result }
    {
        let near = self.place_by_hints(hint);
        if is_end(self.items, near, pred) {
            near
        } else {
            count_passed(self.items, pred)
        }
    }
}

impl<T: Share> Run<'_, T> {
    // How many of its items come before a hint by their own: as many as the majors are apart, if
    // that is so, as where they are numbers with no gap. Else they are counted.
    #[inline(always)]
    fn place_by_hints(&self, hint: Hint) -> usize
        ensures { result ≤ length self.now.items.now }
    {
        let sought = hint.short();
        let apart = hint.major.saturating_sub(self.hint.major) as usize;
        let place = apart.min(self.items.len());
        let is_behind = place == 0 || self.items[place - 1].short_hint().is_before(sought);
        let is_before = place == self.items.len()
            || !self.items[place].short_hint().is_before(sought);
        if is_behind && is_before {
            place
        } else {
            count_before(self.items, sought)
        }
    }
}

// How many items come before a hint by their own. All of a chunk are asked, and no step of it waits
// for a choice that can't be foreseen, as by halves. That is meant for hints that are told without
// a look at what is shared.
#[inline(always)]
fn count_before<T: Share>(items: &[T], hint: ShortHint) -> usize
    ensures { result ≤ length items.now }
{
    let mut count = 0;
    for item in items {
        count += usize::from(item.short_hint().is_before(hint));
    }
    count
}

// Whether the item before a place passes a test, and the one there fails it, as far as there are such items.
#[inline(always)]
fn is_end<T, P: Fn(&T) -> bool>(items: &[T], at: usize, pred: &P) -> bool
    requires callable { P.IsAlwaysCallable pred.now }
    requires within { at ≤ length items.now }
    ensures { result ≡ true → (p : T → Bool) → ComputesKey P.FnMut p pred.now
        → IsEnd p items.now at }
{
    if at > 0 && !passes(&items[at - 1], pred) {
        return false;
    }
    at == items.len() || !passes(&items[at], pred)
}

/// How many of some parts have a first item that passes a test, where those that have come first.
pub(crate) fn count_begun<T: Share, C: Contents<T>, P: Fn(&T) -> bool>(
    parts: &[Part<T, C>],
    pred: &P,
) -> usize
    requires { P.IsAlwaysCallable pred.now }
    ensures bound { result ≤ length parts.now }
    ensures partitioned { (p : T → Bool) → ComputesKey P.FnMut p pred.now
        → IsPartitionedBy (first_passes p) parts.now
        → IsPartitionPoint (λ c. first_passes p c ≡ true) (λ c. first_passes p c ≡ false) parts.now
        result }
{
    parts.partition_point(
        |part: &Part<T, C>| -> bool
            requires { P.IsAlwaysCallable pred.now }
            ensures { (p : T → Bool) → ComputesKey P.FnMut p pred.entry.now
                → result ≡ first_passes p part.now }
        { pred(part.first()) },
    )
}
