//! Walks that give each item which they look at, so that what they give shows which parts they pass over.

ghost use Rattle.std.specs.Prelude.{◌≡◌};

use crate::asserts::{holds, holds_at};
use crate::numbers::{Number, Span};
use canvas_code::OutOfMemory;
use canvas_list::{Hint, Share, Shared, SharedList, ShortHint};
use std::alloc::Global;
use std::process::Abort;

/// A number that never lies apart by its own summary, but by that of its part alone.
#[derive(Drop)]
struct Watched {
    value: u32,
}

/// A span that has some numbers, and whether it is the summary of one item.
#[derive(Clone, Copy)]
struct Note {
    span: Span,
    is_of_item: bool,
}

impl Note {
    // What a walk seeks: the numbers from one up to another, which is one of them.
    fn sought(least: u32, greatest: u32) -> Note
        ensures least { result.span.least ≡ least }
        ensures greatest { result.span.greatest ≡ greatest }
    {
        Note {
            span: Span { least, greatest },
            is_of_item: false,
        }
    }
}

impl Share for Watched {
    ghost use Rattle.std.specs.Prelude.{◌≤◌};

    type Summary = Note;

    ghost covers = { λ summary watched. (summary.span.least ≤ watched.value)
        × (watched.value ≤ summary.span.greatest) };

    ghost lies_apart = { λ sought watched.
        sought.span.least ≤ watched.value → watched.value ≤ sought.span.greatest → ⊥ };

    fn share(&self) -> Result<Watched, OutOfMemory> {
        Ok(Watched { value: self.value })
    }

    fn hint(&self) -> Hint {
        Hint {
            major: self.value,
            minor: 0,
        }
    }

    fn short_hint(&self) -> ShortHint {
        self.hint().short()
    }

    fn summary(&self) -> Note {
        Note {
            span: Span {
                least: self.value,
                greatest: self.value,
            },
            is_of_item: true,
        }
    }

    fn summed(first: &Note, second: &Note) -> Note {
        Note::sought(
            first.span.least.min(second.span.least),
            first.span.greatest.max(second.span.greatest),
        )
    }

    fn may_meet(summary: &Note, sought: &Note) -> bool {
        summary.is_of_item
            || summary.span.least <= sought.span.greatest
                && sought.span.least <= summary.span.greatest
    }
}

// How many items a walk over a list gives.
fn count_given<T: Share>(list: &SharedList<T>, sought: &T::Summary) -> usize {
    let mut reader = list.reader();
    let end = list.len();
    let mut next = reader.next_meeting(0, end, sought);
    let mut count = 0;
    for at in 0..end {
        if at == next {
            count += 1;
            next = reader.next_meeting(at + 1, end, sought);
        }
    }
    count
}

// The first numbers.
fn first_watched(rt: &impl Abort, alloc: Global) -> SharedList<Watched> {
    let mut items = Vec::new(alloc);
    for value in 0..COUNT {
        items.push(Watched { value }).expect(rt, "memory");
    }
    SharedList::from_vec(alloc, items).expect(rt, "memory")
}

const COUNT: u32 = 3_000;

// The least and the greatest number that a walk seeks, and how many items it gives at least and at
// most: one for a single number gives few others.
const WALKS: [(u32, u32, usize, usize); 7] = [
    (0, COUNT, 3_000, 3_000),
    (COUNT, COUNT, 0, 0),
    (0, 0, 1, 199),
    (1, 1, 1, 199),
    (1_234, 1_234, 1, 199),
    (2_000, 2_000, 1, 199),
    (2_999, 2_999, 1, 199),
];

// Asserts that a walk gives as many items as it should.
fn assert_walk(
    rt: &impl Abort,
    list: &SharedList<Watched>,
    (least, greatest, fewest, most): (u32, u32, usize, usize),
) {
    let given = count_given(list, &Note::sought(least, greatest));
    holds_at(rt, "too few for", least, fewest <= given);
    holds_at(rt, "too many for", least, given <= most);
}

#[test]
fn walks_pass_over_parts(rt: HostRuntime) {
    let list = first_watched(&rt, rt.alloc());
    for walk in &WALKS {
        assert_walk(&rt, &list, *walk);
    }
}

// The first numbers, each shared.
fn first_shared(rt: &impl Abort, alloc: Global) -> SharedList<Shared<Number>> {
    let mut items = Vec::new(alloc);
    for value in 0..COUNT {
        let item = Shared::new(alloc, Number { value }).expect(rt, "memory");
        items.push(item).expect(rt, "memory");
    }
    SharedList::from_vec(alloc, items).expect(rt, "memory")
}

#[test]
fn walks_give_all_shared_values(rt: HostRuntime) {
    let list = first_shared(&rt, rt.alloc());
    let clone = list.try_clone(rt.alloc()).expect(&rt, "memory");
    holds(&rt, "all", count_given(&clone, &()) == 3_000);
}
