//! Edits of which a growth may be refused: run with each allocation refused in turn, they answer want of
//! memory or what they answer with ample memory, and leave the document as it was.

use crate::asserts::holds;
use crate::in_place::make;
use crate::samples::{
    BLUE, RED, create, edited, edited_by, moved, polygon, record, rectangle, refusal, restored,
};
use canvas_code::OutOfMemory;
use canvas_doc::{Document, Edit, Parent, Record, Refusal, Spot, TreeFault};
use canvas_key::fresh;
use canvas_shape::Kind;
use std::alloc::Global;
use std::process::Abort;
use std::test::Fail;

// The edits that make a group with a triangle and a rectangle in it.
fn first_edit(alloc: Global, number: u32) -> Result<Edit, OutOfMemory> {
    Ok(match number {
        0 => create(Kind::Group, Parent::Page, Spot::Front),
        1 => create(triangle(alloc)?, Parent::Shape(1), Spot::Front),
        _ => create(rectangle(1, 1, RED), Parent::Shape(1), Spot::Front),
    })
}

fn triangle(alloc: Global) -> Result<Kind, OutOfMemory> {
    polygon(alloc, &[(0, 0), (4, 0), (0, 4)])
}

fn square(alloc: Global) -> Result<Kind, OutOfMemory> {
    polygon(alloc, &[(0, 0), (4, 0), (4, 4), (0, 4)])
}

fn after_first_edit(alloc: Global, document: &Document, number: u32) -> Result<Document, Refusal> {
    edited_by(alloc, document, first_edit(alloc, number)?)
}

// A group with a triangle and a rectangle in it.
fn document(alloc: Global) -> Result<Document, Refusal> {
    let mut document = Document::empty(alloc);
    for number in 0..3u32 {
        document = after_first_edit(alloc, &document, number)?;
    }
    Ok(document)
}

const EDITS: u32 = 7;

// One edit of each sort, by its number.
fn edit(alloc: Global, number: u32) -> Result<Edit, OutOfMemory> {
    Ok(match number {
        0 => create(square(alloc)?, Parent::Shape(1), Spot::Back),
        1 => Edit::Move {
            id: 2,
            parent: Parent::Page,
            spot: Spot::Over(1),
        },
        2 => Edit::Pose {
            id: 3,
            pose: moved(3, 4),
        },
        3 => Edit::Reshape {
            id: 2,
            kind: square(alloc)?.try_clone(alloc)?,
        },
        4 => Edit::Show {
            id: 1,
            hidden: true,
        },
        5 => Edit::Delete { id: 1 },
        _ => Edit::Respace {
            parent: Parent::Shape(1),
        },
    })
}

fn are_same(document: &Document, other: &Document) -> bool {
    if document.next_id() != other.next_id() || document.count() != other.count() {
        return false;
    }
    for id in 0..document.next_id() {
        if document.get(id) != other.get(id) {
            return false;
        }
    }
    true
}

// Whether of two answers to an edit the second is right, and the first says no more than want of
// memory or the same.
fn are_right(
    first: &Result<Document, Refusal>,
    again: &Result<Document, Refusal>,
) -> Result<bool, Refusal> {
    match (first, again) {
        (Ok(after), Ok(again)) => Ok(are_same(after, again)),
        (Err(refusal), Ok(_)) => Ok(*refusal == Refusal::OutOfMemory),
        (_, Err(refusal)) => Err(*refusal),
    }
}

// Makes an edit once more, and says whether it and the first answer are right.
fn is_made_again(
    alloc: Global,
    document: &Document,
    edit: &Edit,
    first: &Result<Document, Refusal>,
) -> Result<bool, Refusal> {
    let again = edited(alloc, document, edit);
    let is_right = are_right(first, &again);
    drop(again);
    is_right
}

// Whether only want of memory kept an edit from being made, and the edit is made afterwards.
fn is_made_once_there_is_memory(
    alloc: Global,
    document: &Document,
    number: u32,
) -> Result<bool, Refusal> {
    let edit = edit(alloc, number)?;
    let first = edited(alloc, document, &edit);
    let is_made = is_made_again(alloc, document, &edit, &first);
    drop(first);
    drop(edit);
    is_made
}

// Makes each edit of a document, which stays the same as its copy.
fn check_edits(
    rt: &impl Abort,
    alloc: Global,
    document: &Document,
    copy: &Document,
) -> Result<(), Refusal> {
    for number in 0..EDITS {
        let is_made = is_made_once_there_is_memory(alloc, document, number)?;
        holds(rt, "made", &number, is_made);
        holds(rt, "unchanged", &number, are_same(document, copy));
    }
    Ok(())
}

fn check_edits_beside_copy(
    rt: &impl Abort,
    alloc: Global,
    document: &Document,
) -> Result<(), Refusal> {
    let copy = document.try_clone(alloc)?;
    let checked = check_edits(rt, alloc, document, &copy);
    drop(copy);
    checked
}

#[test]
fn edits_with_little_memory(rt: HostRuntime) -> Result<(), Fail> {
    let document = document(rt.alloc())?;
    let checked = check_edits_beside_copy(&rt, rt.alloc(), &document);
    drop(document);
    checked?;
    Ok(())
}

// Whether documents have the same records, and the same colours where their shapes lie.
fn look_same(document: &Document, other: &Document) -> bool {
    let mut same = are_same(document, other);
    for at in 0..8i32 {
        same = same && document.colour_at(at, 3) == other.colour_at(at, 3);
    }
    same
}

// An edit, and a document before and after it.
#[derive(Clone, Copy)]
struct Step<'a> {
    edit: &'a Edit,
    before: &'a Document,
    after: &'a Document,
}

// Whether only want of memory kept an edit from being made in place, which left the document as it
// was, and the edit is made afterwards.
fn is_made_in_place_once_there_is_memory(
    alloc: Global,
    document: &mut Document,
    step: Step<'_>,
) -> Result<bool, Refusal> {
    let answer = make(alloc, document, step.edit);
    let is_right = is_as_answered(document, &answer, step);
    if answer.is_err() {
        make(alloc, document, step.edit)?;
    }
    Ok(is_right && look_same(document, step.after))
}

// Whether a document is as after the edit, or as before it where memory was wanted.
fn is_as_answered(document: &Document, answer: &Result<(), Refusal>, step: Step<'_>) -> bool {
    match answer {
        Ok(()) => look_same(document, step.after),
        Err(refusal) => *refusal == Refusal::OutOfMemory && look_same(document, step.before),
    }
}

// The same of a document of its own, which shares its records with none.
fn is_made_alone(alloc: Global, step: Step<'_>) -> Result<bool, Refusal> {
    let mut own = document(alloc)?;
    let is_made = is_made_in_place_once_there_is_memory(alloc, &mut own, step);
    drop(own);
    is_made
}

// The same of a document that shares its records with a clone, which stays what it was.
fn is_made_beside_clone(alloc: Global, step: Step<'_>) -> Result<bool, Refusal> {
    let clone = document(alloc)?;
    let is_made = is_made_of_clone(alloc, &clone, step);
    let is_kept = look_same(&clone, step.before);
    drop(clone);
    Ok(is_made? && is_kept)
}

fn is_made_of_clone(alloc: Global, document: &Document, step: Step<'_>) -> Result<bool, Refusal> {
    let mut own = document.try_clone(alloc)?;
    let is_made = is_made_in_place_once_there_is_memory(alloc, &mut own, step);
    drop(own);
    is_made
}

// The same of both with one edit of a document that is like them.
fn is_made_of_each(alloc: Global, edit: &Edit, before: &Document) -> Result<bool, Refusal> {
    let after = edited(alloc, before, edit)?;
    let step = Step {
        edit,
        before,
        after: &after,
    };
    let is_made = is_made_both_ways(alloc, step);
    drop(after);
    is_made
}

fn is_made_both_ways(alloc: Global, step: Step<'_>) -> Result<bool, Refusal> {
    Ok(is_made_alone(alloc, step)? && is_made_beside_clone(alloc, step)?)
}

fn is_made_in_place(alloc: Global, number: u32, before: &Document) -> Result<bool, Refusal> {
    let edit = edit(alloc, number)?;
    let is_made = is_made_of_each(alloc, &edit, before);
    drop(edit);
    is_made
}

#[test]
fn changes_in_place_with_little_memory(rt: HostRuntime) -> Result<(), Fail> {
    let before = document(rt.alloc())?;
    for number in 0..EDITS {
        let is_made = is_made_in_place(rt.alloc(), number, &before)?;
        holds(&rt, "made in place", &number, is_made);
    }
    Ok(())
}

// An edit that is refused, by its number.
fn refused_edit(alloc: Global, number: u32) -> Result<Edit, OutOfMemory> {
    Ok(match number {
        0 => create(square(alloc)?, Parent::Shape(3), Spot::Back),
        1 => Edit::Move {
            id: 2,
            parent: Parent::Shape(1),
            spot: Spot::At(fresh(1)),
        },
        _ => Edit::Reshape {
            id: 2,
            kind: rectangle(1, 1, BLUE),
        },
    })
}

// Why such an edit is refused, if it is.
fn why_refused(
    alloc: Global,
    document: &Document,
    number: u32,
) -> Result<Option<Refusal>, OutOfMemory> {
    Ok(refusal(alloc, document, refused_edit(alloc, number)?))
}

#[test]
fn refusals_with_little_memory(rt: HostRuntime) -> Result<(), Fail> {
    let document = document(rt.alloc())?;
    for (number, refusal) in [
        (0, Refusal::NotAContainer),
        (1, Refusal::IndexTaken),
        (2, Refusal::WrongKind),
    ] {
        let found = why_refused(rt.alloc(), &document, number)?;
        holds(&rt, "refused", &refusal, found == Some(refusal));
    }
    Ok(())
}

// A group, listed behind its child.
fn pair(alloc: Global) -> Result<Vec<Record>, OutOfMemory> {
    let leaf = record(2, Parent::Shape(1), fresh(0), rectangle(1, 1, RED));
    let group = record(1, Parent::Page, fresh(0), Kind::Group);
    Ok(Vec::from_array(alloc, [leaf, group])?)
}

fn restored_pair(alloc: Global) -> Result<Document, TreeFault> {
    let records = pair(alloc)?;
    restored(alloc, records, 3)
}

// Whether of two answers to a list of records the second is right, and the first says no more than
// want of memory or the same.
fn restores_are_right(
    first: &Result<Document, TreeFault>,
    again: &Result<Document, TreeFault>,
) -> Result<bool, TreeFault> {
    match (first, again) {
        (Ok(document), Ok(again)) => Ok(are_same(document, again)),
        (Err(fault), Ok(_)) => Ok(*fault == TreeFault::OutOfMemory),
        (_, Err(fault)) => Err(*fault),
    }
}

// Restores the pair once more, and says whether that and the first answer are right.
fn is_restored_again(
    alloc: Global,
    first: &Result<Document, TreeFault>,
) -> Result<bool, TreeFault> {
    let again = restored_pair(alloc);
    let is_right = restores_are_right(first, &again);
    drop(again);
    is_right
}

// Whether only want of memory kept the pair from being restored, and it is restored afterwards.
fn is_restored_once_there_is_memory(alloc: Global) -> Result<bool, TreeFault> {
    let first = restored_pair(alloc);
    let is_restored = is_restored_again(alloc, &first);
    drop(first);
    is_restored
}

#[test]
fn restored_with_little_memory(rt: HostRuntime) -> Result<(), Fail> {
    let is_restored = is_restored_once_there_is_memory(rt.alloc())?;
    holds(&rt, "restored", &"the pair", is_restored);
    Ok(())
}
