//! Histories of documents that change, beside clones that are kept.

use crate::asserts::holds;
use crate::dice::Dice;
use crate::histories::{
    Version, check_all_records, check_records, check_versions, crowd_document, edit_after,
    edit_in_turn, first_document, push_version, tell,
};
use crate::samples::edited;
use canvas_doc::{Document, Edit, Refusal};
use std::alloc::Global;
use std::process::Abort;

/// Makes an edit of a document itself.
pub(crate) fn make(alloc: Global, document: &mut Document, edit: &Edit) -> Result<(), Refusal> {
    let change = document.edit(alloc, edit)?;
    drop(change);
    Ok(())
}

// Makes an edit by a new document in the place of the old one.
fn make_anew(alloc: Global, document: &mut Document, edit: &Edit) -> Result<(), Refusal> {
    *document = edited(alloc, document, edit)?;
    Ok(())
}

fn clone_of(rt: &impl Abort, alloc: Global, document: &Document) -> Document {
    document.try_clone(alloc).expect(rt, "memory")
}

fn push_clone(rt: &impl Abort, alloc: Global, kept: &mut Vec<Document>, document: &Document) {
    let clone = clone_of(rt, alloc, document);
    kept.push(clone).expect(rt, "memory");
}

fn make_next(rt: &impl Abort, alloc: Global, document: &mut Document, made: u32) {
    let edit = edit_after(made);
    make(alloc, document, &edit).expect(rt, "accepted");
    drop(edit);
    check_records(rt, alloc, document, made.saturating_add(1));
}

// Edits in turn, where a clone of each document before them is kept, or none.
fn history(rt: &impl Abort, alloc: Global, keeps: bool) {
    let mut document = first_document(rt, alloc);
    let mut kept = Vec::new(alloc);
    for made in 0..22u32 {
        if keeps {
            push_clone(rt, alloc, &mut kept, &document);
        }
        make_next(rt, alloc, &mut document, made);
        check_all_records(rt, alloc, &kept);
    }
    drop(kept);
    drop(document);
}

#[test]
fn a_long_history_in_place(rt: HostRuntime) {
    history(&rt, rt.alloc(), false);
    history(&rt, rt.alloc(), true);
}

// A document that changes, and an equal one that each edit makes anew.
#[derive(Drop)]
struct Twice {
    document: Document,
    anew: Document,
}

impl Twice {
    // Makes an edit of both, or of none where it is refused.
    fn edit(&mut self, rt: &impl Abort, alloc: Global, edit: Edit) {
        let (is_made, is_made_anew) = self.are_made(alloc, &edit);
        drop(edit);
        holds(rt, "made", &is_made, is_made == is_made_anew);
    }

    // Whether each of both made an edit.
    fn are_made(&mut self, alloc: Global, edit: &Edit) -> (bool, bool) {
        let is_made = make(alloc, &mut self.document, edit).is_ok();
        let is_made_anew = make_anew(alloc, &mut self.anew, edit).is_ok();
        (is_made, is_made_anew)
    }

    // Keeps the document as a version, and makes some edits of both.
    fn go_on(
        &mut self,
        rt: &impl Abort,
        alloc: Global,
        dice: &mut Dice,
        versions: &mut Vec<Version>,
        number: u32,
    ) {
        push_version(rt, alloc, versions, clone_of(rt, alloc, &self.document));
        for more in 0..20u32 {
            let edit = edit_in_turn(dice, number.wrapping_mul(20).wrapping_add(more));
            self.edit(rt, alloc, edit);
        }
        let same = self.are_same(rt, alloc);
        holds(rt, "the same after", &number, same);
    }

    fn are_same(&self, rt: &impl Abort, alloc: Global) -> bool {
        tell(rt, alloc, &self.document) == tell(rt, alloc, &self.anew)
    }
}

// Eight versions, with edits between them.
fn versions(rt: &impl Abort, alloc: Global) -> Vec<Version> {
    let mut dice = Dice::new(9);
    let mut versions = Vec::new(alloc);
    let mut both = Twice {
        document: crowd_document(rt, alloc),
        anew: crowd_document(rt, alloc),
    };
    for number in 0..8u32 {
        both.go_on(rt, alloc, &mut dice, &mut versions, number);
    }
    drop(both);
    versions
}

#[test]
fn changes_in_place_leave_versions_what_they_were(rt: HostRuntime) {
    let versions = versions(&rt, rt.alloc());
    check_versions(&rt, rt.alloc(), &versions);
}
