//! Documents that the test makes of the edits' answers.
use crate::asserts::{holds, holds_at};
use crate::lines::editor::Accepted;
use crate::lines::viewer::{Sight, raster};
use canvas_doc::Document;
use std::alloc::Global;
use std::process::Abort;
use std::thread::Threads;

/// Puts edits in the places of their numbers, of which the first is 1 and which nothing has yet.
pub(crate) fn put<'a, R: Abort>(
    rt: &R,
    places: &mut [Option<&'a Accepted>],
    edits: &'a [Accepted],
) {
    for accepted in edits {
        let at = place_of(accepted.number).expect(rt, "a number from 1 on");
        let place = places
            .get_mut(at)
            .expect(rt, "a number that is not too large");
        holds(rt, "a number that was given once", place.is_none());
        *place = Some(accepted);
    }
}

fn place_of(number: u64) -> Option<usize> {
    usize::try_from(number.checked_sub(1)?).ok()
}

/// The documents after none, one, two and so on of the edits, from an empty one. Each place is to
/// have its edit.
pub(crate) fn replayed<R: Abort>(
    rt: &R,
    alloc: Global,
    edits: &[Option<&Accepted>],
) -> Vec<Document> {
    let mut documents = Vec::new(alloc);
    documents.push(Document::empty(alloc)).expect(rt, "memory");
    for place in edits {
        let accepted = place.expect(rt, "an edit of each number");
        let before = documents.last().expect(rt, "a document");
        let next = after(rt, alloc, before, accepted);
        documents.push(next).expect(rt, "memory");
    }
    documents
}

// The document after an accepted edit, which has the id that the edit's answer named.
fn after<R: Abort>(rt: &R, alloc: Global, document: &Document, accepted: &Accepted) -> Document {
    let change = document
        .decide(alloc, &accepted.edit)
        .expect(rt, "an edit that is accepted");
    holds(rt, "the id that was told", change.new_id() == accepted.id);
    document.with(alloc, &change).expect(rt, "memory")
}

/// Asserts that each of these is the document of its number, and the raster that of this document.
pub(crate) fn check_sights<R: Threads + Sync + Abort>(
    rt: &R,
    alloc: Global,
    documents: &[Document],
    seen: &[Sight],
) {
    for sight in seen {
        let number = sight.version.number;
        let document = documents.get(number as usize);
        let document = document.expect(rt, "a version that edits made");
        check_same(rt, alloc, number, document, &sight.version.document);
        let is_so = raster(rt, alloc, document) == sight.raster;
        holds_at(rt, "the raster of version", number, is_so);
    }
}

// Asserts that two documents of a version have the same records and the same next id.
fn check_same<R: Abort>(rt: &R, alloc: Global, number: u64, one: &Document, other: &Document) {
    let is_so = one.next_id() == other.next_id();
    holds_at(rt, "the next id of version", number, is_so);
    let is_so = one.count() == other.count();
    holds_at(rt, "the count of version", number, is_so);
    let ours = one.records_in_order(alloc).expect(rt, "memory");
    let theirs = other.records_in_order(alloc).expect(rt, "memory");
    holds_at(rt, "the records of version", number, ours == theirs);
}
