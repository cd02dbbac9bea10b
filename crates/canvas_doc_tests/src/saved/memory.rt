//! Saved documents for which memory may be refused: run with each allocation refused in turn, each call
//! answers want of memory or what it answers with ample memory.

use crate::saved::asserts::holds;
use canvas_code::OutOfMemory;
use canvas_doc::Document;
use canvas_saved::{StoreFault, export, import};
use std::alloc::Global;
use std::test::Fail;

const TWO: &[u8] =
    br#"{"format":2,"next":3,"shapes":[{"hidden":false,"id":1,"place":{"index":"a0","parent":null},"pose":{"dx":0,"dy":0,"flip":false,"quarter":0},"shape":{"fill":"ff0000","h":1,"kind":"rect","w":2}},{"hidden":false,"id":2,"place":{"index":"a1","parent":null},"pose":{"dx":0,"dy":0,"flip":false,"quarter":0},"shape":{"fill":"0000ff","h":1,"kind":"rect","w":2}}]}"#;

const OLDER_TWO: &[u8] =
    br#"{"format":1,"next":3,"shapes":[{"hidden":false,"id":1,"index":"a0","parent":null,"pose":{"dx":0,"dy":0,"flip":false,"quarter":0},"shape":{"fill":"ff0000","h":1,"kind":"rect","w":2}},{"hidden":false,"id":2,"index":"a1","parent":null,"pose":{"dx":0,"dy":0,"flip":false,"quarter":0},"shape":{"fill":"0000ff","h":1,"kind":"rect","w":2}}]}"#;

const NO_KEY: &[u8] =
    br#"{"format":2,"next":3,"shapes":[{"hidden":false,"id":1,"place":{"index":"a00","parent":null},"pose":{"dx":0,"dy":0,"flip":false,"quarter":0},"shape":{"kind":"group"}}]}"#;

// Whether of two answers at most one is want of memory, and each other one is right.
fn are_right(first: Result<bool, OutOfMemory>, again: Result<bool, OutOfMemory>) -> bool {
    match (first, again) {
        (Ok(right), Ok(too)) => right && too,
        (Ok(right), Err(OutOfMemory)) => right,
        (Err(OutOfMemory), Ok(right)) => right,
        (Err(OutOfMemory), Err(OutOfMemory)) => false,
    }
}

// Whether a document is saved as a text.
fn is_saved(alloc: Global, document: &Document, text: &[u8]) -> Result<bool, OutOfMemory> {
    Ok(export(alloc, document)?.as_slice() == text)
}

// Whether a text opens as a document that has two shapes.
fn opens(alloc: Global, text: &[u8]) -> Result<bool, OutOfMemory> {
    match import(alloc, text) {
        Ok(document) => Ok(document.count() == 2 && document.next_id() == 3),
        Err(StoreFault::OutOfMemory) => Err(OutOfMemory),
        Err(_) => Ok(false),
    }
}

// Whether the first record of a text is refused.
fn is_refused(alloc: Global, text: &[u8]) -> Result<bool, OutOfMemory> {
    match import(alloc, text) {
        Err(StoreFault::BadRecord { position }) => Ok(position == 0),
        Err(StoreFault::OutOfMemory) => Err(OutOfMemory),
        _ => Ok(false),
    }
}

// Whether the records of a document are those of the ids 1 and 2, in this order.
fn are_in_order(alloc: Global, document: &Document) -> Result<bool, OutOfMemory> {
    let records = document.records_in_order(alloc)?;
    Ok(match records.as_slice() {
        [first, second] => first.id == 1 && second.id == 2,
        _ => false,
    })
}

#[test]
fn saved_with_little_memory(rt: HostRuntime) -> Result<(), Fail> {
    let alloc = rt.alloc();
    let document = import(alloc, TWO)?;
    let first = is_saved(alloc, &document, TWO);
    let again = is_saved(alloc, &document, TWO);
    holds(&rt, "saved", are_right(first, again));
    let first = are_in_order(alloc, &document);
    let again = are_in_order(alloc, &document);
    holds(&rt, "in order", are_right(first, again));
    Ok(())
}

#[test]
fn opened_with_little_memory(rt: HostRuntime) -> Result<(), Fail> {
    let alloc = rt.alloc();
    let first = opens(alloc, TWO);
    holds(&rt, "opened", are_right(first, opens(alloc, TWO)));
    let first = opens(alloc, OLDER_TWO);
    holds(&rt, "the older", are_right(first, opens(alloc, OLDER_TWO)));
    let first = is_refused(alloc, NO_KEY);
    holds(&rt, "refused", are_right(first, is_refused(alloc, NO_KEY)));
    Ok(())
}
