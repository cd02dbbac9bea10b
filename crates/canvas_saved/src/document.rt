//! Documents as saved texts, and back.
ghost use Rattle.std.specs.Prelude.{◌≡◌, ◌≤◌, length, false, Ok, Err, IfOk};
ghost use Rattle.std.specs.Str.{is_utf8};
ghost use Rattle.canvas_json.specs.Saved.{saved_text_of};
ghost use Rattle.canvas_saved.specs.Faults.{Gives};
ghost use Rattle.canvas_saved.specs.Formats.{most_of};
ghost use Rattle.canvas_saved.specs.Opened.{opened};
ghost use Rattle.canvas_saved.specs.Saved.{text_in};
ghost use Rattle.canvas_saved.specs.declared.fault.StoreFault.TheVariants.{BadJson};
ghost use Rattle.canvas_saved.specs.declared.formats.Format.TheVariants.{One};

use crate::fault::StoreFault;
use crate::opening::{SavedRecords, read_records};
use crate::saving::write_records;
use canvas_code::OutOfMemory;
use canvas_doc::Document;
use std::alloc::Global;

/// The document of a saved text of format 1 or 2, by serde_json's reading of it.
///
/// White space and any order of members and records are taken. The first of these faults that
/// applies is answered: 50 where the text is not JSON; 60 where it is no object of exactly
/// `format` 1 or 2, a `next` of 1 to 4,294,967,295 and a list `shapes` of at most 4,096 elements
/// in format 1 or 16,384 in format 2; 61 with the least position whose element is no record of
/// the text's own format within its limits; 62 with the least position whose record does not
/// belong to a page tree. 1 is answered only where the allocator refused memory; bytes that are no
/// UTF-8 take none.
#[tactic(auto, unfolding(crate::specs::Opened::opened))]
pub fn import(alloc: Global, text: &[u8]) -> Result<Document, StoreFault>
    ensures document { Gives result (opened text.now) }
    ensures text { is_utf8 text.now ≡ false → result ≡ Err BadJson }
{
    let SavedRecords { records, next } = read_records(alloc, text)?;
    Ok(Document::restore(alloc, records, next)?)
}

/// The text of a saved document of format 2: compact JSON, members in the order of their names,
/// records by rising id, colours in lower case, and no line feed at the end.
///
/// `older` is a law: what format 1 was for the document, if it had room for it, opens as it too.
pub fn export(alloc: Global, document: &Document) -> Result<Vec<u8>, OutOfMemory>
    ensures saved { IfOk result (λ text. text.items ≡ saved_text_of document.now) }
    ensures opens { IfOk result (λ text. opened text.items ≡ Ok document.now) }
    ensures older { IfOk result (λ _. length document.now.records ≤ most_of One
        → opened (text_in One document.now) ≡ Ok document.now) }
{
    let records = document.records_in_order(alloc)?;
    write_records(alloc, document.next_id(), &records)
}
