//! Saved documents: from the text of a file, and to a text.
ghost use Rattle.std.specs.Prelude.{◌≡◌, ◌≤◌, IfOk, IfSome, Ok, length};
ghost use Rattle.canvas_saved.specs.Opened.{opened};
ghost use Rattle.canvas_json.specs.Saved.{saved_text_of};

use crate::fault::{Deed, Fault, Place, refused};
use canvas_code::Coded;
use canvas_doc::Document;
use canvas_saved::{StoreFault, export, import};
use std::alloc::Global;
use std::io::Read;

/// The most bytes of a saved document that is opened.
const MOST_BYTES: u64 = 134_217_728;

/// The document of a saved text of at most 134,217,728 bytes; a longer one is refused as 60, and is
/// not read to its end.
pub fn read_document<R: Read + Drop>(
    alloc: Global,
    file: R,
    place: Place,
) -> Result<Document, Fault>
    ensures { IfOk result
        (λ document. IfSome (R.remaining file) (λ bytes. opened bytes ≡ Ok document)) }
{
    let text = text_of(alloc, file, place)?;
    match import(alloc, &text) {
        Ok(document) => Ok(document),
        Err(StoreFault::OutOfMemory) => Err(Fault::Memory),
        Err(fault) => Err(Fault::Document {
            place,
            code: fault.code(),
        }),
    }
}

// The bytes of a file, where they are not too many.
fn text_of<R: Read + Drop>(alloc: Global, file: R, place: Place) -> Result<Vec<u8>, Fault>
    ensures within { IfOk result (λ text. length text.items ≤ 134217728) }
    ensures whole { IfOk result (λ text. IfSome (R.remaining file) (λ bytes. text.items ≡ bytes)) }
{
    let mut text = Vec::new(alloc);
    match file.take(MOST_BYTES + 1).read_to_end(&mut text) {
        Ok(_) => limited(text, place),
        Err(error) => Err(refused(place, Deed::Read, error)),
    }
}

// A text that has no more bytes than are opened.
fn limited(text: Vec<u8>, place: Place) -> Result<Vec<u8>, Fault>
    ensures within { IfOk result (λ r. length r.items ≤ 134217728) }
    ensures same { IfOk result (λ r. r.items ≡ text.items) }
{
    if text.len() as u64 > MOST_BYTES {
        return Err(Fault::Document { place, code: 60 });
    }
    Ok(text)
}

/// The text of a saved document.
pub fn saved(alloc: Global, document: &Document) -> Result<Vec<u8>, Fault>
    ensures { IfOk result (λ text. text.items ≡ saved_text_of document.now) }
{
    match export(alloc, document) {
        Ok(text) => Ok(text),
        Err(_) => Err(Fault::Memory),
    }
}
