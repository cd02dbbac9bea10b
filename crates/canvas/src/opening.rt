//! The saved document of a file.

ghost use Rattle.std.specs.Prelude.{◌≡◌, ◌≤◌, IfOk, IfSome, Ok, vec_len};
ghost use Rattle.canvas_saved.specs.Opened.{opened};

use crate::Fault;
use canvas_doc::Document;
use canvas_saved::import;
use std::alloc::Global;
use std::io::Read;

/// The most bytes of a saved document that is opened.
const MOST_BYTES: u64 = 134_217_728;

/// The document of a saved text of at most 134,217,728 bytes; a longer one is refused as 60, and is
/// not read to its end.
pub fn read_document<R: Read + Drop>(alloc: Global, file: R) -> Result<Document, Fault>
    ensures { IfOk result
        (λ document. IfSome (R.remaining file) (λ bytes. opened bytes ≡ Ok document)) }
{
    let text = text_of(alloc, file)?;
    Ok(import(alloc, &text)?)
}

// The bytes of a file, where they are not too many.
fn text_of<R: Read + Drop>(alloc: Global, file: R) -> Result<Vec<u8>, Fault>
    ensures within { IfOk result (λ text. vec_len text ≤ 134217728) }
    ensures whole { IfOk result (λ text. IfSome (R.remaining file) (λ bytes. text.items ≡ bytes)) }
{
    let mut text = Vec::new(alloc);
    file.take(MOST_BYTES + 1).read_to_end(&mut text)?;
    if text.len() as u64 > MOST_BYTES {
        return Err(Fault::Refused(60));
    }
    Ok(text)
}
