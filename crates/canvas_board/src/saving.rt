//! The text of a saved document, ready to be shared.

ghost use Rattle.std.specs.Prelude.{◌≡◌, ◌≤◌, ◌^◌, IfOk, vec_len};
ghost use Rattle.std.specs.Arc.{arc_value};
ghost use Rattle.canvas_json.specs.Saved.{saved_text_of};

use canvas_code::OutOfMemory;
use canvas_doc::Document;
use canvas_look::MOST_BYTES;
use canvas_saved::export;
use std::alloc::Global;
use std::sync::Arc;

/// The saved text of a document, ready to be shared.
pub(crate) fn text_of(
    alloc: Global,
    document: &Document,
) -> Result<Arc<Vec<u8>, Global>, OutOfMemory>
    ensures saved { IfOk result (λ text. (arc_value text).items ≡ saved_text_of document.now) }
    ensures small { IfOk result (λ text. vec_len (arc_value text) ≤ 2 ^ 40) }
{
    let text = export(alloc, document)?;
    if text.len() > MOST_BYTES {
        return Err(OutOfMemory);
    }
    Ok(Arc::new(alloc, text)?)
}
