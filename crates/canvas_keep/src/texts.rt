//! The lines of edits.
ghost use Rattle.std.specs.Prelude.{◌≡◌, map, List, IfOk};
ghost use Rattle.canvas_record.specs.declared.edits.Change.{Change as AChange};
ghost use Rattle.canvas_record.specs.Contents.{Contents};
ghost use Rattle.canvas_wire.specs.EditTexts.{edit_text};
ghost use Rattle.canvas_line.specs.Recording.{Makes};
ghost use Rattle.canvas_keep.specs.Telling.{Tells};

use canvas_code::OutOfMemory;
use canvas_doc::Edit;
use canvas_journal::Batch;
use canvas_wire::write_edit;
use std::alloc::Global;

/// A line for each edit: its text. The lines tell whatever history the edits make.
pub(crate) fn texts_of(alloc: Global, edits: &[Edit]) -> Result<Batch, OutOfMemory>
    ensures texts { IfOk result (λ batch. batch ≡ map edit_text edits.now) }
    ensures told { IfOk result
        (λ batch. (d : Contents) (cs : List AChange) → Makes d edits.now cs → Tells d batch cs) }
{
    let mut batch = Batch::new(alloc)?;
    for edit in edits {
        let text = write_edit(alloc, edit)?;
        batch.push(&text)?;
    }
    Ok(batch)
}
