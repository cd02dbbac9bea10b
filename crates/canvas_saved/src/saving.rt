//! From records to a text.
ghost use Rattle.std.specs.Prelude.{◌≡◌, ◌++◌, ◌≤◌, length, false, All, Ok, IfOk, OnOk};
ghost use Rattle.canvas_record.specs.Contents.{IsWellFormed};
ghost use Rattle.canvas_json.specs.Fit.{FitsParent};
ghost use Rattle.canvas_json.specs.Saved.{saved_text_of};
ghost use Rattle.canvas_json.specs.Texts.{list_text};
ghost use Rattle.canvas_saved.specs.declared.formats.Format.TheVariants.{One};
ghost use Rattle.canvas_saved.specs.Formats.{most_of};
ghost use Rattle.canvas_saved.specs.Kept.{IsKept};
ghost use Rattle.canvas_saved.specs.Opened.{opened, records_read};
ghost use Rattle.canvas_saved.specs.Saved.{text_in, contents_with};
ghost use Rattle.canvas_saved.specs.SavedText.{head_text, place_text, record_text, document_text};

use canvas_code::OutOfMemory;
use canvas_json::{
    push_bool, push_comma, push_kind, push_parent, push_pose, push_quoted, push_text, push_unsigned,
};
use canvas_record::{Place, Record};
use canvas_shape::Kind;
use std::alloc::{AllocError, Global};

// The index and the parent.
#[tactic(auto, unfolding(crate::specs::SavedText::place_text))]
fn push_place(out: &mut Vec<u8>, place: &Place) -> Result<(), AllocError>
    ensures text { OnOk result (out.new.items ≡ out.old.items ++ place_text place.now) }
    ensures fits { OnOk result (FitsParent place.now.parent) }
{
    push_text(out, "{\"index\":")?;
    push_quoted(out, place.index.bytes())?;
    push_text(out, ",\"parent\":")?;
    push_parent(out, place.parent)?;
    push_text(out, "}")
}

// What comes before the place of a record.
fn push_head(out: &mut Vec<u8>, hidden: bool, id: u32) -> Result<(), AllocError>
    ensures { OnOk result (out.new.items ≡ out.old.items ++ head_text hidden id) }
{
    push_text(out, "{\"hidden\":")?;
    push_bool(out, hidden)?;
    push_text(out, ",\"id\":")?;
    push_unsigned(out, id)?;
    push_text(out, ",\"place\":")
}

fn push_record(out: &mut Vec<u8>, shape: &Record) -> Result<(), AllocError>
    ensures text { OnOk result (out.new.items ≡ out.old.items ++ record_text shape.now) }
    ensures kept { OnOk result (IsKept shape.now) }
{
    push_head(out, shape.hidden, shape.id)?;
    push_place(out, &shape.place)?;
    push_text(out, ",\"pose\":")?;
    push_pose(out, &shape.pose)?;
    push_text(out, ",\"shape\":")?;
    push_kind(out, &shape.kind)?;
    push_text(out, "}")
}

// The records of a list, and its closing bracket.
fn push_records(out: &mut Vec<u8>, records: &[&Record]) -> Result<(), AllocError>
    ensures text { OnOk result
        (out.new.items ≡ out.old.items ++ list_text (λ r. record_text r.now) false records.now) }
    ensures kept { OnOk result (All (λ r. IsKept r.now) records.now) }
{
    let mut later = false;
    for shape in records {
        push_comma(out, later)?;
        push_record(out, shape)?;
        later = true;
    }
    push_text(out, "]")
}

// Room that suffices for the text of these records: each takes at most 200 bytes, those of its
// index, and 20 for each vertex.
fn room_for(records: &[&Record]) -> usize {
    let mut room: usize = 64;
    for shape in records {
        let vertices = match &shape.kind {
            Kind::Polygon { points, .. } => points.as_slice().len(),
            _ => 0,
        };
        room = room
            .saturating_add(200 + shape.place.index.bytes().len())
            .saturating_add(vertices.saturating_mul(20));
    }
    room
}

// The text of a document with these records and this next id.
fn document_text(alloc: Global, next: u32, records: &[&Record]) -> Result<Vec<u8>, AllocError>
    ensures text { IfOk result (λ out. out.items
        ≡ document_text next (list_text (λ r. record_text r.now) false records.now)) }
    ensures kept { IfOk result (λ _. All (λ r. IsKept r.now) records.now) }
{
    let mut out = Vec::with_capacity(alloc, room_for(records))?;
    push_text(&mut out, "{\"format\":2,\"next\":")?;
    push_unsigned(&mut out, next)?;
    push_text(&mut out, ",\"shapes\":[")?;
    push_records(&mut out, records)?;
    push_text(&mut out, "}")?;
    Ok(out)
}

/// The text of a document of these records, by rising id, and this next id, of format 2: compact JSON,
/// members in the order of their names, colours in lower case, and no line feed at the end.
///
/// `older` is a law: what format 1 was for the document, if it had room for it, opens as it too.
pub fn write_records(alloc: Global, next: u32, records: &[&Record]) -> Result<Vec<u8>, OutOfMemory>
    requires { IsWellFormed (contents_with next records.now) }
    ensures saved { IfOk result
        (λ text. text.items ≡ saved_text_of (contents_with next records.now)) }
    ensures opens { IfOk result (λ text. opened text.items ≡ Ok (contents_with next records.now)) }
    ensures reads { IfOk result
        (λ text. records_read text.items ≡ Ok (contents_with next records.now)) }
    ensures older { IfOk result (λ _. length (contents_with next records.now).records ≤ most_of One
        → opened (text_in One (contents_with next records.now))
        ≡ Ok (contents_with next records.now)) }
{
    Ok(document_text(alloc, next, records)?)
}
