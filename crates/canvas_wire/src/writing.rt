//! From an edit to its text.
ghost use Rattle.std.specs.Prelude.{◌≡◌, ◌<◌, ◌^◌, ◌++◌, codes, decimal, Ok, IfOk, OnOk};
ghost use Rattle.canvas_key.specs.Text.{IsKey};
ghost use Rattle.canvas_record.specs.Contents.{Contents};
ghost use Rattle.canvas_record.specs.Decision.{decision_of};
ghost use Rattle.canvas_record.specs.declared.edits.Change.{Change};
ghost use Rattle.canvas_record.specs.declared.edits.Edit.TheVariants as edits;
ghost use Rattle.canvas_json.specs.Fit.{FitsParent};
ghost use Rattle.canvas_json.specs.Texts.{in_quotes, boolean_text, parent_text};
ghost use Rattle.canvas_wire.specs.EditTexts.{spot_text, edit_text, FitsSpot, FitsEdit, IsInRange, IsOneLine};
ghost use Rattle.canvas_wire.specs.Requests.{request_of};
ghost use Rattle.canvas_wire.specs.declared.request.Request.TheVariants as requests;

use canvas_code::OutOfMemory;
use canvas_json::{
    push_bool, push_kind, push_parent, push_pose, push_quoted, push_text, push_unsigned,
};
use canvas_key::Key;
use canvas_plane::Pose;
use canvas_record::{Edit, Parent, Spot};
use canvas_shape::Kind;
use std::alloc::{AllocError, Global};

/// As many bytes as most edits take.
const USUAL_BYTES: usize = 256;

fn push_over(line: &mut Vec<u8>, id: u32) -> Result<(), AllocError>
    ensures text { OnOk result
        (line.new.items ≡ line.old.items ++ codes "{\"over\":" ++ decimal id ++ codes "}") }
    ensures fits { id < 2 ^ 32 }
{
    push_text(line, "{\"over\":")?;
    push_unsigned(line, id)?;
    push_text(line, "}")
}

fn push_at(line: &mut Vec<u8>, key: &Key) -> Result<(), AllocError>
    ensures text { OnOk result
        (line.new.items ≡ line.old.items ++ codes "{\"at\":" ++ in_quotes key.now ++ codes "}") }
    ensures fits { OnOk result (IsKey key.now) }
{
    push_text(line, "{\"at\":")?;
    push_quoted(line, key.bytes())?;
    push_text(line, "}")
}

#[tactic(auto, unfolding(crate::specs::EditTexts::spot_text))]
fn push_spot(line: &mut Vec<u8>, spot: &Spot) -> Result<(), AllocError>
    ensures text { OnOk result (line.new.items ≡ line.old.items ++ spot_text spot.now) }
    ensures fits { OnOk result (FitsSpot spot.now) }
{
    match spot {
        Spot::Back => push_text(line, "\"back\""),
        Spot::Front => push_text(line, "\"front\""),
        Spot::Over(id) => push_over(line, *id),
        Spot::At(key) => push_at(line, key),
    }
}

// Appends the first members of a new shape.
fn push_created(line: &mut Vec<u8>, hidden: bool, parent: Parent) -> Result<(), AllocError>
    ensures text { OnOk result (line.new.items
        ≡ line.old.items ++ codes "{\"hidden\":" ++ boolean_text hidden ++ codes ",\"parent\":"
        ++ parent_text parent) }
    ensures fits { FitsParent parent }
{
    push_text(line, "{\"hidden\":")?;
    push_bool(line, hidden)?;
    push_text(line, ",\"parent\":")?;
    push_parent(line, parent)
}

// Appends the last members of a new shape.
fn push_create_at(line: &mut Vec<u8>, spot: &Spot) -> Result<(), AllocError>
    ensures text { OnOk result (line.new.items
        ≡ line.old.items ++ codes ",\"spot\":" ++ spot_text spot.now
        ++ codes ",\"verb\":\"create\"}") }
    ensures fits { OnOk result (FitsSpot spot.now) }
{
    push_text(line, ",\"spot\":")?;
    push_spot(line, spot)?;
    push_text(line, ",\"verb\":\"create\"}")
}

#[tactic(auto, unfolding(crate::specs::EditTexts::edit_text))]
fn push_create(
    line: &mut Vec<u8>,
    kind: &Kind,
    pose: &Pose,
    hidden: bool,
    parent: Parent,
    spot: &Spot,
) -> Result<(), AllocError>
    ensures text { OnOk result (line.new.items
        ≡ line.old.items ++ edit_text (edits.Create kind.now pose.now hidden parent spot.now)) }
    ensures fits { OnOk result (FitsEdit (edits.Create kind.now pose.now hidden parent spot.now)) }
{
    push_created(line, hidden, parent)?;
    push_text(line, ",\"pose\":")?;
    push_pose(line, pose)?;
    push_text(line, ",\"shape\":")?;
    push_kind(line, kind)?;
    push_create_at(line, spot)
}

#[tactic(auto, unfolding(crate::specs::EditTexts::edit_text))]
fn push_move(line: &mut Vec<u8>, id: u32, parent: Parent, spot: &Spot) -> Result<(), AllocError>
    ensures text { OnOk result
        (line.new.items ≡ line.old.items ++ edit_text (edits.Move id parent spot.now)) }
    ensures fits { OnOk result (FitsEdit (edits.Move id parent spot.now)) }
{
    push_text(line, "{\"id\":")?;
    push_unsigned(line, id)?;
    push_text(line, ",\"parent\":")?;
    push_parent(line, parent)?;
    push_text(line, ",\"spot\":")?;
    push_spot(line, spot)?;
    push_text(line, ",\"verb\":\"move\"}")
}

#[tactic(auto, unfolding(crate::specs::EditTexts::edit_text))]
fn push_pose_edit(line: &mut Vec<u8>, id: u32, pose: &Pose) -> Result<(), AllocError>
    ensures text { OnOk result
        (line.new.items ≡ line.old.items ++ edit_text (edits.Pose id pose.now)) }
    ensures fits { OnOk result (FitsEdit (edits.Pose id pose.now)) }
{
    push_text(line, "{\"id\":")?;
    push_unsigned(line, id)?;
    push_text(line, ",\"pose\":")?;
    push_pose(line, pose)?;
    push_text(line, ",\"verb\":\"pose\"}")
}

#[tactic(auto, unfolding(crate::specs::EditTexts::edit_text))]
fn push_reshape(line: &mut Vec<u8>, id: u32, kind: &Kind) -> Result<(), AllocError>
    ensures text { OnOk result
        (line.new.items ≡ line.old.items ++ edit_text (edits.Reshape id kind.now)) }
    ensures fits { OnOk result (FitsEdit (edits.Reshape id kind.now)) }
{
    push_text(line, "{\"id\":")?;
    push_unsigned(line, id)?;
    push_text(line, ",\"shape\":")?;
    push_kind(line, kind)?;
    push_text(line, ",\"verb\":\"reshape\"}")
}

#[tactic(auto, unfolding(crate::specs::EditTexts::edit_text))]
fn push_show(line: &mut Vec<u8>, id: u32, hidden: bool) -> Result<(), AllocError>
    ensures text { OnOk result
        (line.new.items ≡ line.old.items ++ edit_text (edits.Show id hidden)) }
    ensures fits { OnOk result (FitsEdit (edits.Show id hidden)) }
{
    push_text(line, "{\"hidden\":")?;
    push_bool(line, hidden)?;
    push_text(line, ",\"id\":")?;
    push_unsigned(line, id)?;
    push_text(line, ",\"verb\":\"show\"}")
}

#[tactic(auto, unfolding(crate::specs::EditTexts::edit_text))]
fn push_delete(line: &mut Vec<u8>, id: u32) -> Result<(), AllocError>
    ensures text { OnOk result (line.new.items ≡ line.old.items ++ edit_text (edits.Delete id)) }
    ensures fits { OnOk result (FitsEdit (edits.Delete id)) }
{
    push_text(line, "{\"id\":")?;
    push_unsigned(line, id)?;
    push_text(line, ",\"verb\":\"delete\"}")
}

#[tactic(auto, unfolding(crate::specs::EditTexts::edit_text))]
fn push_respace(line: &mut Vec<u8>, parent: Parent) -> Result<(), AllocError>
    ensures text { OnOk result
        (line.new.items ≡ line.old.items ++ edit_text (edits.Respace parent)) }
    ensures fits { OnOk result (FitsEdit (edits.Respace parent)) }
{
    push_text(line, "{\"parent\":")?;
    push_parent(line, parent)?;
    push_text(line, ",\"verb\":\"respace\"}")
}

#[tactic(auto, unfolding(crate::specs::EditTexts::edit_text))]
fn push_edit(line: &mut Vec<u8>, edit: &Edit) -> Result<(), AllocError>
    ensures text { OnOk result (line.new.items ≡ line.old.items ++ edit_text edit.now) }
    ensures fits { OnOk result (FitsEdit edit.now) }
{
    match edit {
        Edit::Create {
            kind,
            pose,
            hidden,
            parent,
            spot,
        } => push_create(line, kind, pose, *hidden, *parent, spot),
        Edit::Move { id, parent, spot } => push_move(line, *id, *parent, spot),
        Edit::Pose { id, pose } => push_pose_edit(line, *id, pose),
        Edit::Reshape { id, kind } => push_reshape(line, *id, kind),
        Edit::Show { id, hidden } => push_show(line, *id, *hidden),
        Edit::Delete { id } => push_delete(line, *id),
        Edit::Respace { parent } => push_respace(line, *parent),
    }
}

/// The text of an edit: the compact JSON of the object that asks for it, its members in the order
/// of their names, in one line.
///
/// It is read as this edit again (`read_request`) wherever its coordinates have 32 bits, and those
/// of each edit have that some document accepts.
pub fn write_edit(alloc: Global, edit: &Edit) -> Result<Vec<u8>, OutOfMemory>
    ensures text { IfOk result (λ line. line.items ≡ edit_text edit.now) }
    ensures one_line { IfOk result (λ line. IsOneLine line.items) }
    ensures reads { IfOk result
        (λ line. IsInRange edit.now → request_of line.items ≡ Ok (requests.Edit edit.now)) }
    ensures accepted { IfOk result
        (λ line. (document : Contents) (change : Change) → decision_of edit.now document ≡ Ok change
        → request_of line.items ≡ Ok (requests.Edit edit.now)) }
{
    let mut line = Vec::with_capacity(alloc, USUAL_BYTES)?;
    push_edit(&mut line, edit)?;
    Ok(line)
}
