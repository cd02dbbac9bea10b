//! Parts of records and edits, each appended as compact JSON to the text so far.
ghost use Rattle.std.specs.Prelude.{◌≡◌, ◌<◌, ◌^◌, ◌++◌, OnOk, IfSome, codes, decimal, false};
ghost use Rattle.std.specs.Fmt.{signed_decimal};
ghost use Rattle.canvas_shape.specs.Names.{colour_text};
ghost use Rattle.canvas_shape.specs.declared.Kind.TheVariants.{Frame};
ghost use Rattle.canvas_json.specs.Fit.{FitsKind, FitsParent, FitsSides, IsRead};
ghost use Rattle.canvas_json.specs.Texts.{in_quotes, fill_text, point_text, list_text, sides_text, kind_text, parent_text, pose_text};

use crate::text::{push_bool, push_comma, push_integer, push_quoted, push_text, push_unsigned};
use canvas_plane::{Point, Pose};
use canvas_record::Parent;
use canvas_shape::{Colour, Kind};
use std::alloc::AllocError;

// Six hexadecimal digits, in lower case.
fn push_colour(out: &mut Vec<u8>, colour: &Colour) -> Result<(), AllocError>
    ensures text { OnOk result
        (out.new.items ≡ out.old.items ++ in_quotes (colour_text colour.now)) }
    ensures fits { IsRead colour.now }
{
    push_quoted(out, &colour.text())
}

// A frame's fill.
#[tactic(auto, unfolding(crate::specs::Texts::fill_text))]
fn push_fill(out: &mut Vec<u8>, fill: &Option<Colour>) -> Result<(), AllocError>
    ensures text { OnOk result (out.new.items ≡ out.old.items ++ fill_text fill.now) }
    ensures fits { IfSome fill.now IsRead }
{
    match fill {
        Some(colour) => push_colour(out, colour),
        None => push_text(out, "null"),
    }
}

/// Appends `null` for the page, else the shape's id.
#[tactic(auto, unfolding(crate::specs::Texts::parent_text))]
pub fn push_parent(out: &mut Vec<u8>, parent: Parent) -> Result<(), AllocError>
    ensures text { OnOk result (out.new.items ≡ out.old.items ++ parent_text parent) }
    ensures fits { FitsParent parent }
{
    match parent {
        Parent::Page => push_text(out, "null"),
        Parent::Shape(id) => push_unsigned(out, id),
    }
}

// The members of a pose that say how far it moves.
fn push_shift(out: &mut Vec<u8>, pose: &Pose) -> Result<(), AllocError>
    ensures { OnOk result (out.new.items
        ≡ out.old.items ++ codes "{\"dx\":" ++ signed_decimal pose.now.dx ++ codes ",\"dy\":"
        ++ signed_decimal pose.now.dy) }
{
    push_text(out, "{\"dx\":")?;
    push_integer(out, pose.dx)?;
    push_text(out, ",\"dy\":")?;
    push_integer(out, pose.dy)
}

// The last member of a pose.
fn push_quarter(out: &mut Vec<u8>, quarter: u8) -> Result<(), AllocError>
    ensures text { OnOk result
        (out.new.items ≡ out.old.items ++ codes ",\"quarter\":" ++ decimal quarter ++ codes "}") }
    ensures fits { quarter < 2 ^ 8 }
{
    push_text(out, ",\"quarter\":")?;
    push_unsigned(out, u32::from(quarter))?;
    push_text(out, "}")
}

/// Appends a pose.
#[tactic(auto, unfolding(crate::specs::Texts::pose_text))]
pub fn push_pose(out: &mut Vec<u8>, pose: &Pose) -> Result<(), AllocError>
    ensures text { OnOk result (out.new.items ≡ out.old.items ++ pose_text pose.now) }
    ensures fits { OnOk result (pose.now.quarter < 2 ^ 8) }
{
    push_shift(out, pose)?;
    push_text(out, ",\"flip\":")?;
    push_bool(out, pose.flip)?;
    push_quarter(out, pose.quarter)
}

// The list of the two coordinates.
#[tactic(auto, unfolding(crate::specs::Texts::point_text))]
fn push_point(out: &mut Vec<u8>, point: &Point) -> Result<(), AllocError>
    ensures { OnOk result (out.new.items ≡ out.old.items ++ point_text point.now) }
{
    push_text(out, "[")?;
    push_integer(out, point.x)?;
    push_text(out, ",")?;
    push_integer(out, point.y)?;
    push_text(out, "]")
}

// The points of a list, and its closing bracket.
fn push_points(out: &mut Vec<u8>, points: &[Point]) -> Result<(), AllocError>
    ensures { OnOk result (out.new.items ≡ out.old.items ++ list_text point_text false points.now) }
{
    let mut later = false;
    for point in points {
        push_comma(out, later)?;
        push_point(out, point)?;
        later = true;
    }
    push_text(out, "]")
}

// What comes behind the fill of a shape with sides.
#[tactic(auto, unfolding(crate::specs::Texts::sides_text))]
fn push_sides(out: &mut Vec<u8>, kind: &str, w: u32, h: u32) -> Result<(), AllocError>
    ensures text { OnOk result (out.new.items ≡ out.old.items ++ sides_text kind.now w h) }
    ensures fits { FitsSides w h }
{
    push_text(out, ",\"h\":")?;
    push_unsigned(out, h)?;
    push_text(out, ",\"kind\":")?;
    push_quoted(out, kind.as_bytes())?;
    push_text(out, ",\"w\":")?;
    push_unsigned(out, w)?;
    push_text(out, "}")
}

fn push_filled(
    out: &mut Vec<u8>,
    kind: &str,
    w: u32,
    h: u32,
    fill: &Colour,
) -> Result<(), AllocError>
    ensures text { OnOk result (out.new.items
        ≡ out.old.items ++ codes "{\"fill\":" ++ in_quotes (colour_text fill.now)
        ++ sides_text kind.now w h) }
    ensures fits { OnOk result (FitsSides w h × IsRead fill.now) }
{
    push_text(out, "{\"fill\":")?;
    push_colour(out, fill)?;
    push_sides(out, kind, w, h)
}

#[tactic(auto, unfolding(crate::specs::Texts::kind_text))]
fn push_frame(out: &mut Vec<u8>, w: u32, h: u32, fill: &Option<Colour>) -> Result<(), AllocError>
    ensures text { OnOk result (out.new.items ≡ out.old.items ++ kind_text (Frame w h fill.now)) }
    ensures fits { OnOk result (FitsSides w h × IfSome fill.now IsRead) }
{
    push_text(out, "{\"fill\":")?;
    push_fill(out, fill)?;
    push_sides(out, "frame", w, h)
}

fn push_polygon(out: &mut Vec<u8>, points: &[Point], fill: &Colour) -> Result<(), AllocError>
    ensures text { OnOk result (out.new.items
        ≡ out.old.items ++ codes "{\"fill\":" ++ in_quotes (colour_text fill.now)
        ++ codes ",\"kind\":\"polygon\",\"points\":[" ++ list_text point_text false points.now
        ++ codes "}") }
    ensures fits { OnOk result (IsRead fill.now) }
{
    push_text(out, "{\"fill\":")?;
    push_colour(out, fill)?;
    push_text(out, ",\"kind\":\"polygon\",\"points\":[")?;
    push_points(out, points)?;
    push_text(out, "}")
}

/// Appends a shape.
#[tactic(auto, unfolding(crate::specs::Texts::kind_text))]
pub fn push_kind(out: &mut Vec<u8>, kind: &Kind) -> Result<(), AllocError>
    ensures text { OnOk result (out.new.items ≡ out.old.items ++ kind_text kind.now) }
    ensures fits { OnOk result (FitsKind kind.now) }
{
    match kind {
        Kind::Group => push_text(out, "{\"kind\":\"group\"}"),
        Kind::Frame { w, h, fill } => push_frame(out, *w, *h, fill),
        Kind::Rect { w, h, fill } => push_filled(out, "rect", *w, *h, fill),
        Kind::Ellipse { w, h, fill } => push_filled(out, "ellipse", *w, *h, fill),
        Kind::Polygon { points, fill } => push_polygon(out, points.as_slice(), fill),
    }
}
