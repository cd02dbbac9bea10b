//! The writer of a line.
ghost use Rattle.std.specs.Prelude.{◌≡◌, MatchBool};
ghost use Rattle.std.specs.Mem.{manually_drop_value};
ghost use Rattle.left_right.specs.Sides.{view as seat_view};
ghost use Rattle.canvas_line.specs.Trails.{Facts};
ghost use Rattle.canvas_line.specs.Rule.{Knows};

use crate::published::Published;
use crate::rule::{Constant, Sees, View};
use core::mem::replace_with;
use left_right::writer::Writer;
use std::alloc::Global;
use std::mem::ManuallyDrop;
use std::sync::Wait;

pub(crate) type LineWriter = Writer<Published, Published, View, Constant, Global>;

// Publishes, unless memory runs out.
pub(crate) fn publish<R: Wait>(
    rt: &R,
    mut writer: LineWriter,
    next: Published,
) -> (LineWriter, bool)
    requires { next.facts ≡ writer.desk.shown.value.facts }
    ensures value { MatchBool result.1 (result.0.desk.shown.value ≡ next)
        (result.0.desk.shown.value ≡ writer.desk.shown.value) }
    ensures known { MatchBool result.1 (Knows (seat_view result.0.desk.place) next.facts)
        (Unit {0}) }
    ensures view { (f : Facts) → Knows (seat_view writer.desk.place) f
        → Knows (seat_view result.0.desk.place) f }
{
    match writer.append(next) {
        Ok(()) => {
            let (writer, done) = writer.publish_as::<Sees, R>(rt);
            match done {
                Ok(()) => return (writer, true),
                Err(_) => return (writer, false),
            }
        }
        Err(_) => return (writer, false),
    }
}

// Publishes by the writer at its place.
pub(crate) fn publish_at<R: Wait>(
    rt: &R,
    writer: &mut ManuallyDrop<LineWriter>,
    next: Published,
) -> bool
    requires { next.facts ≡ (manually_drop_value writer.old).desk.shown.value.facts }
    ensures value { MatchBool result ((manually_drop_value writer.new).desk.shown.value ≡ next)
        ((manually_drop_value writer.new).desk.shown.value
        ≡ (manually_drop_value writer.old).desk.shown.value) }
    ensures view { (f : Facts) → Knows (seat_view (manually_drop_value writer.old).desk.place) f
        → Knows (seat_view (manually_drop_value writer.new).desk.place) f }
{
    replace_with(
        writer,
        next,
        |writer: ManuallyDrop<LineWriter>, next: Published| -> (ManuallyDrop<LineWriter>, bool)
            requires { next.facts ≡ (manually_drop_value writer).desk.shown.value.facts }
            ensures value { MatchBool result.1
                ((manually_drop_value result.0).desk.shown.value ≡ next)
                ((manually_drop_value result.0).desk.shown.value
                ≡ (manually_drop_value writer).desk.shown.value) }
            ensures view { (f : Facts) → Knows (seat_view (manually_drop_value writer).desk.place) f
                → Knows (seat_view (manually_drop_value result.0).desk.place) f }
        {
            let (writer, done) = publish(rt, ManuallyDrop::into_inner(writer), next);
            (unsafe { ManuallyDrop::new_unchecked(writer) }, done)
        },
    )
}
