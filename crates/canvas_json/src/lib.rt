//! JSON as requests and saved documents have it: read from a tape, written as bytes.
#![tactic(auto)]

mod fault;
mod field;
mod given;
mod members;
mod number;
mod place;
mod shape;
mod tape;
mod text;
mod writing;

pub use fault::TextFault;
pub use field::{bool_at, bool_or_false, i32_at, i32_of, i32_or_zero, u8_or_zero, u32_at, u32_of};
pub use given::{Given, GivenItems};
pub use members::{has_exactly, has_others};
pub use place::{key_named, parent_at, parent_or_page, pose_at, pose_of, pose_or_still};
pub use shape::{shape_at, shape_members, shape_of};
pub use tape::tape_of;
pub use text::{push_bool, push_comma, push_integer, push_quoted, push_text, push_unsigned};
pub use writing::{push_kind, push_parent, push_pose};
