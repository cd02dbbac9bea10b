//! What a window shows: a tree of leaves in the caller's arena, its display list, and its picture.
#![tactic(auto)]

mod bounds;
mod cells;
mod nodes;
mod picture;
mod scenes;
mod shown;
mod side;
mod walk;

pub use canvas_paint::Item;
pub use nodes::Node;
pub use picture::append_picture;
pub use scenes::Scene;
