//! Lists that share their items: a list after a change holds the very blocks that the change left as
//! they were, and the very chunks of the block that it changed. What no other list shares can be changed
//! in place.
#![tactic(auto)]

mod also;
mod block;
mod chunk;
mod contents;
mod counted;
mod hint;
mod in_place;
mod items;
mod list;
mod made;
mod moves;
mod noted;
mod part;
mod reader;
mod search;
mod share;
mod sizes;
mod splice;
mod table;

pub use hint::{Hint, Hinted, ShortHint};
pub use in_place::ItemChange;
pub use items::Items;
pub use list::SharedList;
pub use moves::ListChange;
pub use reader::Reader;
pub use search::{Found, FoundRange};
pub use share::{Share, Shared};
