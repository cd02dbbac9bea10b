//! One interface over a design document: of one caller who has it alone, or of a seat at a document
//! that many share.
#![tactic(auto)]

mod alone;
mod asked;
mod damage_log;
mod exported;
mod fault;
mod gallery;
mod history;
mod kept;
mod kept_pictures;
mod last_export;
mod picture;
mod saving;
mod shared;
mod shelf;
mod window_key;

pub use alone::Alone;
pub use canvas_look::{Board, BoardFault, Dot, Edited, Picture, Saved};
pub use gallery::{Gallery, MOST_GALLERY_BYTES};
pub use last_export::LastExport;
pub use shared::{MOST_KEPT, Shared};
