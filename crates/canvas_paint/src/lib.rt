//! Display lists and their pictures, row by row, each pixel written once.
#![tactic(auto)]

mod active;
mod bands;
mod block;
mod column;
mod fault;
mod free_row;
mod gate;
mod item;
mod leaf;
mod row;
mod strip;
mod word;
mod workers;
mod worth;

pub use fault::PaintFault;
pub use free_row::FreeRow;
pub use gate::{FreeGate, Gate};
pub use item::Item;
pub use strip::{append_strip, paint_strip, strip_rows};
pub use workers::{append_raster, paint};
