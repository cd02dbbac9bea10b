//! Images in Netpbm's P6 form: raw pixels, a byte for each sample.
#![tactic(auto)]

mod fault;
mod reader;
mod writer;

pub use fault::PpmFault;
pub use reader::{Image, images_are_p6_files, read};
pub use writer::{Header, header, start, write};
