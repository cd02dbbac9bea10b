//! What the program says of a store.

use crate::fault::Misfit;
use canvas_folder::STORE;
use canvas_store::StoreFault;
use std::fmt;
use std::fmt::{Formatter, Write};

/// Writes why a document is not held at a store.
pub fn write_unheld<W: Write>(
    address: &str,
    fault: &StoreFault,
    f: &mut Formatter<W>,
) -> fmt::Result {
    match fault {
        StoreFault::Io(error) => write!(f, "the store {address} can't be used: {error}"),
        StoreFault::Busy(words) => {
            write!(
                f,
                "the store {address} has given the document to another: {words}"
            )
        }
        other => write_lost(address, other, f),
    }
}

/// Writes why nothing more is kept at a store.
pub fn write_lost<W: Write>(
    address: &str,
    fault: &StoreFault,
    f: &mut Formatter<W>,
) -> fmt::Result {
    write!(f, "the store {address} ")?;
    match fault {
        StoreFault::Io(error) => write!(f, "is lost: {error}"),
        StoreFault::Ended => f.write_str("has ended the connection"),
        StoreFault::Busy(words) | StoreFault::Refused(words) => write!(f, "refuses: {words}"),
        StoreFault::Lost(words) => write!(f, "keeps no more of the document: {words}"),
        StoreFault::Strange => f.write_str("gave an answer that is none"),
        StoreFault::Memory => f.write_str("is not used: out of memory"),
    }
}

/// Writes why a folder is not served with a store, or without one.
pub fn write_misfit<W: Write>(
    folder: &str,
    address: &str,
    misfit: Misfit,
    f: &mut Formatter<W>,
) -> fmt::Result {
    match misfit {
        Misfit::NoSocket => write!(f, "a store is named as unix:PATH, and not {address}"),
        Misfit::NoName => write!(
            f,
            "the last part of {folder} is no name at a store: 1 to 63 small letters, digits and hyphens, with no hyphen first"
        ),
        Misfit::Foreign => write!(
            f,
            "the folder {folder} has a document that no store keeps: --store is for a new folder"
        ),
        Misfit::OfStore => write!(
            f,
            "a store keeps the document of {folder}: serve it with --store ({folder}/{STORE} says which)"
        ),
        Misfit::OtherStore => write!(
            f,
            "{folder} was made of another document or store, as {folder}/{STORE} says: take another folder"
        ),
        Misfit::Unknown => write!(
            f,
            "the store {address} does not have the document of {folder}, which it had before"
        ),
    }
}
