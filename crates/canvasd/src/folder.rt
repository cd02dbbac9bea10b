//! The folder of a document, on the disk.

use crate::fault::{Deed, Fault, Place, refused};
use canvas_folder::{Generation, JOURNAL, LOCK, OPENING, STORE, TEMPORARY, number_of};
use std::alloc::{AllocError, Global};
use std::fs::{File, OpenOptions, TryLockError};
use std::io::ErrorKind;
use std::path::Path;
use std::rt::Files;
use std::{fs, io};

/// What is in a folder.
#[derive(Drop)]
pub struct Found {
    pub generations: Vec<Generation>,
    /// Whether a file is there that names a store.
    pub is_stored: bool,
    /// Names that are none of ours.
    pub others: Vec<String>,
}

/// The path of a file of a generation.
pub fn path_in(alloc: Global, folder: &str, number: u32, name: &str) -> Result<String, AllocError> {
    format!(in alloc; "{folder}/{number}/{name}")
}

/// The path of the folder of a generation.
pub fn path_of(alloc: Global, folder: &str, number: u32) -> Result<String, AllocError> {
    format!(in alloc; "{folder}/{number}")
}

/// Makes the folder, if it is not there, and takes its lock, which is held as long as the file is open.
pub fn hold<H: Files<File = File>>(rt: &H, alloc: Global, folder: &str) -> Result<File, Fault> {
    make_folder(rt, folder)?;
    let path = format!(in alloc; "{folder}/{LOCK}")?;
    let mut how = OpenOptions::new();
    how.read(true).write(true).create(true);
    let file = match how.open(rt, path.as_str()) {
        Ok(file) => file,
        Err(error) => return Err(refused(Place::Lock, Deed::Make, error)),
    };
    match file.try_lock() {
        Ok(()) => Ok(file),
        Err(TryLockError::WouldBlock) => Err(Fault::Locked),
        Err(TryLockError::Error(error)) => Err(refused(Place::Lock, Deed::Lock, error)),
    }
}

// Makes the folder, if it is not there, and has its entry put on the disk.
fn make_folder<H: Files<File = File>>(rt: &H, folder: &str) -> Result<(), Fault> {
    match fs::create_dir(rt, folder) {
        Ok(()) => keep_folder(rt, parent_of(folder), Place::Parent),
        Err(error) if error.kind() == ErrorKind::AlreadyExists => Ok(()),
        Err(error) => Err(refused(Place::Folder, Deed::Make, error)),
    }
}

// The folder in which a folder stands.
fn parent_of(folder: &str) -> &str {
    match folder.trim_end_matches('/').rsplit_once('/') {
        Some(("", _)) => "/",
        Some((above, _)) => above,
        None => ".",
    }
}

/// Has the names in a folder put on the disk.
pub fn keep_folder<H: Files<File = File>>(rt: &H, path: &str, place: Place) -> Result<(), Fault> {
    let file = match File::open(rt, path) {
        Ok(file) => file,
        Err(error) => return Err(refused(place, Deed::Keep, error)),
    };
    match file.sync_all() {
        Ok(()) => Ok(()),
        Err(error) => Err(refused(place, Deed::Keep, error)),
    }
}

/// What is in a folder.
pub fn look<H: Files + Alloc + Clone + Drop>(
    rt: &H,
    alloc: Global,
    folder: &str,
) -> Result<Found, Fault> {
    let entries = match fs::read_dir(rt, folder) {
        Ok(entries) => entries,
        Err(error) => return Err(refused(Place::Folder, Deed::Read, error)),
    };
    let mut found = Found {
        generations: Vec::new(alloc),
        is_stored: false,
        others: Vec::new(alloc),
    };
    for entry in entries {
        match entry {
            Ok(entry) => note(rt, alloc, folder, entry.file_name(), &mut found)?,
            Err(error) if error.kind() == ErrorKind::InvalidFilename => {
                found
                    .others
                    .push(String::from_str(alloc, "a name that is no text")?)?;
            }
            Err(error) => return Err(refused(Place::Folder, Deed::Read, error)),
        }
    }
    found
        .generations
        .sort_unstable_by_key(|generation| generation.number);
    Ok(found)
}

// Notes a name of a folder.
fn note<H: Files>(
    rt: &H,
    alloc: Global,
    folder: &str,
    name: &str,
    found: &mut Found,
) -> Result<(), Fault> {
    match number_of(name) {
        Some(number) => found
            .generations
            .push(generation_at(rt, alloc, folder, number)?)?,
        None if name == LOCK => {}
        None if name == STORE => found.is_stored = true,
        None => found.others.push(String::from_str(alloc, name)?)?,
    }
    Ok(())
}

// What a generation has.
fn generation_at<H: Files>(
    rt: &H,
    alloc: Global,
    folder: &str,
    number: u32,
) -> Result<Generation, Fault> {
    Ok(Generation {
        number,
        has_opening: is_there(rt, alloc, folder, number, OPENING)?,
        has_temporary: is_there(rt, alloc, folder, number, TEMPORARY)?,
        has_journal: is_there(rt, alloc, folder, number, JOURNAL)?,
    })
}

// Whether a generation has a file of this name.
fn is_there<H: Files>(
    rt: &H,
    alloc: Global,
    folder: &str,
    number: u32,
    name: &str,
) -> Result<bool, Fault> {
    let path = path_in(alloc, folder, number, name)?;
    match fs::symlink_metadata(rt, path.as_str()) {
        Ok(_) => Ok(true),
        Err(error) => match error.kind() {
            ErrorKind::NotFound | ErrorKind::NotADirectory => Ok(false),
            _ => Err(refused(Place::Generation(number), Deed::Read, error)),
        },
    }
}
