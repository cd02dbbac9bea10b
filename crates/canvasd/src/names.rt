//! Names in the file system: what they lead to, and what gives them to files.

use crate::holding::Identity;
use std::fs::File;
use std::rt::Files;
use std::{fs, io};

/// What is done with names. (What is asked of `Files` can't be asked by another thread.)
pub trait Names {
    /// Which file a path leads to.
    fn identity_at(&self, path: &str) -> io::Result<Identity>;

    /// A new file at a path, in place of any that is there.
    fn make(&self, path: &str) -> io::Result<File>;

    /// Gives a file another name, in place of any that has it.
    fn rename(&self, from: &str, to: &str) -> io::Result<()>;

    /// Takes a file away.
    fn remove(&self, path: &str) -> io::Result<()>;

    /// Has the names in a folder put on the disk.
    fn keep(&self, folder: &str) -> io::Result<()>;
}

impl<H: Files<File = File>> Names for H {
    fn identity_at(&self, path: &str) -> io::Result<Identity> {
        match fs::metadata(self, path) {
            Ok(found) => Ok(Identity::of(&found)),
            Err(error) => Err(error),
        }
    }

    fn make(&self, path: &str) -> io::Result<File> {
        File::create(self, path)
    }

    fn rename(&self, from: &str, to: &str) -> io::Result<()> {
        fs::rename(self, from, to)
    }

    fn remove(&self, path: &str) -> io::Result<()> {
        fs::remove_file(self, path)
    }

    fn keep(&self, folder: &str) -> io::Result<()> {
        File::open(self, folder)?.sync_all()
    }
}
