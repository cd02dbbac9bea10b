//! Holding the journal that is served: no other process has it, and its name leads to it.

ghost use Rattle.std.specs.Prelude.{◌≡◌};
ghost use Rattle.canvasd.specs.Holding.{is_same};

use crate::fault::{Astray, Deed, Fault, Place, refused};
use crate::names::Names;
use std::fs::{File, Metadata, TryLockError};
use std::io;
use std::os::unix::fs::MetadataExt;
use std::sync::{Mutex, Wait};

/// Which file it is, whatever its name: its file system's device, and its number there.
#[derive(Clone, Copy, Drop)]
pub struct Identity {
    pub device: u64,
    pub inode: u64,
}

impl Identity {
    /// Of what the system tells of a file.
    pub fn of(found: &Metadata) -> Identity {
        Identity {
            device: found.dev(),
            inode: found.ino(),
        }
    }

    // Whether it is the same file.
    fn is(self, other: Identity) -> bool
        ensures { result ≡ is_same self other }
    {
        self.device == other.device && self.inode == other.inode
    }
}

/// The journal that is served, with its lock, which is held as long as this lives. At first it is
/// none.
#[derive(Drop)]
pub struct HeldJournal {
    held: Mutex<Option<Held>>,
}

// A journal that is held.
#[derive(Drop)]
struct Held {
    path: String,
    // A handle of the file that is served: the lock is that open file's.
    file: File,
    identity: Identity,
    // Why the name does not lead to the file, once that is so.
    astray: Option<Astray>,
}

impl HeldJournal {
    /// No journal is held.
    pub fn none() -> HeldJournal {
        HeldJournal {
            held: Mutex::new(None),
        }
    }

    /// Takes the lock of the journal of a generation, which is served from a file of this path, and
    /// gives back that of the journal before. `Locked` where another process has it.
    pub fn renew<H: Wait>(
        &self,
        rt: &H,
        path: String,
        number: u32,
        file: File,
    ) -> Result<(), Fault> {
        let identity = take_lock(number, &file)?;
        *self.held.lock(rt) = Some(Held {
            path,
            file,
            identity,
            astray: None,
        });
        Ok(())
    }

    /// Takes the lock of a file that is about to take the journal's name, and gives back that of the
    /// file which has it. Where none is held it does nothing.
    pub fn pass_on<H: Wait>(&self, rt: &H, file: File) -> io::Result<()> {
        match &mut *self.held.lock(rt) {
            Some(held) => held.pass_on(file),
            None => Ok(()),
        }
    }

    /// Whether the journal's name leads to the file that is served. Once it does not, it never does.
    pub fn leads_here<H: Names + Wait>(&self, rt: &H) -> bool {
        match &mut *self.held.lock(rt) {
            Some(held) => held.leads_here(rt),
            None => true,
        }
    }

    /// Why the journal's name does not lead to the file that is served, if that was found.
    pub fn astray<H: Wait>(&self, rt: &H) -> Option<Astray> {
        match &*self.held.lock(rt) {
            Some(held) => held.astray,
            None => None,
        }
    }
}

impl Held {
    fn pass_on(&mut self, file: File) -> io::Result<()> {
        match file.try_lock() {
            Ok(()) => {}
            Err(TryLockError::WouldBlock) => {
                return Err(io::Error::other("another process has it"));
            }
            Err(TryLockError::Error(error)) => return Err(error),
        }
        self.identity = Identity::of(&file.metadata()?);
        self.file = file;
        Ok(())
    }

    fn leads_here<H: Names>(&mut self, rt: &H) -> bool {
        let found = match rt.identity_at(self.path.as_str()) {
            Ok(found) if found.is(self.identity) => return self.astray.is_none(),
            Ok(_) => Astray::Other,
            Err(error) => Astray::Gone(error),
        };
        self.astray = Some(self.astray.unwrap_or(found));
        false
    }
}

// Takes the lock of a file, and says which file it is.
fn take_lock(number: u32, file: &File) -> Result<Identity, Fault> {
    let place = Place::Journal(number);
    match file.try_lock() {
        Ok(()) => {}
        Err(TryLockError::WouldBlock) => return Err(Fault::Locked),
        Err(TryLockError::Error(error)) => return Err(refused(place, Deed::Lock, error)),
    }
    match file.metadata() {
        Ok(found) => Ok(Identity::of(&found)),
        Err(error) => Err(refused(place, Deed::Read, error)),
    }
}
