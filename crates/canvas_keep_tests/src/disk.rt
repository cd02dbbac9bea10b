//! A disk in memory: it keeps what was asked of it, fails where it is to, and tells what a crash may leave.
//! What a start reads of it may be more than it has.

use canvas_journal_file::Backing;
use std::alloc::{AllocError, Global};
use std::sync::{Arc, Mutex};

/// What a disk has done.
#[derive(Drop)]
enum Call {
    Wrote { at: usize, bytes: Vec<u8> },
    Synced,
    WroteNew { bytes: Vec<u8> },
    SyncedNew,
    // The new file has the name, which is on the disk by the next one.
    Named,
    SyncedName,
}

/// What was asked of a disk since it held its first bytes.
#[derive(Drop)]
struct Calls {
    alloc: Global,
    // What was on the disk, and what the system showed.
    first: Vec<u8>,
    shown: Vec<u8>,
    // A write that fails is among these: a part of it may be there.
    done: Vec<Call>,
    asked: usize,
    // The number of the call that fails, from 1; with 0 none does.
    fails: usize,
}

impl Calls {
    // Counts a call, and says whether it is to be done.
    fn is_done(&mut self) -> bool {
        self.asked = self.asked.saturating_add(1);
        self.asked != self.fails
    }

    // Notes a call that a crash may leave, and says whether there was memory for it.
    fn note(&mut self, call: Call) -> bool {
        self.done.push(call).is_ok()
    }
}

/// A disk in memory, to be held where it is asked and where it is looked at.
#[derive(Drop)]
pub(crate) struct Disk {
    calls: Arc<Mutex<Calls>, Global>,
}

impl Disk {
    /// A disk that holds these bytes, and whose call of such a number fails, from 1; with 0 none does.
    pub(crate) fn new(alloc: Global, first: Vec<u8>, fails: usize) -> Result<Disk, AllocError> {
        let shown = first.to_vec(alloc)?;
        Disk::showing(alloc, shown, first, fails)
    }

    /// The same where the system shows other bytes, since it failed to write them.
    pub(crate) fn showing(
        alloc: Global,
        shown: Vec<u8>,
        first: Vec<u8>,
        fails: usize,
    ) -> Result<Disk, AllocError> {
        let calls = Calls {
            alloc,
            first,
            shown,
            done: Vec::new(alloc),
            asked: 0,
            fails,
        };
        Ok(Disk {
            calls: Arc::new(alloc, Mutex::new(calls))?,
        })
    }

    /// The same disk, in other hands, and the bytes that were shown first.
    pub(crate) fn held(&self) -> Result<(Disk, Vec<u8>), AllocError> {
        let held = Disk {
            calls: Arc::try_clone(&self.calls)?,
        };
        match self.calls.try_lock() {
            Some(calls) => Ok((held, calls.shown.to_vec(calls.alloc)?)),
            None => Err(AllocError),
        }
    }

    /// How many calls a crash may leave.
    pub(crate) fn moment(&self) -> usize {
        match self.calls.try_lock() {
            Some(calls) => calls.done.len(),
            None => usize::MAX,
        }
    }

    /// How many calls it was asked for.
    pub(crate) fn asked(&self) -> usize {
        match self.calls.try_lock() {
            Some(calls) => calls.asked,
            None => usize::MAX,
        }
    }

    /// In how many ways a crash may leave it after so many calls.
    pub(crate) fn ways(&self, moment: usize) -> usize {
        match self.calls.try_lock() {
            Some(calls) => ways(&calls.done, moment),
            None => 0,
        }
    }

    /// What a crash after so many calls leaves in one of the ways, from 0. None where there is no
    /// memory for it.
    pub(crate) fn left(&self, moment: usize, way: usize) -> Option<Vec<u8>> {
        let calls = self.calls.try_lock()?;
        left(calls.alloc, &calls.first, &calls.done, moment, way).ok()
    }
}

impl Backing for Disk {
    fn write(&mut self, at: usize, bytes: &[u8]) -> bool {
        if bytes.is_empty() {
            return true;
        }
        let Some(mut calls) = self.calls.try_lock() else {
            return false;
        };
        let Ok(bytes) = bytes.to_vec(calls.alloc) else {
            return false;
        };
        let is_noted = calls.note(Call::Wrote { at, bytes });
        calls.is_done() && is_noted
    }

    fn sync(&mut self) -> bool {
        let Some(mut calls) = self.calls.try_lock() else {
            return false;
        };
        calls.is_done() && calls.note(Call::Synced)
    }

    fn write_new(&mut self, _same: usize, bytes: &[u8]) -> bool {
        let Some(mut calls) = self.calls.try_lock() else {
            return false;
        };
        let Ok(bytes) = bytes.to_vec(calls.alloc) else {
            return false;
        };
        let is_noted = calls.note(Call::WroteNew { bytes });
        calls.is_done() && is_noted
    }

    fn sync_new(&mut self) -> bool {
        let Some(mut calls) = self.calls.try_lock() else {
            return false;
        };
        calls.is_done() && calls.note(Call::SyncedNew)
    }

    fn take_name(&mut self) -> bool {
        let Some(mut calls) = self.calls.try_lock() else {
            return false;
        };
        let is_noted = calls.note(Call::Named);
        calls.is_done() && is_noted && calls.is_done() && calls.note(Call::SyncedName)
    }
}

// In how many ways a call is left that was not synced: not at all, whole, its first half, its
// second half, blanks and LFs. A name is taken or not.
const WAYS: usize = 6;

// Whether what a call did is on the disk for certain after so many calls. Calls that have others
// put there leave nothing themselves.
fn is_certain(done: &[Call], number: usize, moment: usize) -> bool {
    let Some(call) = done.get(number) else {
        return true;
    };
    let mut later = done.iter().take(moment).skip(number);
    match call {
        Call::Wrote { .. } => {
            later.any(|call| matches!(call, Call::Synced) || matches!(call, Call::SyncedName))
        }
        Call::WroteNew { .. } => later.any(|call| matches!(call, Call::SyncedNew)),
        Call::Named => later.any(|call| matches!(call, Call::SyncedName)),
        Call::Synced => true,
        Call::SyncedNew => true,
        Call::SyncedName => true,
    }
}

fn ways(done: &[Call], moment: usize) -> usize {
    let mut ways: usize = 1;
    for number in 0..moment.min(done.len()) {
        if !is_certain(done, number, moment) {
            ways = ways.saturating_mul(WAYS);
        }
    }
    ways
}

fn left(
    alloc: Global,
    first: &[u8],
    done: &[Call],
    moment: usize,
    way: usize,
) -> Result<Vec<u8>, AllocError> {
    let mut file = first.to_vec(alloc)?;
    let mut new = Vec::new(alloc);
    let mut rest = way;
    for (number, call) in done.iter().take(moment).enumerate() {
        if is_certain(done, number, moment) {
            leave(alloc, &mut file, &mut new, call, 1)?;
        } else {
            leave(alloc, &mut file, &mut new, call, rest % WAYS)?;
            rest /= WAYS;
        }
    }
    Ok(file)
}

// What is left of a call.
fn leave(
    alloc: Global,
    file: &mut Vec<u8>,
    new: &mut Vec<u8>,
    call: &Call,
    way: usize,
) -> Result<(), AllocError> {
    match call {
        Call::Wrote { at, bytes } => write(file, *at, bytes, way),
        Call::WroteNew { bytes } => {
            new.clear();
            write(new, 0, bytes, way)
        }
        Call::Named => {
            if way % 2 == 1 {
                *file = new.to_vec(alloc)?;
            }
            Ok(())
        }
        Call::Synced => Ok(()),
        Call::SyncedNew => Ok(()),
        Call::SyncedName => Ok(()),
    }
}

fn write(file: &mut Vec<u8>, at: usize, bytes: &[u8], way: usize) -> Result<(), AllocError> {
    let half = bytes.len() / 2;
    for (offset, byte) in bytes.iter().enumerate() {
        let left = match way {
            1 => Some(*byte),
            2 if offset < half => Some(*byte),
            3 if offset >= half => Some(*byte),
            4 => Some(b' '),
            5 => Some(b'\n'),
            _ => None,
        };
        if let Some(byte) = left {
            put(file, at.saturating_add(offset), byte)?;
        }
    }
    Ok(())
}

// Puts a byte at a place. Between the end and the place there may be anything.
fn put(file: &mut Vec<u8>, place: usize, byte: u8) -> Result<(), AllocError> {
    for _ in 0..place.saturating_sub(file.len()) {
        file.push(b'x')?;
    }
    match file.get_mut(place) {
        Some(at) => *at = byte,
        None => file.push(byte)?,
    }
    Ok(())
}
