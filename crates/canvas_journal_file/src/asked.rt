//! A device that is what was asked of a file.
ghost use Rattle.std.specs.Prelude.{◌≡◌, ◌==◌, ◌∷◌, [], true};
ghost use Rattle.canvas_journal_file.specs.Calls.{answer_of, seen_of};

use crate::backing::Backing;
use crate::record::Record;
use canvas_journal::{Device, DeviceError};
use std::alloc::Global;
use std::marker::Model;

// What was asked.
const SHOWN: u64 = 0;

const WROTE: u64 = 1;

const SYNCED: u64 = 2;

const UNREAD: u64 = 3;

const WROTE_NEW: u64 = 4;

const SYNCED_NEW: u64 = 5;

const NAMED: u64 = 6;

/// A file, as what it showed at first and what was asked of it since. No memory holds what was written.
#[derive(Drop)]
pub struct Asked<F: Backing> {
    file: F,
    // What the file showed at first, until it is read or changed.
    first: Option<Vec<u8>>,
    record: Record,
}

impl<F: Backing> Model for Asked<F> {
    ghost use Rattle.std.specs.Prelude.{◌≡◌, List, IfSome};
    ghost use Rattle.canvas_journal_file.specs.Events.{Event};
    ghost use Rattle.canvas_journal_file.specs.Calls.{seen_of};

    ghost Value = { List Event };

    ghost view = { λ a. a.record.events };

    ghost invariant = { λ a. IfSome a.first (λ bytes. bytes.items ≡ seen_of a.record.events) };
}

impl<F: Backing> Asked<F> {
    /// A file of which these bytes were read. What the disk has of it is not known.
    pub fn new(file: F, first: Vec<u8>) -> Asked<F>
        ensures { result ≡ (0, 0, true, first.items) ∷ [] }
    {
        let mut record = Record::new();
        record.note(&[SHOWN, 0, 1], &first);
        Asked {
            file,
            first: Some(first),
            record,
        }
    }

    /// The file.
    pub fn file(&self) -> &F {
        &self.file
    }
}

impl<F: Backing> Device for Asked<F> {
    ghost use Rattle.std.specs.Prelude.{List, ℕ, length};
    ghost use Rattle.canvas_journal_file.specs.Calls.{seen_of, may_leave, left_since, faults_of, counts, only};

    ghost seen = { λ f. seen_of f };

    ghost may_leave = { λ f c. may_leave f c };

    ghost moment = { λ f. length f };

    ghost left_since = { λ f t c. left_since f t c };

    ghost faults = { λ f. faults_of f };

    ghost counts_now = { λ f t c le now. counts f t c le now };

    ghost only_now = { λ f c left. only f c left };

    /// What the file showed at first. It can be read once, before it is changed; any later read is
    /// refused as `Failed`.
    fn read(&mut self, _alloc: Global) -> Result<Vec<u8>, DeviceError> {
        match self.first.take() {
            Some(first) => Ok(first),
            None => {
                self.record.note(&[UNREAD, 0, 0], &[]);
                Err(DeviceError::Failed)
            }
        }
    }

    fn write_at(&mut self, at: usize, bytes: &[u8]) -> Result<(), DeviceError> {
        self.first = None;
        let done = self.file.write(at, bytes);
        self.record
            .note(&[WROTE, at as u64, as_number(done)], bytes);
        answer(done)
    }

    fn rewrite(&mut self, same: usize, bytes: &[u8]) -> Result<(), DeviceError> {
        self.first = None;
        let written = self.file.write_new(same, bytes);
        self.record
            .note(&[WROTE_NEW, same as u64, as_number(written)], bytes);
        answer(written)?;
        let synced = self.file.sync_new();
        self.record.note(&[SYNCED_NEW, 0, as_number(synced)], &[]);
        answer(synced)?;
        let named = self.file.take_name();
        self.record.note(&[NAMED, 0, as_number(named)], &[]);
        answer(named)
    }

    fn sync(&mut self) -> Result<(), DeviceError> {
        self.first = None;
        let done = self.file.sync();
        self.record.note(&[SYNCED, 0, as_number(done)], &[]);
        answer(done)
    }
}

fn as_number(done: bool) -> u64
    ensures { (result == 1) ≡ done }
{
    if done { 1 } else { 0 }
}

fn answer(done: bool) -> Result<(), DeviceError>
    ensures { result ≡ answer_of done }
{
    if done {
        Ok(())
    } else {
        Err(DeviceError::Failed)
    }
}
