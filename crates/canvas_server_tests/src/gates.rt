//! Gates that tests put before a server, and what they count.

use canvas_doors::{Events, Parting, Settles, Witness};
use canvas_wire::Request;
use std::io::ErrorKind;
use std::sync::Wait;
use std::sync::atomic::{AtomicU64, Ordering};
use std::time::{Clock, Duration};
use std::{io, thread};

/// A gate that asks for the end once it has settled so often.
#[derive(Drop)]
pub(crate) struct Few {
    most: u64,
    settled: AtomicU64,
}

impl Few {
    pub(crate) fn new(most: u64) -> Few {
        Few {
            most,
            settled: AtomicU64::new(0),
        }
    }
}

impl Settles for Few {
    ghost settled = { λ _ _. Unit {0} };

    fn settle<R: Wait>(&self, _rt: &R, _put_in: u64) -> io::Result<()> {
        self.settled.fetch_add(1, Ordering::SeqCst);
        Ok(())
    }

    fn has_ended<R: Wait>(&self, _rt: &R) -> bool {
        self.settled.load(Ordering::SeqCst) >= self.most
    }
}

/// A gate that never settles.
#[derive(Drop)]
pub(crate) struct Stuck;

impl Settles for Stuck {
    ghost settled = { λ _ _. Unit {0} };

    fn settle<R: Wait>(&self, _rt: &R, _put_in: u64) -> io::Result<()> {
        Err(ErrorKind::StorageFull.into())
    }

    fn has_ended<R: Wait>(&self, _rt: &R) -> bool {
        false
    }
}

/// A gate that takes its time for each settling, and then is as another one.
#[derive(Drop)]
pub(crate) struct Slow<'a, H: Clock> {
    pub(crate) clock: &'a H,
    pub(crate) milliseconds: u64,
    pub(crate) then: Few,
}

impl<H: Clock> Settles for Slow<'_, H> {
    ghost settled = { λ _ _. Unit {0} };

    fn settle<R: Wait>(&self, rt: &R, put_in: u64) -> io::Result<()> {
        thread::sleep(self.clock, Duration::from_millis(self.milliseconds));
        self.then.settle(rt, put_in)
    }

    fn has_ended<R: Wait>(&self, rt: &R) -> bool {
        self.then.has_ended(rt)
    }
}

/// How many sessions began, how many ended because they were silent or in another way, and how many
/// connections found no seat.
#[derive(Drop)]
pub(crate) struct Counts {
    began: AtomicU64,
    idle: AtomicU64,
    others: AtomicU64,
    full: AtomicU64,
    answers: AtomicU64,
    refusals: AtomicU64,
    bytes: AtomicU64,
}

impl Counts {
    pub(crate) fn new() -> Counts {
        Counts {
            began: AtomicU64::new(0),
            idle: AtomicU64::new(0),
            others: AtomicU64::new(0),
            full: AtomicU64::new(0),
            answers: AtomicU64::new(0),
            refusals: AtomicU64::new(0),
            bytes: AtomicU64::new(0),
        }
    }

    /// Sessions that began, that were silent too long, that ended otherwise, and connections without a seat.
    pub(crate) fn told(&self) -> [u64; 4] {
        [
            self.began.load(Ordering::SeqCst),
            self.idle.load(Ordering::SeqCst),
            self.others.load(Ordering::SeqCst),
            self.full.load(Ordering::SeqCst),
        ]
    }

    /// Answers, those of them that were refusals, and bytes that were sent to sessions.
    pub(crate) fn counted(&self) -> [u64; 3] {
        [
            self.answers.load(Ordering::SeqCst),
            self.refusals.load(Ordering::SeqCst),
            self.bytes.load(Ordering::SeqCst),
        ]
    }
}

impl Witness for Counts {
    fn answered(&self, _request: Option<&Request>, refusal: Option<u16>) {
        self.answers.fetch_add(1, Ordering::SeqCst);
        if refusal.is_some() {
            self.refusals.fetch_add(1, Ordering::SeqCst);
        }
    }
}

impl Events for Counts {
    fn began(&self, _seat: usize) {
        self.began.fetch_add(1, Ordering::SeqCst);
    }

    fn ended(&self, _seat: usize, parting: &Parting) {
        let count = match parting {
            Parting::Idle => &self.idle,
            _ => &self.others,
        };
        count.fetch_add(1, Ordering::SeqCst);
    }

    fn was_full(&self) {
        self.full.fetch_add(1, Ordering::SeqCst);
    }

    fn sent(&self, bytes: usize) {
        self.bytes.fetch_add(bytes as u64, Ordering::SeqCst);
    }
}
