//! What the threads of a follower share, and how its generation ends.

use crate::fault::Fault;
use crate::follow_gate::FollowGate;
use crate::leader::Away;
use canvas_doors::{Call, Ending, Settles};
use canvas_follow::Turns;
use canvas_journal::Device;
use canvas_line::Lines;
use log::Log;
use std::alloc::Global;
use std::sync::atomic::AtomicBool;
use std::sync::{Mutex, Wait};
use std::thread;
use std::time::{Clock, Duration};

/// How many milliseconds a tick has.
const TICK: u64 = 100;

/// How many ticks pass before a lost feed is asked for again.
const PAUSE: u32 = 10;

/// What the threads of a follower share.
#[derive(Drop)]
pub struct Yard<'a, D: Device, L: Lines, K: Log> {
    pub alloc: Global,
    pub log: &'a K,
    /// The leader's feed.
    pub feed: &'a str,
    /// The number of the generation.
    pub number: u32,
    /// Whether the feed is away.
    pub is_away: &'a AtomicBool,
    pub turns: &'a Turns<L>,
    pub gate: &'a FollowGate<'a, D, L>,
    pub ending: &'a Ending,
    /// Why the line does not go on.
    pub fault: &'a Mutex<Option<Fault>>,
}

impl<D: Device + Drop, L: Lines, K: Log> Yard<'_, D, L, K> {
    /// Whether the line follows no further.
    pub fn is_over(&self) -> bool {
        self.gate.is_over()
    }

    /// Ends the generation, with a fault or without one.
    pub fn end<R: Wait>(&self, rt: &R, fault: Option<Fault>) {
        if fault.is_some() {
            *self.fault.lock(rt) = fault;
        }
        self.gate.end();
        self.turns.end(rt);
        self.ending.begin(rt, Call::Asked);
    }

    /// Counts the time for those who wait, until the generation ends.
    pub fn keep_time<R: Wait + Clock>(&self, rt: &R) {
        for _ in rt.forever() {
            if self.is_over() {
                return;
            }
            thread::sleep(rt, Duration::from_millis(TICK));
            self.turns.tick(rt);
        }
    }

    /// Waits a while before the feed is asked for again.
    pub fn pause<R: Clock>(&self, rt: &R) {
        for _ in 0..PAUSE {
            if self.is_over() {
                return;
            }
            thread::sleep(rt, Duration::from_millis(TICK));
        }
    }

    /// Has all that was made put into the journal of the folder.
    pub fn settle<R: Wait>(&self, rt: &R) -> Result<(), Away> {
        if self.gate.settle(rt, 0).is_err() {
            self.ending.begin(rt, Call::Unsettled);
            return Err(Away::Ended);
        }
        if self.gate.has_ended(rt) {
            return Err(Away::Ended);
        }
        Ok(())
    }
}
