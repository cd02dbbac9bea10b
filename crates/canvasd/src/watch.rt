//! Watching how a generation is kept.
ghost use denote.Param.Send.{IsSync};

use canvas_status::{Counts, Lookback, TICK};
use std::sync::{Condvar, Mutex, Wait};
use std::thread::{Scope, Threads};
use std::time::{Clock, Duration};

/// How a line is kept at a moment.
#[derive(Clone, Copy, Debug, Drop)]
pub struct Standing {
    /// The newest version, if it can be seen.
    pub newest: Option<u64>,
    /// How many versions are kept.
    pub kept: u64,
    /// Whether no more can be kept.
    pub is_lost: bool,
}

/// What is watched.
pub trait Watched {
    /// How it is kept now.
    fn standing<R: Wait>(&self, rt: &R) -> Standing;
}

/// A watch, which goes on until it is ended.
#[derive(Drop)]
pub struct Watch {
    has_ended: Mutex<bool>,
    word: Condvar,
}

impl Watch {
    /// A watch that has not ended.
    pub fn new() -> Watch {
        Watch {
            has_ended: Mutex::new(false),
            word: Condvar::new(),
        }
    }

    /// Waits for a tick, or less where the watch is ended, and says whether it is.
    pub fn wait_tick<H: Wait + Clock>(&self, rt: &H) -> bool {
        let has_ended = self.has_ended.lock(rt);
        if *has_ended {
            return true;
        }
        let (has_ended, _) = self
            .word
            .wait_timeout(rt, has_ended, Duration::from_millis(TICK));
        *has_ended
    }

    /// Ends the watch.
    pub fn end<H: Wait>(&self, rt: &H) {
        *self.has_ended.lock(rt) = true;
        self.word.notify_all();
    }
}

/// Starts a thread that tells the counts how a generation is kept, until the watch is ended. Where
/// no thread can be had, they stay as they were.
pub fn start_watch<'s, 'e: 's, G: Watched + Sync, H: Threads + Wait + Clock + Sync>(
    rt: &'e H,
    scope: &'s Scope<'s, &'e ()>,
    watch: &'e Watch,
    gate: &'e G,
    number: u32,
    counts: &'e Counts,
) {
    let _ = scope.spawn(
        move ||
            requires { IsSync H.row × IsSync G.row }
        { keep_watch(rt, watch, gate, number, counts) },
    );
}

// Tells the counts once a tick how a generation is kept, and once more at the end of the watch.
fn keep_watch<G: Watched, H: Wait + Clock>(
    rt: &H,
    watch: &Watch,
    gate: &G,
    number: u32,
    counts: &Counts,
) {
    let mut lookback = Lookback::new();
    let mut has_ended = watch.has_ended.lock(rt);
    for _ in rt.forever() {
        look(rt, gate, number, counts, &mut lookback);
        if *has_ended {
            return;
        }
        has_ended = watch
            .word
            .wait_timeout(rt, has_ended, Duration::from_millis(TICK))
            .0;
    }
}

// Tells the counts how a generation is kept now. The oldest look is then one of two seconds ago.
fn look<G: Watched, H: Wait>(
    rt: &H,
    gate: &G,
    number: u32,
    counts: &Counts,
    lookback: &mut Lookback,
) {
    let Standing {
        newest,
        kept,
        is_lost,
    } = gate.standing(rt);
    let newest = newest.unwrap_or(kept);
    let health = lookback.health(kept, is_lost);
    lookback.note(newest);
    counts.stand(number, newest, kept, health);
}
