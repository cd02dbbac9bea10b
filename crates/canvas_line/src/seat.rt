//! A session's place at a line.
ghost use Rattle.std.specs.Prelude.{◌≡◌, ◌≢◌, ◌⊎◌, [], length, IfOk, MatchResult, Err};
ghost use Rattle.std.specs.Arc.{arc_value};
ghost use mathlib.Core.List.{IsPrefix};
ghost use Rattle.canvas_line.specs.Seats.{Looks, EditAccepted, EditRefused, GoesOn, Meets, MeetRefused, Stays, TakesAt};
ghost use Rattle.canvas_line.specs.declared.fault.LineFault.TheVariants as fault;

use crate::desk::Desk;
use crate::fault::LineFault;
use crate::front::{Glimpse, Lines};
use crate::herald::Herald;
use crate::mark::Mark;
use crate::painters::Painters;
use crate::perch::Perch;
use crate::recorder::Taken;
use crate::version::Version;
use canvas_doc::Edit;
use canvas_look::Edited;
use core::sync::yield_now;
use std::alloc::Global;
use std::hint::spin_loop;
use std::marker::Model;
use std::sync::{Arc, Mutex, MutexGuard, Wait};

/// How many times a seat tries the lock before it may let other threads run between its tries.
const SPINS: u32 = 8;

/// How many times it tries the lock before it sleeps.
const TRIES: u32 = 100;

/// A session's place at a line. Contracts see it as a name, an opening document, a limit and a front.
#[derive(Drop)]
pub struct Seat<B: Lines> {
    desk: Arc<Mutex<Desk<B>>, Global>,
    perch: Perch<B>,
}

impl<B: Lines> Model for Seat<B> {
    ghost use Rattle.canvas_line.specs.Lines.{Sight};

    ghost Value = { Sight };

    ghost view = { λ s. s.perch };
}

impl<B: Lines> Seat<B> {
    pub(crate) fn new(desk: Arc<Mutex<Desk<B>>, Global>, perch: Perch<B>) -> Seat<B>
        ensures { result ≡ perch }
    {
        Seat { desk, perch }
    }

    /// Makes an edit.
    pub fn edit<R: Wait>(&mut self, rt: &R, edit: &Edit) -> Result<Edited, LineFault>
        ensures accepted { IfOk result (λ r. EditAccepted self.old edit.now self.new r) }
        ensures refused { MatchResult result (λ _. Unit {0})
            (λ f. EditRefused self.old edit.now self.new f) }
    {
        let Seat { desk, perch } = self;
        let mut guard = held(rt, desk, perch.painters());
        let answer = perch.edit_at(&mut *guard, rt, edit);
        let retired = guard.take_retired();
        drop(guard);
        drop(retired);
        answer
    }

    /// The published version, without the lock. Its history begins with the front, and becomes it.
    pub fn look(&mut self) -> Result<Arc<Version, Global>, LineFault>
        ensures { MatchResult result (λ v. Looks self.old self.new (arc_value v))
            (λ f. (f ≡ fault.NoView) × (self.new ≡ self.old)) }
    {
        self.perch.look()
    }

    /// Brings two seats to one front. Seats of two lines are refused by both names.
    pub fn meet<R: Wait>(&mut self, rt: &R, other: &mut Seat<B>) -> Result<(), LineFault>
        ensures met { IfOk result (λ _. Meets self.old other.old self.new other.new) }
        ensures refused { MatchResult result (λ _. Unit {0})
            (λ f. MeetRefused self.old other.old self.new other.new f) }
        ensures apart { self.old.name ≢ other.old.name
            → result ≡ Err (fault.Strangers self.old.name other.old.name) }
    {
        let own = self.perch.name();
        let found = other.perch.name();
        if own != found {
            return Err(LineFault::Strangers { own, found });
        }
        let Seat { desk, perch } = self;
        let guard = held(rt, desk, perch.painters());
        perch.meet_at(&mut other.perch, &*guard)
    }

    /// Tells that two seats at one line have seen one history: one front is a beginning of the other.
    pub fn one_history(&self, other: &Seat<B>)
        requires { other.now.name ≡ self.now.name }
        ensures { IsPrefix self.now.front other.now.front
            ⊎ IsPrefix other.now.front self.now.front }
    {
        self.perch.one_history(&other.perch);
    }

    /// Has the line record from now on each edit that it accepts, if it did not before. What is
    /// pending then grows until it is taken. The front becomes the whole history, of which nothing
    /// is recorded where the line did not record before.
    pub fn start_recording<R: Wait>(&mut self, rt: &R) -> Result<(), LineFault>
        ensures started { IfOk result (λ _. GoesOn self.old self.new) }
        ensures refused { MatchResult result (λ _. Unit {0}) (λ f. Stays self.old self.new f) }
    {
        let Seat { desk, perch } = self;
        let mut guard = held(rt, desk, perch.painters());
        perch.start_recording_at(&mut *guard)
    }

    /// Takes the edits that the line accepted since some were last taken, in the order of versions;
    /// the list that is handed in takes their place, so that no memory is asked for under the lock.
    /// The front becomes the whole history, and the edits make all its changes but the first
    /// `before`. None where the line does not record.
    pub fn take_pending<R: Wait>(
        &mut self,
        rt: &R,
        empty: Vec<Edit>,
    ) -> Result<Option<Taken>, LineFault>
        requires { empty.items ≡ [] }
        ensures taken { IfOk result (λ t. TakesAt self.old self.new t) }
        ensures refused { MatchResult result (λ _. Unit {0}) (λ f. Stays self.old self.new f) }
    {
        let Seat { desk, perch } = self;
        let mut guard = held(rt, desk, perch.painters());
        perch.take_pending_at(&mut *guard, empty)
    }

    /// Counts one more picture of the line that is being painted, until `stop_painting`. Meanwhile
    /// an edit that finds the desk taken does not let the threads that paint run first.
    pub fn start_painting(&self) {
        self.perch.painters().start();
    }

    /// Counts one picture less.
    pub fn stop_painting(&self) {
        self.perch.painters().stop();
    }

    /// How many changes the front has.
    pub fn number(&self) -> u64
        ensures { result ≡ length self.now.front }
    {
        self.perch.number()
    }

    /// Who tells, without the lock, how many changes the line has accepted.
    pub fn herald<R: Wait>(&self, rt: &R) -> Result<Herald<B>, LineFault>
        ensures { IfOk result (λ h. h ≡ self.now.name) }
    {
        let Seat { desk, perch } = self;
        let guard = held(rt, desk, perch.painters());
        perch.herald_at(&*guard)
    }

    /// The front, for clauses alone.
    pub fn glimpse(&self) -> Glimpse
        ensures book { result.book ≡ (B.line self.now.name).book }
        ensures changes { result.changes ≡ self.now.front }
    {
        self.perch.glimpse()
    }

    /// A mark at the front.
    pub fn mark(&self) -> Mark<B>
        ensures { result ≡ self.now }
    {
        self.perch.mark()
    }

    /// Gives the seat up. The last one of a line gives up its memory too. It waits for no reader
    /// that could come.
    pub fn close<R: Wait>(self, rt: &R) {
        let Seat { desk, perch } = self;
        drop(perch);
        if let Some(desk) = Arc::into_inner(desk) {
            desk.into_inner().close(rt);
        }
    }
}

// Takes the lock. Edits are short, so a seat tries for a while before it sleeps: a lock that goes
// over to a sleeping thread lies idle until that thread runs. Between its tries it lets other
// threads run, but not while somebody paints: it would wait for a turn of each thread that paints,
// where one that sleeps is woken in time.
fn held<'a, B: Lines, R: Wait>(
    rt: &R,
    desk: &'a Mutex<Desk<B>>,
    painters: &Painters,
) -> MutexGuard<'a, Desk<B>> {
    for attempt in 0..TRIES {
        if let Some(guard) = desk.try_lock() {
            return guard;
        }
        if attempt < SPINS || painters.any() {
            spin_loop();
        } else {
            yield_now();
        }
    }
    desk.lock(rt)
}
