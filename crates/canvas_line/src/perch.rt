//! A seat's place at the line, without the lock: the viewers of the line, and the beginning of the
//! history that it has seen.
ghost use Rattle.std.specs.Prelude.{◌≡◌, ◌⊎◌, [], length, IfOk, MatchResult};
ghost use Rattle.std.specs.Arc.{arc_value};
ghost use mathlib.Core.List.{IsPrefix};
ghost use Rattle.canvas_line.specs.Seats.{Looks, IsAt, IsHistoryOf, Apart, EditAccepted, EditRefused, GoesOn, KeepsUp, Meets, MeetRefused, Stays, TakesAt};
ghost use Rattle.canvas_line.specs.Lines.{Accepts, Takes, recording, with_front, sight_of};
ghost use Rattle.canvas_line.specs.declared.fault.LineFault.TheVariants as fault;

use crate::desk::Desk;
use crate::fault::LineFault;
use crate::front::{Glimpse, Lines, Trace};
use crate::herald::Herald;
use crate::mark::Mark;
use crate::painters::Painters;
use crate::published::Latest;
use crate::recorder::Taken;
use crate::version::Version;
use crate::viewer::Viewers;
use canvas_doc::Edit;
use canvas_look::Edited;
use std::alloc::Global;
use std::marker::{Model, PhantomData};
use std::sync::{Arc, Wait};

/// A seat's place at the line, without the lock.
#[derive(Drop)]
pub struct Perch<B: Lines> {
    viewers: Arc<Viewers<B>, Global>,
    // The viewer that it tries first.
    home: usize,
    trace: Trace,
    name: u64,
    of: PhantomData<B>,
}

impl<B: Lines> Model for Perch<B> {
    ghost use Rattle.std.specs.Prelude.{◌≡◌};
    ghost use Rattle.canvas_line.specs.Lines.{Sight, sight_of};

    ghost Value = { Sight };

    ghost view = { λ p. sight_of p.name (B.line p.name) p.trace.changes };

    ghost invariant = { λ p. p.trace.book ≡ (B.line p.name).book };
}

impl<B: Lines> Perch<B> {
    pub(crate) fn new(
        viewers: Arc<Viewers<B>, Global>,
        home: usize,
        trace: Trace,
        name: u64,
    ) -> Perch<B>
        requires { trace.book ≡ (B.line name).book }
        ensures { result ≡ sight_of name (B.line name) trace.changes }
    {
        Perch {
            viewers,
            home,
            trace,
            name,
            of: PhantomData,
        }
    }

    /// The published version. Its history begins with the front, and becomes it.
    pub(crate) fn look(&mut self) -> Result<Arc<Version, Global>, LineFault>
        ensures { MatchResult result (λ v. Looks self.old self.new (arc_value v))
            (λ f. (f ≡ fault.NoView) × (self.new ≡ self.old)) }
    {
        let Some(
            Latest {
                version,
                trace: newer,
            },
        ) = self.viewers.latest(self.home, self.name)
        else {
            return Err(LineFault::NoView);
        };
        // What is published never goes back, so this does not happen.
        if newer.len() < self.trace.len() {
            return Err(LineFault::NoView);
        }
        self.trace.compare(&newer);
        self.trace = newer;
        Ok(version)
    }

    /// How many changes the front has.
    pub(crate) fn number(&self) -> u64
        ensures { result ≡ length self.now.front }
    {
        self.trace.len()
    }

    /// The front, for clauses alone.
    pub(crate) fn glimpse(&self) -> Glimpse
        ensures book { result.book ≡ (B.line self.now.name).book }
        ensures changes { result.changes ≡ self.now.front }
    {
        self.trace.glimpse()
    }

    /// A mark at the front.
    pub(crate) fn mark(&self) -> Mark<B>
        ensures { result ≡ self.now }
    {
        Mark::new(self.trace.again(), self.name)
    }

    /// Of two seats at one line, one front is a beginning of the other.
    pub(crate) fn one_history(&self, other: &Perch<B>)
        requires { other.now.name ≡ self.now.name }
        ensures { IsPrefix self.now.front other.now.front ⊎ IsPrefix other.now.front self.now.front }
    {
        if self.trace.len() <= other.trace.len() {
            self.trace.compare(&other.trace);
        } else {
            other.trace.compare(&self.trace);
        }
    }

    /// The pictures of the line that are being painted.
    pub(crate) fn painters(&self) -> &Painters {
        &self.viewers.painters
    }

    // The line's name, by which its facts are known.
    pub(crate) fn name(&self) -> u64
        ensures name { result ≡ self.now.name }
        ensures facts { (self.now.opening ≡ (B.line self.now.name).opening)
            × (self.now.limit ≡ (B.line self.now.name).limit) }
    {
        self.name
    }

    // The seat's history is the desk's from now on.
    fn follow(&mut self, trace: Trace)
        requires { trace.book ≡ (B.line self.old.name).book }
        ensures { self.new ≡ with_front self.old trace.changes }
    {
        self.trace = trace;
    }

    // Whether the desk is this line's, and not behind the front. Then its history begins with the front.
    fn meets(&self, desk: &Desk<B>) -> Result<(), LineFault>
        ensures { MatchResult result (λ _. IsAt self.now desk.now) (λ f. Apart self.now f) }
    {
        let own = self.name();
        let found = desk.name();
        if own != found {
            return Err(LineFault::Strangers { own, found });
        }
        let trace = desk.trace();
        if trace.len() < self.trace.len() {
            return Err(LineFault::Behind {
                desk: trace.len(),
                front: self.trace.len(),
            });
        }
        self.trace.compare(&trace);
        Ok(())
    }

    /// An edit at the desk, under its lock.
    pub(crate) fn edit_at<R: Wait>(
        &mut self,
        desk: &mut Desk<B>,
        rt: &R,
        edit: &Edit,
    ) -> Result<Edited, LineFault>
        ensures accepted { IfOk result (λ r. EditAccepted self.old edit.now self.new r) }
        ensures refused { MatchResult result (λ _. Unit {0})
            (λ f. EditRefused self.old edit.now self.new f) }
        ensures once { IfOk result (λ r. Accepts desk.old edit.now desk.new r) }
        ensures stays { MatchResult result (λ _. Unit {0}) (λ _. desk.new ≡ desk.old) }
        ensures follows { KeepsUp desk.new result self.new }
    {
        self.meets(desk)?;
        match desk.apply(rt, edit) {
            Ok(edited) => {
                self.follow(desk.trace());
                Ok(edited)
            }
            Err(LineFault::VersionsSpent) => {
                self.follow(desk.trace());
                Err(LineFault::VersionsSpent)
            }
            Err(LineFault::Refused(why)) => {
                self.follow(desk.trace());
                Err(LineFault::Refused(why))
            }
            Err(LineFault::OutOfMemory) => Err(LineFault::OutOfMemory),
            // A desk refuses for nothing else.
            Err(LineFault::Behind { desk, front }) => Err(LineFault::Behind { desk, front }),
            Err(LineFault::Strangers { own, found }) => Err(LineFault::Strangers { own, found }),
            Err(LineFault::NoSeats) => Err(LineFault::NoSeats),
            Err(LineFault::BadSetting) => Err(LineFault::BadSetting),
            Err(LineFault::NoView) => Err(LineFault::NoView),
        }
    }

    /// Brings two seats to the desk's history, under its lock.
    pub(crate) fn meet_at(&mut self, other: &mut Perch<B>, desk: &Desk<B>) -> Result<(), LineFault>
        ensures met { IfOk result (λ _. Meets self.old other.old self.new other.new) }
        ensures refused { MatchResult result (λ _. Unit {0})
            (λ f. MeetRefused self.old other.old self.new other.new f) }
    {
        self.meets(desk)?;
        other.meets(desk)?;
        self.follow(desk.trace());
        other.follow(desk.trace());
        Ok(())
    }
    /// Has the desk record from now on, under its lock, if it did not before.
    pub(crate) fn start_recording_at(&mut self, desk: &mut Desk<B>) -> Result<(), LineFault>
        ensures started { IfOk result (λ _. GoesOn self.old self.new) }
        ensures refused { MatchResult result (λ _. Unit {0}) (λ f. Stays self.old self.new f) }
        ensures once { IfOk result (λ _. desk.new ≡ recording desk.old desk.old.taken) }
        ensures stays { MatchResult result (λ _. Unit {0}) (λ _. desk.new ≡ desk.old) }
        ensures follows { IfOk result (λ _. self.new.front ≡ desk.old.history) }
    {
        self.meets(desk)?;
        desk.start_recording();
        self.follow(desk.trace());
        Ok(())
    }

    /// Who tells how long the desk's history is.
    pub(crate) fn herald_at(&self, desk: &Desk<B>) -> Result<Herald<B>, LineFault>
        ensures herald { IfOk result (λ h. h ≡ self.now.name) }
    {
        self.meets(desk)?;
        Ok(desk.herald()?)
    }

    /// Takes what is pending at the desk, under its lock.
    pub(crate) fn take_pending_at(
        &mut self,
        desk: &mut Desk<B>,
        empty: Vec<Edit>,
    ) -> Result<Option<Taken>, LineFault>
        requires { empty.items ≡ [] }
        ensures taken { IfOk result (λ t. TakesAt self.old self.new t) }
        ensures refused { MatchResult result (λ _. Unit {0}) (λ f. Stays self.old self.new f) }
        ensures once { IfOk result (λ t. Takes desk.old t desk.new) }
        ensures stays { MatchResult result (λ _. Unit {0}) (λ _. desk.new ≡ desk.old) }
        ensures follows { IfOk result (λ _. self.new.front ≡ desk.old.history) }
    {
        self.meets(desk)?;
        let taken = desk.take_pending(empty);
        self.follow(desk.trace());
        Ok(taken)
    }
}
