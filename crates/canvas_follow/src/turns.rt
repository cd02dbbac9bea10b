//! Whose turn it is: the edits of a feed are made in their order, those that sessions here have
//! asked for by these sessions.
ghost use Rattle.std.specs.Prelude.{◌≡◌, IfNone, IfSome};
ghost use Rattle.canvas_look.specs.Steps.{Edits};

use crate::course::Course;
use crate::fault::CourseFault;
use crate::feed_line::edit_in;
use canvas_code::Coded;
use canvas_doc::Edit;
use canvas_line::Lines;
use canvas_look::{Board, BoardFault, Edited};
use std::alloc::{AllocError, Global};
use std::sync::{Condvar, Mutex, MutexGuard, Wait};

/// For how many ticks a session waits for what the feed has to tell.
const PATIENCE: u64 = 100;

/// For how many ticks a refused edit is looked for at newer versions.
const GRACE: u64 = 10;

// An edit that was handed on and has no answer here yet.
#[derive(Drop)]
struct Asked {
    ticket: u64,
    text: Vec<u8>,
    // The version that it made, once the leader has told it.
    version: Option<u64>,
}

impl Asked {
    // Whether the edit of this text and version may be the one that was asked for.
    fn may_be(&self, text: &[u8], version: u64) -> bool {
        self.text.as_slice() == text && self.version.is_none_or(|known| known == version)
    }
}

// What a session does next whose edit has made a version.
#[derive(Clone, Copy, Debug, Drop, PartialEq, Eq)]
enum Next {
    Make,
    Wait,
    GiveUp,
}

// What lies under the lock.
#[derive(Drop)]
struct State<B: Lines> {
    course: Course<B>,
    asked: Vec<Asked>,
    last_ticket: u64,
    // The line of the feed that is next, while it waits for the session that asked for its edit.
    pending: Vec<u8>,
    fault: Option<CourseFault>,
    ticks: u64,
    is_over: bool,
}

impl<B: Lines> State<B> {
    // Whether a session may have asked for the edit of the next line.
    fn is_asked_for(&self, line: &[u8], version: u64) -> bool {
        match edit_in(line) {
            Some(text) => self.asked.iter().any(|asked| asked.may_be(text, version)),
            None => false,
        }
    }

    // Forgets an edit that was asked for.
    fn withdraw(&mut self, ticket: u64) {
        self.asked.retain(|asked| asked.ticket != ticket);
    }

    // Notes which version an edit has made.
    fn note_version(&mut self, ticket: u64, version: u64) {
        for asked in self.asked.iter_mut() {
            if asked.ticket == ticket {
                asked.version = Some(version);
            }
        }
    }

    // Whether the line that waits has the edit that was asked for, as this version.
    fn is_pending(&self, ticket: u64, version: u64) -> bool {
        match edit_in(&self.pending) {
            Some(text) => self.asked.iter().any(|asked| asked.ticket == ticket
                && asked.may_be(text, version)),
            None => false,
        }
    }

    // What a session does next whose edit has made a version, where it does not wait longer than
    // until some tick.
    fn next_of(&mut self, ticket: u64, version: u64, until: u64) -> Next {
        let number = self.course.number();
        if version <= number || self.is_over || self.fault.is_some() {
            return Next::GiveUp;
        }
        if version - number == 1 && self.is_pending(ticket, version) {
            return self.judge_pending();
        }
        if until <= self.ticks {
            Next::GiveUp
        } else {
            Next::Wait
        }
    }

    // Whether the line that waits is the one that this document's feed has for its edit.
    fn judge_pending(&mut self) -> Next {
        match self.course.judge(&self.pending) {
            Ok(_) => Next::Make,
            Err(fault) => {
                self.fault = Some(fault);
                Next::GiveUp
            }
        }
    }

    // Goes on by the edit that a session has made.
    fn go_on(&mut self, ticket: u64) {
        self.withdraw(ticket);
        self.pending.clear();
        if let Err(fault) = self.course.go_on() {
            self.fault = Some(fault);
        }
    }
}

/// The line of a follower, as its threads share it.
#[derive(Drop)]
pub struct Turns<B: Lines> {
    alloc: Global,
    state: Mutex<State<B>>,
    // Word that something has changed.
    word: Condvar,
    limit: u64,
}

impl<B: Lines> Turns<B> {
    /// Those of a line that takes up to so many edits.
    pub fn new(alloc: Global, course: Course<B>, limit: u64) -> Turns<B> {
        let state = State {
            course,
            asked: Vec::new(alloc),
            last_ticket: 0,
            pending: Vec::new(alloc),
            fault: None,
            ticks: 0,
            is_over: false,
        };
        Turns {
            alloc,
            state: Mutex::new(state),
            word: Condvar::new(),
            limit,
        }
    }

    /// How many edits the line has.
    pub fn number<R: Wait>(&self, rt: &R) -> u64 {
        self.state.lock(rt).course.number()
    }

    /// Tells that a while has passed. Waits are counted in these.
    pub fn tick<R: Wait>(&self, rt: &R) {
        let mut state = self.state.lock(rt);
        state.ticks = state.ticks.saturating_add(1);
        self.word.notify_all();
    }

    /// Ends all waits.
    pub fn end<R: Wait>(&self, rt: &R) {
        self.state.lock(rt).is_over = true;
        self.word.notify_all();
    }

    /// Has the edit made that the next line of the feed tells, which stands with its LF: by the
    /// session that asked for it, where one may have, else by the line's own seat. After an `Err`
    /// nothing more is made.
    pub fn take_line<R: Wait>(&self, rt: &R, line: &[u8]) -> Result<(), CourseFault> {
        let mut state = self.state.lock(rt);
        let before = state.course.number();
        for _ in rt.forever() {
            if let Some(fault) = state.fault {
                return Err(fault);
            }
            if before < state.course.number() {
                return Ok(());
            }
            if state.is_over || !state.is_asked_for(line, before.saturating_add(1)) {
                state.pending.clear();
                return state.course.make(rt, line);
            }
            if state.pending.is_empty() {
                state.pending.extend_from_slice(line)?;
                self.word.notify_all();
            }
            state = self.word.wait(rt, state);
        }
        unreachable!()
    }

    /// Notes that an edit with this text is handed on. The answer is its ticket.
    pub fn ask<R: Wait>(&self, rt: &R, text: &[u8]) -> Result<u64, AllocError> {
        let text = Vec::from_slice(self.alloc, text)?;
        let mut state = self.state.lock(rt);
        let ticket = state.last_ticket.wrapping_add(1);
        state.last_ticket = ticket;
        state.asked.push(Asked {
            ticket,
            text,
            version: None,
        })?;
        Ok(ticket)
    }

    /// Forgets an edit that was not made, or of which that is not known.
    pub fn withdraw<R: Wait>(&self, rt: &R, ticket: u64) {
        self.state.lock(rt).withdraw(ticket);
        self.word.notify_all();
    }

    /// Makes an edit at a board as the version that it made at the leader, once it is the next that
    /// the feed tells. `None` where that can't be: the feed has told another edit as that version,
    /// or does not go on.
    pub fn make_own<C: Board, R: Wait>(
        &self,
        rt: &R,
        ticket: u64,
        version: u64,
        edit: &Edit,
        board: &mut C,
    ) -> Option<Result<Edited, BoardFault>>
        ensures made { IfSome result
            (λ answer. Edits (C.seen board.old) edit.now answer (C.seen board.new)) }
        ensures same { IfNone result (C.seen board.new ≡ C.seen board.old) }
    {
        let mut state = self.turn_at(rt, ticket, version)?;
        let answer = board.edit(rt, edit);
        state.go_on(ticket);
        self.word.notify_all();
        Some(answer)
    }

    // Waits until it is the turn of an edit that has made a version.
    fn turn_at<R: Wait>(
        &self,
        rt: &R,
        ticket: u64,
        version: u64,
    ) -> Option<MutexGuard<'_, State<B>>> {
        let mut state = self.state.lock(rt);
        state.note_version(ticket, version);
        self.word.notify_all();
        let until = state.ticks.saturating_add(PATIENCE);
        for _ in rt.forever() {
            match state.next_of(ticket, version, until) {
                Next::Make => return Some(state),
                Next::Wait => state = self.word.wait(rt, state),
                Next::GiveUp => {
                    state.withdraw(ticket);
                    self.word.notify_all();
                    return None;
                }
            }
        }
        unreachable!()
    }

    /// Answers an edit that the leader refused by this number, once a version here refuses it by
    /// that too. `None` where none does in a while.
    pub fn refuse_own<C: Board, R: Wait>(
        &self,
        rt: &R,
        ticket: u64,
        code: u16,
        edit: &Edit,
        board: &mut C,
    ) -> Option<Result<Edited, BoardFault>>
        ensures refused { IfSome result
            (λ answer. Edits (C.seen board.old) edit.now answer (C.seen board.new)) }
        ensures same { IfNone result (C.seen board.new ≡ C.seen board.old) }
    {
        // Nobody edits while the lock is held, so the board refuses it as the version did that was looked at.
        let _state = self.refusal_at(rt, ticket, code, edit)?;
        Some(board.edit(rt, edit))
    }

    // Waits until a version refuses an edit by this number.
    fn refusal_at<R: Wait>(
        &self,
        rt: &R,
        ticket: u64,
        code: u16,
        edit: &Edit,
    ) -> Option<MutexGuard<'_, State<B>>> {
        let mut state = self.state.lock(rt);
        state.withdraw(ticket);
        self.word.notify_all();
        let until = state.ticks.saturating_add(GRACE);
        for _ in rt.forever() {
            if state.course.refusal(edit, self.limit) == Some(code) {
                return Some(state);
            }
            if until <= state.ticks || state.is_over {
                return None;
            }
            state = self.word.wait(rt, state);
        }
        unreachable!()
    }

    /// Gives the seat of the line up.
    pub fn close<R: Wait>(self, rt: &R) {
        let Turns { state, .. } = self;
        let State { course, .. } = state.into_inner();
        course.close(rt);
    }
}
