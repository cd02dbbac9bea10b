//! For how long a document is held for certain. The agent of a store says when it is lost; where the
//! agent stands still, and says nothing, a server goes by its own clock.

use canvas_store::{Store, StoreFault};
use std::alloc::Global;
use std::io;
use std::io::ErrorKind;
use std::os::unix::net::UnixStream;
use std::sync::{Mutex, Wait};
use std::time::{Clock, Duration, Instant};

/// After how many milliseconds the agent is asked again.
const PAUSE: u64 = 1_000;

/// For how many milliseconds its first answer is waited for.
const PATIENCE: u64 = 5_000;

/// A connection over which the agent says how long the lease of a document lasts.
#[derive(Drop)]
pub struct Lease {
    stream: UnixStream,
    name: String,
    epoch: u64,
    term: Mutex<Term>,
}

// What is known of a lease.
#[derive(Clone, Copy, Drop)]
struct Term {
    // When the agent was asked last.
    asked: Instant,
    is_answered: bool,
    // Until when it lasts for certain.
    until: Instant,
    // Why it does not last any more.
    fault: Option<StoreFault>,
}

impl Term {
    // Notes what another look gave. The first fault stays.
    fn note(&mut self, found: Result<Term, StoreFault>) {
        match found {
            Ok(_) if self.fault.is_some() => {}
            Ok(term) => *self = term,
            Err(fault) => self.fault = Some(self.fault.unwrap_or(fault)),
        }
    }
}

impl Lease {
    /// The lease of a name under an epoch, over a connection to the agent. `None` where the agent
    /// does not know the question.
    pub fn open<H: Wait + Clock>(
        rt: &H,
        alloc: Global,
        stream: UnixStream,
        name: &str,
        epoch: u64,
    ) -> Result<Option<Lease>, StoreFault> {
        done(stream.set_read_timeout(Some(Duration::from_millis(PATIENCE))))?;
        let asked = now(rt)?;
        let lease = Lease {
            stream,
            name: String::from_str(alloc, name)?,
            epoch,
            term: Mutex::new(Term {
                asked,
                is_answered: true,
                until: asked,
                fault: None,
            }),
        };
        lease.renew(rt);
        match lease.fault(rt) {
            None => Ok(Some(lease)),
            Some(StoreFault::Refused(_)) => Ok(None),
            Some(fault) => Err(fault),
        }
    }

    /// Asks anew how long the lease lasts, and waits for the answer.
    pub fn renew<H: Wait + Clock>(&self, rt: &H) {
        let mut term = self.term.lock(rt);
        let next = self.renewed(rt, *term);
        term.note(next);
    }

    /// Whether the lease lasts. Once it does not, it never does.
    pub fn lasts<H: Wait + Clock>(&self, rt: &H) -> bool {
        let mut term = self.term.lock(rt);
        let next = self.next_term(rt, *term);
        term.note(next);
        term.fault.is_none()
    }

    /// Why the lease does not last any more, once that was found.
    pub fn fault<H: Wait>(&self, rt: &H) -> Option<StoreFault> {
        self.term.lock(rt).fault
    }

    // What is known once a new question is answered, and the one before.
    fn renewed<H: Clock>(&self, rt: &H, term: Term) -> Result<Term, StoreFault> {
        done(self.stream.set_nonblocking(false))?;
        let before = in_time(self.heard(term)?)?;
        let asked = self.ask(rt, before)?;
        let term = in_time(self.heard(asked)?)?;
        done(self.stream.set_nonblocking(true))?;
        Ok(term)
    }

    // What is known after another look: an answer may have come, and another question be due.
    fn next_term<H: Clock>(&self, rt: &H, term: Term) -> Result<Term, StoreFault> {
        let known = self.heard(term)?;
        let now = now(rt)?;
        if known.until.saturating_duration_since(now).is_zero() {
            return Err(late());
        }
        let passed = now.saturating_duration_since(known.asked);
        if known.is_answered && Duration::from_millis(PAUSE) <= passed {
            self.ask(rt, known)
        } else {
            Ok(known)
        }
    }

    // Asks once more.
    fn ask<H: Clock>(&self, rt: &H, term: Term) -> Result<Term, StoreFault> {
        let asked = now(rt)?;
        self.store().ask_lease(&self.name, self.epoch)?;
        Ok(Term {
            asked,
            is_answered: false,
            ..term
        })
    }

    // What is known once the answer to the last question has come, if it has.
    fn heard(&self, term: Term) -> Result<Term, StoreFault> {
        if term.is_answered {
            return Ok(term);
        }
        match self.store().lasts() {
            Ok(time) => {
                let until = term.asked.checked_add(Duration::from_millis(time));
                Ok(Term {
                    is_answered: true,
                    until: until.unwrap_or(term.until),
                    ..term
                })
            }
            Err(fault) => {
                if is_still_to_come(&fault) {
                    Ok(term)
                } else {
                    Err(fault)
                }
            }
        }
    }

    fn store(&self) -> Store<&UnixStream, &UnixStream> {
        Store {
            answers: &self.stream,
            messages: &self.stream,
        }
    }
}

// What is known, where the answer has come.
fn in_time(term: Term) -> Result<Term, StoreFault> {
    if term.is_answered {
        Ok(term)
    } else {
        Err(late())
    }
}

fn late() -> StoreFault {
    StoreFault::Io(io::Error::from(ErrorKind::TimedOut))
}

// Whether an answer is still to come, over a connection whose reads wait no longer.
fn is_still_to_come(fault: &StoreFault) -> bool {
    match fault {
        StoreFault::Io(error) => error.kind() == ErrorKind::WouldBlock,
        _ => false,
    }
}

fn now<H: Clock>(rt: &H) -> Result<Instant, StoreFault> {
    match Instant::now(rt) {
        Ok(now) => Ok(now),
        Err(error) => Err(StoreFault::Io(error)),
    }
}

fn done(answer: io::Result<()>) -> Result<(), StoreFault> {
    match answer {
        Ok(()) => Ok(()),
        Err(error) => Err(StoreFault::Io(error)),
    }
}
