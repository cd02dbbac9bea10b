//! Reading from a client that is not waited for without end.

ghost use Rattle.std.specs.Io.{ReadsAtMost};

use crate::doors::Stream;
use crate::waits::{time_left, waited_after};
use std::cell::Cell;
use std::io;
use std::io::{ErrorKind, Read};
use std::time::{Clock, Duration, Instant};

/// How many seconds a line has from its first byte to its end.
const LINE_TIME: u64 = 30;

/// How many signals may interrupt one read: one that waits with a time is not begun again by the
/// system.
const MOST_SIGNALS: u32 = 1_000_000;

/// Why a client is waited for no longer.
#[derive(Clone, Copy, Debug, Drop, PartialEq, Eq)]
pub enum Lapse {
    /// It was silent for too long.
    Idle,
    /// It took too long for a line.
    Slow,
}

/// What a client sends, as long as it is waited for. Only the time is counted in which a read waits,
/// so a client never pays for what the server does meanwhile.
#[derive(Drop)]
pub struct Timely<'a, H: Clock> {
    rt: &'a H,
    stream: &'a Stream,
    // After how many silent seconds it is waited for no longer, 0 for never.
    idle: u64,
    // How many microseconds a line has.
    most: u64,
    // How many of them the line has had that has begun.
    waited: Option<u64>,
    // Whether a read waits only as long as a line has left.
    is_hurried: bool,
    lapse: &'a Cell<Option<Lapse>>,
}

impl<'a, H: Clock> Timely<'a, H> {
    /// What a session's client sends. A read waits for so many silent seconds already, 0 for never;
    /// a line has thirty from its first byte on.
    pub fn lines(
        rt: &'a H,
        stream: &'a Stream,
        idle: u64,
        lapse: &'a Cell<Option<Lapse>>,
    ) -> Timely<'a, H> {
        Timely {
            rt,
            stream,
            idle,
            most: LINE_TIME * 1_000_000,
            waited: None,
            is_hurried: false,
            lapse,
        }
    }

    /// What a client sends that has so many seconds for one line, from now on.
    pub fn one_line(
        rt: &'a H,
        stream: &'a Stream,
        seconds: u64,
        lapse: &'a Cell<Option<Lapse>>,
    ) -> Timely<'a, H> {
        Timely {
            rt,
            stream,
            idle: 0,
            most: seconds.saturating_mul(1_000_000),
            waited: Some(0),
            is_hurried: false,
            lapse,
        }
    }

    // Reads between two lines.
    fn read_next(&mut self, bytes: &mut [u8]) -> io::Result<usize>
        ensures { ReadsAtMost result bytes.new }
    {
        if self.is_hurried {
            self.stream.set_patience(patience(self.idle))?;
            self.is_hurried = false;
        }
        let mut stream = self.stream;
        match stream.read(bytes) {
            Ok(count) => {
                self.waited = waited_after(None, &bytes[..count], 0);
                Ok(count)
            }
            Err(error) => Err(self.note(error, Lapse::Idle)),
        }
    }

    // Reads inside a line that has been waited for so long.
    fn read_on(&mut self, bytes: &mut [u8], waited: u64) -> io::Result<usize>
        ensures { ReadsAtMost result bytes.new }
    {
        let Some(left) = time_left(waited, self.most) else {
            return Err(self.note(ErrorKind::WouldBlock.into(), Lapse::Slow));
        };
        let (micros, lapse) = match self.idle.saturating_mul(1_000_000) {
            idle if 0 < idle && idle < left => (idle, Lapse::Idle),
            _ => (left, Lapse::Slow),
        };
        let begun = Instant::now(self.rt)?;
        self.stream.set_read_timeout(Duration::from_micros(micros))?;
        self.is_hurried = true;
        let mut stream = self.stream;
        match stream.read(bytes) {
            Ok(count) => {
                let passed = self.micros_since(begun);
                self.waited = waited_after(Some(waited), &bytes[..count], passed);
                Ok(count)
            }
            Err(error) => Err(self.note(error, lapse)),
        }
    }

    // Notes why the client is waited for no longer, where a read failed because it waited too long.
    fn note(&self, error: io::Error, lapse: Lapse) -> io::Error {
        if error.kind() == ErrorKind::WouldBlock {
            self.lapse.set(Some(lapse));
        }
        error
    }

    fn micros_since(&self, begun: Instant) -> u64 {
        match begun.elapsed(self.rt) {
            Ok(passed) => u64::try_from(passed.as_micros()).unwrap_or(u64::MAX),
            Err(_) => 0,
        }
    }
}

impl<H: Clock> Read for Timely<'_, H> {
    fn read(&mut self, bytes: &mut [u8]) -> io::Result<usize> {
        if self.lapse.get().is_some() {
            return Err(ErrorKind::WouldBlock.into());
        }
        for _ in 0..MOST_SIGNALS {
            let answer = match self.waited {
                Some(waited) => self.read_on(bytes, waited),
                None => self.read_next(bytes),
            };
            match answer {
                Err(error) if error.kind() == ErrorKind::Interrupted => {}
                answer => return answer,
            }
        }
        Err(ErrorKind::Interrupted.into())
    }
}

// For how long a read waits that may wait for so many seconds, 0 for ever.
fn patience(seconds: u64) -> Option<Duration> {
    match seconds {
        0 => None,
        _ => Some(Duration::from_secs(seconds)),
    }
}
