//! Readers and writers that are slow, fail, or go on for long.

use std::io;
use std::io::{ErrorKind, Read, Write};

/// A reader that gives one byte a read, and fails once it has given some reads.
#[derive(Drop)]
pub(crate) struct Drip<'a> {
    pub(crate) rest: &'a [u8],
    pub(crate) reads_left: usize,
}

impl Read for Drip<'_> {
    fn read(&mut self, buf: &mut [u8]) -> io::Result<usize> {
        if self.reads_left == 0 {
            return Err(io::Error::from(ErrorKind::Other));
        }
        self.reads_left -= 1;
        if buf.is_empty() {
            return Ok(0);
        }
        match self.rest {
            [] => Ok(0),
            [first, others @ ..] => {
                buf[0] = *first;
                self.rest = others;
                Ok(1)
            }
        }
    }
}

/// A writer that takes a few bytes a write, and fails once it holds some.
#[derive(Drop)]
pub(crate) struct Narrow {
    pub(crate) out: Vec<u8>,
    pub(crate) step: usize,
    pub(crate) room: usize,
}

impl Write for Narrow {
    fn write(&mut self, buf: &[u8]) -> io::Result<usize> {
        if self.out.len() >= self.room {
            return Err(io::Error::from(ErrorKind::Other));
        }
        let n = buf.len().min(self.step).min(self.room - self.out.len());
        self.out.extend_from_slice(&buf[..n])?;
        Ok(n)
    }

    fn flush(&mut self) -> io::Result<()> {
        Ok(())
    }
}

/// A reader of many bytes of one value.
#[derive(Drop)]
pub(crate) struct Same {
    pub(crate) byte: u8,
    pub(crate) left: usize,
}

impl Read for Same {
    fn read(&mut self, buf: &mut [u8]) -> io::Result<usize> {
        let n = buf.len().min(self.left);
        let (front, _) = buf.split_at_mut(n);
        front.fill(self.byte);
        self.left -= n;
        Ok(n)
    }
}

/// A writer that can be flushed so many times.
#[derive(Drop)]
pub(crate) struct Flushed {
    pub(crate) out: Vec<u8>,
    pub(crate) flushes_left: usize,
}

impl Write for Flushed {
    fn write(&mut self, buf: &[u8]) -> io::Result<usize> {
        self.out.extend_from_slice(buf)?;
        Ok(buf.len())
    }

    fn flush(&mut self) -> io::Result<()> {
        if self.flushes_left == 0 {
            return Err(io::Error::from(ErrorKind::Other));
        }
        self.flushes_left -= 1;
        Ok(())
    }
}
