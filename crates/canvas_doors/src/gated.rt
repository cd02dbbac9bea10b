//! A writer that asks a gate before it hands bytes on.

ghost use Rattle.std.specs.Prelude.{◌≡◌, ◌<◌, ◌+◌, ◌^◌, ◌++◌, ℕ, IfOk, OnErr, OnOk, length};
ghost use Rattle.std.specs.Io.{WritesAtMost};
ghost use Rattle.std.specs.Io.KnownBytes.{Keeps, WriteAppends};
ghost use Rattle.canvas_doors.specs.Gate.{HasPassed};

use crate::gate::Settles;
use crate::outlet::WriteTwo;
use std::io;
use std::io::{ErrorKind, Write};
use std::marker::{Brand, PhantomData};
use std::sync::Wait;

/// What proofs know of one connection: the bytes that its writer held at first, and what its gate
/// has settled.
pub trait Connection {
    ghost use Rattle.std.specs.Prelude.{ℕ, List, Option};

    ghost begun: { Option (List ℕ) };

    ghost settled: { ℕ → Type 0 };
}

impl Connection for Brand {
    ghost use Rattle.std.specs.Prelude.{None};

    ghost begun = { None };

    ghost settled = { λ _. Unit {0} };
}

/// A writer that takes bytes only where all is settled that they may tell, and counts them.
#[derive(Drop)]
pub struct Passage<K: Connection, W: WriteTwo + Drop> {
    writer: W,
    passed: u64,
    of: PhantomData<K>,
    ghost has_passed: { ∥ HasPassed K.settled K.begun (W.contents writer) passed ∥₁ },
}

impl<K: Connection, W: WriteTwo + Drop> Passage<K, W> {
    /// Nothing has been handed on yet.
    pub fn new(writer: W) -> Passage<K, W>
        requires { K.begun ≡ W.contents writer }
        ensures writer { result.writer ≡ writer }
        ensures none { result.passed ≡ 0 }
    {
        Passage {
            writer,
            passed: 0,
            of: PhantomData,
        }
    }

    /// How many bytes have been handed on.
    pub fn passed(&self) -> u64
        ensures { result ≡ self.now.passed }
    {
        self.passed
    }

    /// The writer again.
    pub fn into_inner(self) -> W
        ensures { result ≡ self.writer }
    {
        let Passage {
            writer,
            passed: _,
            of: _,
        } = self;
        writer
    }

    /// Hands on the beginning of a piece: only once all is settled up to its end.
    pub fn pass(&mut self, bytes: &[u8]) -> io::Result<usize>
        requires fits { self.old.passed + length bytes.now < 2 ^ 64 }
        requires settled { ∥ K.settled (self.old.passed + length bytes.now) ∥₁ }
        ensures bound { WritesAtMost result bytes.now }
        ensures bytes { WriteAppends (W.contents self.old.writer) (W.contents self.new.writer)
            result bytes.now }
        ensures counted { IfOk result (λ n. self.new.passed ≡ self.old.passed + n) }
        ensures same { OnErr result (self.new.passed ≡ self.old.passed) }
    {
        let sent = self.writer.write(bytes)?;
        self.passed += sent as u64;
        Ok(sent)
    }

    /// Hands on the beginning of two pieces: only once all is settled up to their end.
    pub fn pass_two(&mut self, first: &[u8], second: &[u8]) -> io::Result<usize>
        requires fits { self.old.passed + length (first.now ++ second.now) < 2 ^ 64 }
        requires settled { ∥ K.settled (self.old.passed + length (first.now ++ second.now)) ∥₁ }
        ensures bound { WritesAtMost result (first.now ++ second.now) }
        ensures bytes { WriteAppends (W.contents self.old.writer) (W.contents self.new.writer)
            result (first.now ++ second.now) }
        ensures counted { IfOk result (λ n. self.new.passed ≡ self.old.passed + n) }
        ensures same { OnErr result (self.new.passed ≡ self.old.passed) }
    {
        let sent = self.writer.write_two(first, second)?;
        self.passed += sent as u64;
        Ok(sent)
    }

    /// Has the writer send what it holds: bytes that were handed on.
    pub fn flush(&mut self) -> io::Result<()>
        ensures bytes { Keeps (W.contents self.old.writer) (W.contents self.new.writer) }
        ensures same { self.new.passed ≡ self.old.passed }
    {
        self.writer.flush()
    }
}

/// A writer that asks a gate before it hands bytes on: what it is called with lies on top of all
/// that it has handed on.
#[derive(Drop)]
pub struct Gated<'a, K: Connection, H: Wait, G: Settles, W: WriteTwo + Drop> {
    rt: &'a H,
    gate: &'a G,
    passage: Passage<K, W>,
    ghost tells: { ∥ ((n : ℕ) → G.settled gate.now n → K.settled n) ∥₁ },
}

impl<'a, K: Connection, H: Wait, G: Settles, W: WriteTwo + Drop> Gated<'a, K, H, G, W> {
    /// A writer behind a gate.
    pub fn new(rt: &'a H, gate: &'a G, writer: W) -> Gated<'a, K, H, G, W>
        requires begun { K.begun ≡ W.contents writer }
        requires tells { (n : ℕ) → G.settled gate.now n → K.settled n }
        ensures { result.passage.writer ≡ writer }
    {
        Gated {
            rt,
            gate,
            passage: Passage::new(writer),
        }
    }

    /// The writer again. All that it was handed was settled before.
    pub fn into_inner(self) -> W
        ensures writer { result ≡ self.entry.passage.writer }
        ensures passed { ∥ ((n : ℕ) × HasPassed K.settled K.begun (W.contents result) n) ∥₁ }
    {
        let Gated {
            rt: _,
            gate: _,
            passage,
        } = self;
        passage.into_inner()
    }

    // Settles where so many bytes more are put in.
    fn settle(&self, more: usize) -> io::Result<()>
        ensures fits { OnOk result (self.now.passage.passed + more < 2 ^ 64) }
        ensures settled { OnOk result (∥ K.settled (self.now.passage.passed + more) ∥₁) }
    {
        match self.passage.passed().checked_add(more as u64) {
            Some(put_in) => self.gate.settle(self.rt, put_in),
            None => Err(ErrorKind::FileTooLarge.into()),
        }
    }
}

impl<'a, K: Connection, H: Wait, G: Settles, W: WriteTwo + Drop> Write for Gated<'a, K, H, G, W> {
    ghost contents = { λ gated. W.contents gated.passage.writer };

    fn write(&mut self, bytes: &[u8]) -> io::Result<usize> {
        self.settle(bytes.len())?;
        self.passage.pass(bytes)
    }

    fn flush(&mut self) -> io::Result<()> {
        self.passage.flush()
    }
}

impl<'a, K: Connection, H: Wait, G: Settles, W: WriteTwo + Drop> WriteTwo
    for Gated<'a, K, H, G, W> {
    fn write_two(&mut self, first: &[u8], second: &[u8]) -> io::Result<usize> {
        match first.len().checked_add(second.len()) {
            Some(more) => self.settle(more)?,
            None => return Err(ErrorKind::FileTooLarge.into()),
        }
        self.passage.pass_two(first, second)
    }
}
