//! From a file to a writer.
ghost use Rattle.std.specs.Prelude.{◌≡◌, ◌≤◌, ◌<◌, ◌+◌, List, ℕ, Some, length, take, drop, IfOk};
ghost use Rattle.std.specs.Io.{ReadsAtMost};
ghost use Rattle.canvas_record.specs.Contents.{Contents};
ghost use Rattle.canvas_feed.specs.Feed.{document_after, feed_text, place_behind, whole_feed};
ghost use Rattle.canvas_feed.specs.Sending.{between, ReadsThere, Sends, SendsSome};

use std::io;
use std::io::{ErrorKind, Write};

/// A file of which pieces are read. What stands in it does not change; it may grow at its end.
pub trait Shelf {
    ghost use Rattle.std.specs.Prelude.{List, ℕ, Option, None};

    /// The bytes of the file, where they are known.
    ghost bytes: { Self → Option (List ℕ) } = { λ _. None };

    /// Reads a piece from a place on, and says how many bytes came.
    fn read_at(&self, at: u64, piece: &mut [u8]) -> io::Result<usize>
        ensures bound { ReadsAtMost result piece.new }
        ensures bytes { (file : List ℕ) → bytes self.now ≡ Some file
            → ReadsThere file at result piece.new };
}

/// Sends the bytes of a file from one place to another, in pieces as long as this one.
pub fn send<F: Shelf, W: Write>(
    file: &F,
    from: u64,
    to: u64,
    piece: &mut [u8],
    writer: &mut W,
) -> io::Result<()>
    requires { from ≤ to }
    ensures sent { (bytes : List ℕ) → F.bytes file.now ≡ Some bytes
        → Sends (W.contents writer.old) (W.contents writer.new) result (between from to bytes) }
    // Of a feed, from the place behind one version to that behind another, these are the lines of
    // the versions between, in order.
    ensures lines { (generation : ℕ) (d : Contents) (lines : List (List ℕ)) (n m : ℕ)
        → F.bytes file.now ≡ Some (whole_feed generation d lines) → n ≤ m → m ≤ length lines
        → from ≡ place_behind generation d lines n → to ≡ place_behind generation d lines m
        → Sends (W.contents writer.old) (W.contents writer.new) result
        (feed_text (document_after d (take n lines)) n (drop n (take m lines))) }
{
    let mut at = from;
    while at < to {
        match send_piece(file, at, to, piece, writer) {
            Ok(count) => at += count as u64,
            Err(error) => return Err(error),
        }
    }
    Ok(())
}

// Sends a piece between two places: a byte at least.
fn send_piece<F: Shelf, W: Write>(
    file: &F,
    at: u64,
    to: u64,
    piece: &mut [u8],
    writer: &mut W,
) -> io::Result<usize>
    requires { at < to }
    ensures some { IfOk result (λ n. 0 < n) }
    ensures within { IfOk result (λ n. at + n ≤ to) }
    ensures sent { (bytes : List ℕ) → F.bytes file.now ≡ Some bytes
        → SendsSome (W.contents writer.old) (W.contents writer.new) result at to bytes }
{
    let count = match read_within(file, at, to, piece) {
        Ok(count) => count,
        Err(error) => return Err(error),
    };
    match send_all(&piece[..count], writer) {
        Ok(()) => Ok(count),
        Err(error) => Err(error),
    }
}

// Reads a piece between two places: a byte at least.
fn read_within<F: Shelf>(file: &F, at: u64, to: u64, piece: &mut [u8]) -> io::Result<usize>
    requires { at < to }
    ensures some { IfOk result (λ n. 0 < n) }
    ensures within { IfOk result (λ n. at + n ≤ to) }
    ensures bound { IfOk result (λ n. n ≤ length piece.new) }
    ensures bytes { (bytes : List ℕ) → F.bytes file.now ≡ Some bytes
        → ReadsThere bytes at result piece.new }
{
    let room = piece
        .len()
        .min(usize::try_from(to - at).unwrap_or(usize::MAX));
    match file.read_at(at, &mut piece[..room]) {
        Ok(0) => Err(ErrorKind::UnexpectedEof.into()),
        Ok(count) => Ok(count),
        Err(error) => Err(error),
    }
}

// Sends all of these bytes.
fn send_all<W: Write>(bytes: &[u8], writer: &mut W) -> io::Result<()>
    ensures { Sends (W.contents writer.old) (W.contents writer.new) result bytes.now }
{
    let mut rest = bytes;
    while !rest.is_empty() {
        match writer.write(rest) {
            Ok(0) => return Err(ErrorKind::WriteZero.into()),
            Ok(sent) => rest = &rest[sent..],
            Err(error) => return Err(error),
        }
    }
    Ok(())
}
