//! The bytes of a session that were read and are not answered yet.

ghost use Rattle.std.specs.Prelude.{◌≡◌, ℕ, ◌<◌, ◌≤◌, ◌++◌, List, [], length, take, drop, ◌+◌, slice_range, nat_lt, vec_len, IfOk, OnOk, OnErr};
ghost use Rattle.std.specs.Io.KnownBytes.{Keeps, Consumes, IsAtEnd};
ghost use Rattle.canvas_session.specs.Pending.{TakesIn, IsMore};

use std::alloc::{AllocError, Global};
use std::io;
use std::io::Read;
use std::marker::Model;

pub const ROOM: usize = 65_537;

/// Bytes that were read and are not answered yet.
#[derive(Drop)]
pub struct Pending {
    bytes: Vec<u8>,
    start: usize,
    end: usize,
}

impl Model for Pending {
    ghost Value = { List ℕ };

    ghost view = { λ p. slice_range p.bytes.items p.start p.end };

    ghost invariant = { λ p.
        (p.start ≤ p.end) × (p.end ≤ vec_len p.bytes) × (vec_len p.bytes ≡ 65537) };
}

impl Pending {
    pub fn new(alloc: Global) -> Result<Self, AllocError>
        ensures { IfOk result (λ p. p ≡ []) }
    {
        let bytes = vec![in alloc; 0u8; ROOM]?;
        Ok(Pending {
            bytes,
            start: 0,
            end: 0,
        })
    }

    pub fn as_slice(&self) -> &[u8]
        ensures bytes { result.now ≡ self.now }
        ensures fits { length result.now ≤ 65537 }
    {
        &self.bytes[self.start..self.end]
    }

    pub fn drop_front(&mut self, n: usize)
        requires { n ≤ length self.old }
        ensures { self.new ≡ drop n self.old }
    {
        self.start += n;
    }

    /// Reads what there is room for, and says whether something came.
    pub fn fill<R: Read>(&mut self, reader: &mut R) -> io::Result<bool>
        requires { length self.old < 65537 }
        ensures takes { TakesIn (R.remaining reader.old) (R.remaining reader.new) self.old
            self.new }
        ensures fits { length self.new ≤ 65537 }
        ensures more { IfOk result (λ any. IsMore any (R.remaining reader.new) self.old self.new) }
        ensures err { OnErr result (self.new ≡ self.old) }
    {
        let (start, end) = make_room(&mut self.bytes, self.start, self.end);
        let (n, result) = read_after(reader, &mut self.bytes, start, end);
        self.start = start;
        self.end = end + n;
        result?;
        Ok(n > 0)
    }
}

/// Moves the range to the front where there is no room after it, and says where it then stands.
fn make_room(bytes: &mut Vec<u8>, start: usize, end: usize) -> (usize, usize)
    requires in_order { start ≤ end }
    requires within { end ≤ vec_len bytes.old }
    requires room { length (slice_range bytes.old.items start end) < vec_len bytes.old }
    ensures len { vec_len bytes.new ≡ vec_len bytes.old }
    ensures in_order { result.0 ≤ result.1 }
    ensures room { result.1 < vec_len bytes.old }
    ensures same { slice_range bytes.new.items result.0 result.1
        ≡ slice_range bytes.old.items start end }
{
    if end == bytes.len() || start == end {
        bytes.copy_within(start..end, 0);
        (0, end - start)
    } else {
        (start, end)
    }
}

/// Reads behind the range. How many bytes came is said at an error too.
fn read_after<R: Read>(
    reader: &mut R,
    bytes: &mut Vec<u8>,
    start: usize,
    end: usize,
) -> (usize, io::Result<()>)
    requires in_order { start ≤ end }
    requires room { end < vec_len bytes.old }
    ensures len { vec_len bytes.new ≡ vec_len bytes.old }
    ensures within { end + result.0 ≤ vec_len bytes.old }
    ensures takes { TakesIn (R.remaining reader.old) (R.remaining reader.new)
        (slice_range bytes.old.items start end)
        (slice_range bytes.new.items start (end + result.0)) }
    ensures more { OnOk result.1
        (IsMore (nat_lt 0 result.0) (R.remaining reader.new) (slice_range bytes.old.items start end)
        (slice_range bytes.new.items start (end + result.0))) }
    ensures err { OnErr result.1 (slice_range bytes.new.items start (end + result.0)
        ≡ slice_range bytes.old.items start end) }
{
    match read_at(reader, bytes, end) {
        Ok(n) => (n, Ok(())),
        Err(e) => (0, Err(e)),
    }
}

fn read_at<R: Read>(reader: &mut R, bytes: &mut Vec<u8>, end: usize) -> io::Result<usize>
    requires { end < vec_len bytes.old }
    ensures len { vec_len bytes.new ≡ vec_len bytes.old }
    ensures front { take end bytes.new.items ≡ take end bytes.old.items }
    ensures fits { IfOk result (λ n. end + n ≤ vec_len bytes.old) }
    ensures ok { IfOk result (λ n. Consumes (R.remaining reader.old) (R.remaining reader.new)
        (take n (drop end bytes.new.items))) }
    ensures end { IfOk result (λ n. n ≡ 0 → IsAtEnd (R.remaining reader.new)) }
    ensures err { OnErr result (Keeps (R.remaining reader.old) (R.remaining reader.new)) }
{
    reader.read(&mut bytes[end..])
}
