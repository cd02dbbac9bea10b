//! The lines that a store answers.
ghost use Rattle.std.specs.Prelude.{◌≡◌, ◌++◌, [], ◌∷◌, ◌<◌, IfOk, IfSome, length, codes, OnOk};
ghost use Rattle.std.specs.Io.KnownBytes.{Consumes, Keeps};
ghost use Rattle.canvas_store.specs.Answers.{Tells, lasts_text};

use crate::fault::{MOST_LINE, StoreFault, Words};
use crate::head::lasts_line;
use std::io::{ErrorKind, Read};

/// A line without its LF, in printable ASCII.
pub(crate) type Line = Words;

/// Reads a line, and nothing behind its LF. One that is longer than 254 bytes, or has others than
/// printable ones, is `Strange`.
pub(crate) fn read_line<R: Read>(reader: &mut R) -> Result<Line, StoreFault>
    ensures { IfOk result (λ line. Consumes (R.remaining reader.old) (R.remaining reader.new)
        (line.bytes ++ 10 ∷ [])) }
{
    let mut line = Line::new();
    while line.len() < MOST_LINE {
        let byte = read_byte(reader)?;
        if byte == b'\n' {
            return Ok(line);
        }
        if byte < b' ' || b'~' < byte {
            return Err(StoreFault::Strange);
        }
        line.push(char::from(byte));
    }
    Err(StoreFault::Strange)
}

fn read_byte<R: Read>(reader: &mut R) -> Result<u8, StoreFault>
    ensures { IfOk result
        (λ byte. Consumes (R.remaining reader.old) (R.remaining reader.new) (byte ∷ [])) }
{
    let mut byte = [0u8; 1];
    read_whole(reader, &mut byte)?;
    Ok(byte[0])
}

/// Reads as many bytes as there is room for.
pub(crate) fn read_whole<R: Read>(reader: &mut R, bytes: &mut [u8]) -> Result<(), StoreFault>
    ensures { IfOk result
        (λ _. Consumes (R.remaining reader.old) (R.remaining reader.new) bytes.new) }
{
    match reader.read_exact(bytes) {
        Ok(()) => Ok(()),
        Err(error) if error.kind() == ErrorKind::UnexpectedEof => Err(StoreFault::Ended),
        Err(error) => Err(StoreFault::Io(error)),
    }
}

/// Reads what came unasked, over a connection whose reads don't wait. `Ok` where nothing came.
pub(crate) fn read_unasked<R: Read>(reader: &mut R) -> Result<(), StoreFault>
    ensures { OnOk result (Keeps (R.remaining reader.old) (R.remaining reader.new)) }
{
    let mut first = [0u8; 1];
    match reader.read(&mut first) {
        Ok(0) => Err(StoreFault::Ended),
        Ok(_) => Err(unasked(&first, reader)),
        Err(error) if error.kind() == ErrorKind::WouldBlock => Ok(()),
        Err(error) => Err(StoreFault::Io(error)),
    }
}

// What a line says that came unasked, of which the first bytes are read already.
fn unasked<R: Read>(first: &[u8], reader: &mut R) -> StoreFault {
    match read_line(&mut first.chain(reader)) {
        Ok(line) => refusal_of(&line),
        Err(fault) => fault,
    }
}

/// Reads for how many milliseconds a lease lasts.
pub(crate) fn read_lasts<R: Read>(reader: &mut R) -> Result<u64, StoreFault>
    ensures { IfOk result (λ time. Consumes (R.remaining reader.old) (R.remaining reader.new)
        (lasts_text time)) }
{
    let line = read_line(reader)?;
    match time_in(&line) {
        Some(time) => Ok(time),
        None => Err(refusal_of(&line)),
    }
}

// The number of a line, where it says how long a lease lasts and nothing else.
fn time_in(line: &Line) -> Option<u64>
    ensures { IfSome result (λ time. line.now.bytes ++ 10 ∷ [] ≡ lasts_text time) }
{
    let time = line.as_str().strip_prefix("lasts ")?.parse::<u64>().ok()?;
    if lasts_line(time).as_str() == line.as_str() {
        Some(time)
    } else {
        None
    }
}

/// Why a store did not do what it was asked, by its line.
pub(crate) fn refusal_of(line: &Line) -> StoreFault
    ensures { Tells line.now.bytes result }
{
    let line = line.as_str();
    if let Some(words) = line.strip_prefix("lost ") {
        return StoreFault::Lost(words_of(words));
    }
    if let Some(words) = line.strip_prefix("busy ") {
        return StoreFault::Busy(words_of(words));
    }
    match line.strip_prefix("error ") {
        Some(words) => StoreFault::Refused(words_of(words)),
        None => StoreFault::Strange,
    }
}

// The words behind the first one of a line.
fn words_of(text: &str) -> Words
    requires { length text.now < 256 }
    ensures { result.bytes ≡ text.now }
{
    let mut words = Words::new();
    words.push_str(text);
    words
}
