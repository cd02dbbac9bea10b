//! The first line that a client sends.

ghost use Rattle.std.specs.Prelude.{◌≡◌, ◌<◌, ◌≤◌, ℕ, [], false, length, take, vec_len, List, IfNone, IfOk, IfSome};
ghost use Rattle.std.specs.Io.KnownBytes.{Consumes, IsAtEnd, Keeps};
ghost use Rattle.canvas_doors.specs.Beginning.{Brings, Tells, TellsOf};
ghost use Rattle.canvas_doors.specs.Foreign.{is_foreign, line_len};

use crate::foreign::{MOST_LINE, begins_foreign, is_foreign, line_len};
use std::alloc::AllocError;
use std::io::Read;

/// How many bytes are read at once.
const PIECE: usize = 4_096;

/// What a client begins with.
#[derive(Clone, Copy, Debug, Drop, PartialEq, Eq)]
pub enum Beginning {
    /// HTTP, or bytes of no text.
    Foreign,
    /// A session.
    Session,
    /// A read failed before that was known.
    Unread,
}

/// Reads until it is known whether what a client sends is a session, and puts what was read into
/// `first`. Of a session that is its whole first line, or all that there is of it up to 65,537 bytes
/// and a piece.
pub fn read_first<R: Read>(reader: &mut R, first: &mut Vec<u8>) -> Result<Beginning, AllocError>
    requires { first.old.items ≡ [] }
    ensures read { IfOk result (λ _. Consumes (R.remaining reader.old) (R.remaining reader.new)
        first.new.items) }
    ensures told { IfOk result (λ told. TellsOf told first.new.items (R.remaining reader.new)) }
{
    while first.len() <= MOST_LINE {
        let seen = first.len();
        match read_more(reader, first)? {
            None => return Ok(Beginning::Unread),
            Some(0) => return Ok(Beginning::Session),
            Some(_) => {}
        }
        if let Some(told) = told_by(first, seen) {
            return Ok(told);
        }
    }
    Ok(Beginning::Session)
}

// Reads behind the bytes that came, and says how many more came: none at the end. `None` where the
// read failed.
fn read_more<R: Read>(reader: &mut R, first: &mut Vec<u8>) -> Result<Option<usize>, AllocError>
    ensures { IfOk result (λ count. Brings count (R.remaining reader.old) (R.remaining reader.new)
        first.old.items first.new.items) }
{
    let mut piece = [0u8; PIECE];
    match reader.read(&mut piece) {
        Ok(count) => {
            first.extend_from_slice(&piece[..count])?;
            Ok(Some(count))
        }
        Err(_) => Ok(None),
    }
}

// What the first bytes tell, where they tell anything. So many of them told nothing.
fn told_by(first: &[u8], seen: usize) -> Option<Beginning>
    requires within { seen ≤ length first.now }
    requires unended { line_len (take seen first.now) ≡ seen }
    ensures told { IfSome result (λ told. (rest : List ℕ) → Tells told first.now rest) }
    ensures unended { IfNone result (line_len first.now ≡ length first.now) }
    ensures untold { IfNone result (is_foreign first.now ≡ false) }
{
    let (_, more) = first.split_at(seen);
    if line_len(more) < more.len() {
        return Some(told_by_line(first));
    }
    if begins_foreign(first) {
        return Some(Beginning::Foreign);
    }
    None
}

// What the first bytes tell that have a whole line.
fn told_by_line(first: &[u8]) -> Beginning
    requires { line_len first.now < length first.now }
    ensures { (rest : List ℕ) → Tells result first.now rest }
{
    if is_foreign(first) {
        Beginning::Foreign
    } else {
        Beginning::Session
    }
}
