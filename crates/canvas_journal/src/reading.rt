//! The lines of a file, as a crash may have left it.
ghost use Rattle.std.specs.Prelude.{◌≡◌, ◌++◌, [], ◌∷◌, ◌≤◌, map, length, IfOk, IfSome, IfNone};
ghost use Rattle.canvas_journal.specs.Lines.{IsLine, recovered, text};

use std::alloc::{AllocError, Global};

/// The lines of a file that count, and the place behind them.
#[derive(Drop)]
pub struct Lines {
    /// Each line without its blank and its LF.
    pub lines: Vec<Vec<u8>>,
    /// Where they end, in bytes.
    pub end: usize,
}

/// The first line and what stands behind it, if the bytes begin with a whole line.
pub fn first_line(bytes: &[u8]) -> Option<(&[u8], &[u8])>
    ensures line { IfSome result
        (λ r. (bytes.now ≡ 32 ∷ r.0.now ++ 10 ∷ r.1.now) × IsLine r.0.now) }
    ensures none { IfNone result (recovered bytes.now ≡ []) }
{
    let [b' ', after @ ..] = bytes else {
        return None;
    };
    let at = memchr::memchr(b'\n', after)?;
    Some((&after[..at], &after[at + 1..]))
}

/// The lines of a file, up to the first that doesn't begin with a blank or has no end.
pub fn read_lines(alloc: Global, bytes: &[u8]) -> Result<Lines, AllocError>
    ensures lines { IfOk result (λ r. map (λ v. v.items) r.lines.items ≡ recovered bytes.now) }
    ensures end { IfOk result (λ r. r.end ≡ length (text (recovered bytes.now))) }
    ensures within { IfOk result (λ r. r.end ≤ length bytes.now) }
{
    let mut lines = Vec::new(alloc);
    let mut rest = bytes;
    while let Some((line, after)) = first_line(rest) {
        lines.push(line.to_vec(alloc)?)?;
        rest = after;
    }
    let end = bytes.len() - rest.len();
    Ok(Lines { lines, end })
}
