//! Where the edit stands in a line of a feed.

use memchr::{memchr, memrchr};

/// What stands before the text of the edit, behind the damage's bracket.
const BEFORE: &[u8] = b",\"edit\":";

/// The text of the edit in a line of a feed, if there is one. Whether the line tells that edit is not judged.
pub fn edit_in(line: &[u8]) -> Option<&[u8]> {
    let rest = line.get(memchr(b']', line)? + 1..)?;
    let rest = rest.strip_prefix(BEFORE)?;
    let version = memrchr(b',', rest)?;
    let id = memrchr(b',', rest.get(..version)?)?;
    rest.get(..id)
}
