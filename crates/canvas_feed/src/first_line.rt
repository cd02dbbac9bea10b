//! The line with which a connection begins.
ghost use Rattle.std.specs.Prelude.{◌≡◌, ◌≤◌, ◌<◌, ◌+◌, ◌++◌, ◌∷◌, List, ℕ, take, drop, IfSome};
ghost use Rattle.std.specs.Io.KnownBytes.{Consumes};
ghost use Rattle.canvas_journal.specs.Lines.{IsLine};

use std::io::Read;

/// Room for a line of 4,096 bytes and its LF.
pub const LINE_ROOM: usize = 4_097;

/// Reads the line with which a connection begins, and says how many bytes it has without its LF.
/// `None` where it has more than 4,096, or where the input ends or a read fails before its LF. What
/// came behind the LF is passed over.
pub fn read_line<R: Read>(reader: &mut R, line: &mut [u8; LINE_ROOM]) -> Option<usize>
    ensures within { IfSome result (λ n. n < 4097) }
    ensures line { IfSome result (λ n. IsLine (take n line.new)) }
    ensures read { IfSome result (λ n. (behind : List ℕ)
        × Consumes (R.remaining reader.old) (R.remaining reader.new)
        (take n line.new ++ 10 ∷ behind)) }
{
    let mut count = 0;
    while count < LINE_ROOM {
        let more = read_more(reader, line, count);
        if more == 0 {
            return None;
        }
        count += more;
        let (known, _) = line.split_at(count);
        if let Some(end) = memchr::memchr(b'\n', known) {
            return Some(end);
        }
    }
    None
}

// Reads behind so many bytes, and says how many came: none where the input has ended or a read failed.
fn read_more<R: Read>(reader: &mut R, line: &mut [u8; LINE_ROOM], count: usize) -> usize
    requires { count < 4097 }
    ensures within { count + result ≤ 4097 }
    ensures front { take count line.new ≡ take count line.old }
    ensures read { Consumes (R.remaining reader.old) (R.remaining reader.new)
        (take result (drop count line.new)) }
{
    match reader.read(&mut line[count..]) {
        Ok(more) => more,
        Err(_) => 0,
    }
}
