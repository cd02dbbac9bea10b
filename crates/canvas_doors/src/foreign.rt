//! Whether what a client sends is no session: HTTP, TLS, and the like.

ghost use Rattle.std.specs.Prelude.{◌≡◌, ◌≤◌, length};
ghost use Rattle.canvas_doors.specs.Foreign.{begins_foreign, begins_with_control, begins_with_method, ends_in_version, is_control, is_foreign, is_http, is_version, line_len, without_cr};

/// The most bytes of a line, without its LF.
pub const MOST_LINE: usize = 65_536;

/// Whether these bytes tell that what a client sends is no session: they begin with a control
/// byte other than a tab, an LF and a CR, or with a method of HTTP and a blank, or their first line
/// ends in a version of HTTP.
pub fn is_foreign(bytes: &[u8]) -> bool
    ensures { result ≡ is_foreign bytes.now }
{
    let len = line_len(bytes);
    let (line, _) = bytes.split_at(len);
    begins_with_control(bytes) || begins_with_method(line) || (len < bytes.len() && is_http(line))
}

/// Whether the first bytes of a line that goes on tell it already.
pub fn begins_foreign(bytes: &[u8]) -> bool
    ensures { result ≡ begins_foreign bytes.now }
{
    begins_with_control(bytes) || begins_with_method(bytes)
}

/// How many bytes stand before the first LF, or how many there are.
pub fn line_len(bytes: &[u8]) -> usize
    ensures counts { result ≡ line_len bytes.now }
    ensures within { result ≤ length bytes.now }
{
    bytes.iter().take_while(|byte| **byte != b'\n').count()
}

// Whether a control byte other than a tab, an LF and a CR comes first. TLS and TURN begin with one.
fn begins_with_control(bytes: &[u8]) -> bool
    ensures { result ≡ begins_with_control bytes.now }
{
    match bytes {
        [byte, ..] => is_control(*byte),
        [] => false,
    }
}

fn is_control(byte: u8) -> bool
    ensures { result ≡ is_control byte }
{
    byte < b' ' && byte != b'\t' && byte != b'\n' && byte != b'\r'
}

// Whether the bytes begin with a method of HTTP and a blank.
fn begins_with_method(bytes: &[u8]) -> bool
    ensures { result ≡ begins_with_method bytes.now }
{
    bytes.starts_with(b"GET ")
        || bytes.starts_with(b"HEAD ")
        || bytes.starts_with(b"POST ")
        || bytes.starts_with(b"PUT ")
        || bytes.starts_with(b"PATCH ")
        || bytes.starts_with(b"DELETE ")
        || bytes.starts_with(b"OPTIONS ")
        || bytes.starts_with(b"CONNECT ")
        || bytes.starts_with(b"TRACE ")
        || bytes.starts_with(b"PRI ")
}

// Whether a line that is no longer than it may be ends in a version of HTTP.
fn is_http(line: &[u8]) -> bool
    ensures { result ≡ is_http line.now }
{
    line.len() <= MOST_LINE && ends_in_version(line)
}

// Whether a line ends in a version of HTTP, perhaps before a CR.
fn ends_in_version(line: &[u8]) -> bool
    ensures { result ≡ ends_in_version line.now }
{
    let line = without_cr(line);
    is_version(&line[line.len().saturating_sub(8)..])
}

// A line without the CR at its end.
fn without_cr(line: &[u8]) -> &[u8]
    ensures { result.now ≡ without_cr line.now }
{
    if line.ends_with(b"\r") {
        &line[..line.len() - 1]
    } else {
        line
    }
}

// Whether the bytes are a version of HTTP: `HTTP/`, a digit, a point and a digit.
fn is_version(bytes: &[u8]) -> bool
    ensures { result ≡ is_version bytes.now }
{
    bytes.len() == 8
        && bytes.starts_with(b"HTTP/")
        && bytes[5].is_ascii_digit()
        && bytes[6] == b'.'
        && bytes[7].is_ascii_digit()
}
