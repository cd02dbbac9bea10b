//! What a request asks for, by its head.
ghost use Rattle.std.specs.Prelude.{◌≡◌, ◌≤◌, length};
ghost use Rattle.canvas_status.specs.Requests.{page_at, path_len, path_of, wanted_by, Reads};

use httparse::spans::{EMPTY_HEADER_SPAN, parse_request};
use httparse::{Error, Status};

/// The most bytes of a head.
pub const MOST_BYTES: usize = 8_192;

/// The most fields of a head.
const MOST_FIELDS: usize = 64;

/// A page that can be asked for.
#[derive(Clone, Copy, Debug, PartialEq, Eq)]
pub enum Page {
    Health,
    Metrics,
}

/// What a request wants.
#[derive(Clone, Copy, Debug, PartialEq, Eq)]
pub enum Wanted {
    /// A page.
    Get(Page),
    /// The head of the answer with a page.
    Head(Page),
    /// A page by a method that is not for reading.
    Other,
    /// A path where there is no page.
    Elsewhere,
    /// The head of the answer there.
    HeadElsewhere,
}

/// What the first bytes of a connection are.
#[derive(Clone, Copy, Debug, PartialEq, Eq)]
pub enum Head {
    /// The head of a request.
    Whole(Wanted),
    /// More bytes may make them one.
    Unfinished,
    /// No bytes that follow make them one.
    Bad,
    /// They begin no head of at most 8,192 bytes and 64 fields.
    TooLong,
}

/// What the first bytes of a connection are, 8,192 at most.
pub fn read_head(bytes: &[u8]) -> Head
    ensures { Reads bytes.now result }
{
    let mut fields = [EMPTY_HEADER_SPAN; MOST_FIELDS];
    match parse_request(bytes, &mut fields) {
        Ok(Status::Complete(spans)) => Head::Whole(wanted_by(
            spans.method.of(bytes),
            spans.path.of(bytes),
        )),
        Ok(Status::Partial) if bytes.len() < MOST_BYTES => Head::Unfinished,
        Ok(Status::Partial) => Head::TooLong,
        Err(Error::TooManyHeaders) => Head::TooLong,
        Err(Error::HeaderName) => Head::Bad,
        Err(Error::HeaderValue) => Head::Bad,
        Err(Error::NewLine) => Head::Bad,
        Err(Error::Status) => Head::Bad,
        Err(Error::Token) => Head::Bad,
        Err(Error::Version) => Head::Bad,
    }
}

// What a request wants, by its method and its target.
fn wanted_by(method: &[u8], target: &[u8]) -> Wanted
    ensures { result ≡ wanted_by method.now target.now }
{
    let page = page_at(path_of(target));
    match page {
        Some(page) if method == b"GET".as_slice() => Wanted::Get(page),
        Some(page) if method == b"HEAD".as_slice() => Wanted::Head(page),
        Some(_) => Wanted::Other,
        None if method == b"HEAD".as_slice() => Wanted::HeadElsewhere,
        None => Wanted::Elsewhere,
    }
}

// The path of a target: what stands before a question mark.
fn path_of(target: &[u8]) -> &[u8]
    ensures { result.now ≡ path_of target.now }
{
    &target[..path_len(target)]
}

// How many bytes of a target are its path.
fn path_len(target: &[u8]) -> usize
    ensures counts { result ≡ path_len target.now }
    ensures within { result ≤ length target.now }
{
    target.iter().take_while(|byte| **byte != b'?').count()
}

// The page at a path.
fn page_at(path: &[u8]) -> Option<Page>
    ensures { result ≡ page_at path.now }
{
    if path == b"/healthz".as_slice() {
        return Some(Page::Health);
    }
    if path == b"/metrics".as_slice() {
        return Some(Page::Metrics);
    }
    None
}
