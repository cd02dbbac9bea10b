//! From a line to a request.
ghost use Rattle.std.specs.Prelude.{◌≡◌, [], Err, false};
ghost use Rattle.std.specs.Str.{is_utf8};
ghost use Rattle.canvas_wire.specs.Faults.{Gives};
ghost use Rattle.canvas_json.specs.Given.{view};
ghost use Rattle.canvas_wire.specs.Requests.{request_in, request_of};
ghost use Rattle.canvas_wire.specs.declared.fault.WireFault.TheVariants.{BadJson};

use crate::asked::asked;
use crate::extra::has_extra;
use crate::fault::WireFault;
use crate::request::Request;
use crate::verb::Verb;
use canvas_json::{Given, tape_of};
use json::Scratch;
use std::alloc::Global;

// The request of an object.
#[tactic(auto, unfolding(crate::specs::Requests::request_in))]
fn request_in(alloc: Global, object: &Given<'_, '_>) -> Result<Request, WireFault>
    ensures { Gives result (request_in (view object.now)) }
{
    let verb = object
        .get("verb")
        .and_then(|verb| verb.as_str())
        .and_then(Verb::named)
        .ok_or(WireFault::BadVerb)?;
    match asked(alloc, verb, object)? {
        Some(_) if has_extra(verb, object) => Err(WireFault::ExtraField),
        Some(request) => Ok(request),
        None => Err(WireFault::BadField),
    }
}

/// Reads requests, and keeps the memory that its reading takes from line to line.
#[derive(Drop)]
pub struct RequestReader {
    scratch: Scratch,
}

impl RequestReader {
    /// A reader that has taken no memory yet.
    pub fn new(alloc: Global) -> RequestReader {
        RequestReader {
            scratch: Scratch::new(alloc),
        }
    }

    /// The request of a line, which stands without its LF: one JSON object, by serde_json's reading of it.
    ///
    /// The first of these faults that applies is answered: 50 where the line is not JSON, 51 where
    /// it is no object, 52 where `verb` is missing or no verb's name, 53 where a member of the
    /// verb, or of an object inside it, is missing, of the wrong type or out of range, 54 where
    /// there is a member besides these. 1 is answered only where the allocator refused memory, or
    /// where the line has more than 4 GiB less 256 bytes, whatever else it holds; an empty line and
    /// bytes that are no UTF-8 take none.
    #[tactic(auto, unfolding(crate::specs::Requests::request_of))]
    pub fn read(&mut self, alloc: Global, line: &[u8]) -> Result<Request, WireFault>
        ensures request { Gives result (request_of line.now) }
        ensures empty { line.now ≡ [] → result ≡ Err BadJson }
        ensures text { is_utf8 line.now ≡ false → result ≡ Err BadJson }
    {
        let tape = tape_of(alloc, &mut self.scratch, line)?;
        let value = Given::root(&tape);
        if !value.is_object() {
            return Err(WireFault::NotObject);
        }
        request_in(alloc, &value)
    }
}

/// The request of a line, as a new `RequestReader` reads it.
pub fn read_request(alloc: Global, line: &[u8]) -> Result<Request, WireFault>
    ensures request { Gives result (request_of line.now) }
    ensures empty { line.now ≡ [] → result ≡ Err BadJson }
    ensures text { is_utf8 line.now ≡ false → result ≡ Err BadJson }
{
    RequestReader::new(alloc).read(alloc, line)
}
