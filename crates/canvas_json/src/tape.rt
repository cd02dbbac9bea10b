//! From a text to its tape: the tokens that the text is as JSON.
ghost use Rattle.std.specs.Prelude.{◌≡◌, [], map, IfOk, Err, false};
ghost use Rattle.std.specs.Str.{is_utf8};
ghost use Rattle.json.specs.Tape.{node_token};
ghost use Rattle.serde_json.specs.Read.{read};
ghost use Rattle.canvas_json.specs.Faults.{GivesSeen};
ghost use Rattle.canvas_json.specs.Given.{view, HasData};
ghost use Rattle.canvas_json.specs.Json.{json_of};
ghost use Rattle.canvas_json.specs.Taken.{depth_after, are_taken};
ghost use Rattle.canvas_json.specs.declared.fault.TextFault.TheVariants.{NotJson};

use crate::fault::TextFault;
use crate::number::is_in_range;
use json::{Error, Node, Scratch, Tape};
use std::alloc::Global;
use std::str;

// How many levels of arrays and objects serde_json takes.
const MAX_DEPTH: u8 = 127;

// How many levels are open after the node, where `depth` are before it, or none where serde_json
// takes no such number or level.
fn depth_after(depth: u8, node: &Node<'_>) -> Option<u8>
    ensures { result ≡ depth_after depth (node_token node.now) }
{
    match node {
        Node::Object(_) | Node::Array(_) => {
            if depth < MAX_DEPTH {
                Some(depth + 1)
            } else {
                None
            }
        }
        Node::EndObject | Node::EndArray => Some(depth.saturating_sub(1)),
        Node::Number(text) => is_in_range(text).then_some(depth),
        Node::Key(_) | Node::String(_) | Node::Bool(_) | Node::Null => Some(depth),
    }
}

// Whether serde_json takes these nodes.
fn are_taken(nodes: &[Node<'_>]) -> bool
    ensures { result ≡ are_taken 0 (map node_token nodes.now) }
{
    let mut depth = 0;
    for node in nodes {
        match depth_after(depth, node) {
            Some(after) => depth = after,
            None => return false,
        }
    }
    true
}

fn tape_of_text<'a>(
    alloc: Global,
    scratch: &'a mut Scratch,
    text: &'a str,
) -> Result<Tape<'a>, TextFault>
    ensures value { GivesSeen view result (read text.now) }
    ensures begins { IfOk result (λ tape. HasData tape) }
{
    let tape = match Tape::parse(text, scratch, Vec::new(alloc)) {
        Ok(tape) => tape,
        Err(Error::Invalid) => return Err(TextFault::NotJson),
        Err(_) => return Err(TextFault::OutOfMemory),
    };
    if are_taken(tape.nodes()) {
        Ok(tape)
    } else {
        Err(TextFault::NotJson)
    }
}

/// The tape of a text, if serde_json takes the text. `scratch` keeps its memory from text to text.
/// An empty text and bytes that are no UTF-8 take no memory.
pub fn tape_of<'a>(
    alloc: Global,
    scratch: &'a mut Scratch,
    text: &'a [u8],
) -> Result<Tape<'a>, TextFault>
    ensures value { GivesSeen view result (json_of text.now) }
    ensures begins { IfOk result (λ tape. HasData tape) }
    ensures empty { text.now ≡ [] → result ≡ Err NotJson }
    ensures text { is_utf8 text.now ≡ false → result ≡ Err NotJson }
{
    if text.is_empty() {
        return Err(TextFault::NotJson);
    }
    match str::from_utf8(text) {
        Ok(text) => tape_of_text(alloc, scratch, text),
        Err(_) => Err(TextFault::NotJson),
    }
}
