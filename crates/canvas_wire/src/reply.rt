//! From a reply to its line.
ghost use Rattle.std.specs.Prelude.{◌≡◌, ◌+◌, ◌≤◌, ◌++◌, codes, length, decimal};
ghost use Rattle.canvas_shape.specs.Names.{colour_text};
ghost use Rattle.canvas_wire.specs.Replies.{IsNamed, line_of, said};

use arrayvec::ArrayString;
use canvas_shape::Colour;
use itoa::Buffer;
use std::str;

/// What is answered to a request. A reply is one line, and after it the bytes of its body.
#[derive(Clone, Copy, Debug)]
pub enum Reply {
    /// A shape was made: its id, and the version that has it.
    Created { id: u32, version: u64 },
    /// Another edit was made: the version that has it.
    Edited { version: u64 },
    /// An image or a saved document of so many bytes follows, made of this version.
    Body { bytes: u64, version: u64 },
    /// The colour of a pixel at this version.
    Point { colour: Colour, version: u64 },
    /// The request was refused: the number and name of the refusal.
    Refused { code: u16, name: &'static str },
    /// The edit was refused because the seat has seen more than the desk holds: the lengths of
    /// the desk's history and of the seat's front.
    Behind { desk: u64, front: u64 },
}

/// The line of a reply, its LF included. No reply's line is longer than 160 bytes.
pub type ReplyLine = ArrayString<160>;

// Appends a text.
fn push_text(line: &mut ReplyLine, text: &str)
    requires { length line.old.bytes + length text.now ≤ 160 }
    ensures bytes { line.new.bytes ≡ line.old.bytes ++ text.now }
    ensures len { length line.new.bytes ≡ length line.old.bytes + length text.now }
{
    line.push_str(text);
}

// Appends a number's decimal digits.
fn push_number(line: &mut ReplyLine, n: u64)
    requires { length line.old.bytes ≤ 140 }
    ensures bytes { line.new.bytes ≡ line.old.bytes ++ decimal n }
    ensures len { length line.new.bytes ≤ length line.old.bytes + 20 }
{
    let mut digits = Buffer::new();
    push_text(line, digits.format(n));
}

// Appends a colour's six hexadecimal digits.
fn push_colour(line: &mut ReplyLine, colour: Colour)
    requires { length line.old.bytes ≤ 140 }
    ensures bytes { line.new.bytes ≡ line.old.bytes ++ colour_text colour }
    ensures len { length line.new.bytes ≡ length line.old.bytes + 6 }
{
    let digits = colour.text();
    push_text(line, str::from_utf8(&digits).unwrap());
}

// Appends the version of an accepted reply, which ends its line.
fn push_version(line: &mut ReplyLine, version: u64)
    requires { length line.old.bytes ≤ 130 }
    ensures { line.new.bytes ≡ line.old.bytes ++ decimal version ++ codes "}\n" }
{
    push_number(line, version);
    push_text(line, "}\n");
}

/// The line of a reply: compact JSON, its members in the order of their names, and an LF.
#[tactic(auto, using(canvas_code::proofs::Short::name_short))]
pub fn write_reply(reply: &Reply) -> ReplyLine
    requires { IsNamed reply.now }
    ensures { result.bytes ≡ line_of (said reply.now) }
{
    let mut line = ReplyLine::new();
    match *reply {
        Reply::Created { id, version } => {
            push_text(&mut line, "{\"body\":0,\"id\":");
            push_number(&mut line, u64::from(id));
            push_text(&mut line, ",\"ok\":true,\"version\":");
            push_version(&mut line, version);
        }
        Reply::Edited { version } => {
            push_text(&mut line, "{\"body\":0,\"ok\":true,\"version\":");
            push_version(&mut line, version);
        }
        Reply::Body { bytes, version } => {
            push_text(&mut line, "{\"body\":");
            push_number(&mut line, bytes);
            push_text(&mut line, ",\"ok\":true,\"version\":");
            push_version(&mut line, version);
        }
        Reply::Point { colour, version } => {
            push_text(&mut line, "{\"body\":0,\"colour\":\"");
            push_colour(&mut line, colour);
            push_text(&mut line, "\",\"ok\":true,\"version\":");
            push_version(&mut line, version);
        }
        Reply::Refused { code, name } => {
            push_text(&mut line, "{\"body\":0,\"code\":");
            push_number(&mut line, u64::from(code));
            push_text(&mut line, ",\"name\":\"");
            push_text(&mut line, name);
            push_text(&mut line, "\",\"ok\":false}\n");
        }
        Reply::Behind { desk, front } => {
            push_text(&mut line, "{\"body\":0,\"code\":17,\"desk\":");
            push_number(&mut line, desk);
            push_text(&mut line, ",\"front\":");
            push_number(&mut line, front);
            push_text(&mut line, ",\"name\":\"Behind\",\"ok\":false}\n");
        }
    }
    line
}
