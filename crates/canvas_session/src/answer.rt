//! What is answered to one line.

ghost use Rattle.std.specs.Prelude.{◌≡◌, ◌≤◌, ◌^◌, length, vec_len};
ghost use Rattle.std.specs.Arc.{arc_value};
ghost use Rattle.canvas_wire.specs.Replies.{IsNamed, line_of, said};
ghost use Rattle.canvas_session.specs.Response.{bare, refusal_of};
ghost use Rattle.canvas_session.specs.Tail.{tail_bytes};

use canvas_wire::{Reply, ReplyLine, write_reply};
use std::alloc::Global;
use std::marker::Model;
use std::sync::Arc;

// The bytes that follow a line, if there are any: shared with the board where it keeps them.
#[derive(Drop)]
enum Tail {
    Nothing,
    Shared(Arc<Vec<u8>, Global>),
}

/// What is answered to one line: a reply, and the bytes that follow its line.
#[derive(Drop)]
pub struct Answer {
    reply: Reply,
    body: Tail,
}

impl Model for Answer {
    ghost use Rattle.std.specs.Prelude.{◌≤◌, ◌^◌, length};
    ghost use Rattle.canvas_wire.specs.Replies.{IsNamed, said};
    ghost use Rattle.canvas_session.specs.Response.{Response};
    ghost use Rattle.canvas_session.specs.Tail.{tail_bytes};

    ghost Value = { Response };

    ghost view = { λ a. record { reply = said a.reply; follows = tail_bytes a.body } };

    ghost invariant = { λ a. IsNamed a.reply × (length (tail_bytes a.body) ≤ 2 ^ 40) };
}

impl Answer {
    /// An answer whose line is followed by bytes, which others may hold too.
    pub(crate) fn new(reply: Reply, bytes: Arc<Vec<u8>, Global>) -> Answer
        requires named { IsNamed reply }
        requires small { vec_len (arc_value bytes) ≤ 2 ^ 40 }
        ensures { result ≡ record { reply = said reply; follows = (arc_value bytes).items } }
    {
        let body = Tail::Shared(bytes);
        Answer { reply, body }
    }

    /// An answer without a body.
    pub(crate) fn bare(reply: Reply) -> Answer
        requires { IsNamed reply }
        ensures { result ≡ bare (said reply) }
    {
        Answer {
            reply,
            body: Tail::Nothing,
        }
    }

    /// The line of the reply, its LF included.
    pub fn line(&self) -> ReplyLine
        ensures { result.bytes ≡ line_of self.now.reply }
    {
        write_reply(&self.reply)
    }

    /// The number of the refusal that it is, if it is one.
    pub fn refusal(&self) -> Option<u16>
        ensures { result ≡ refusal_of self.now.reply }
    {
        refusal_of(&self.reply)
    }

    /// The bytes that follow the line.
    pub fn body(&self) -> &[u8]
        ensures bytes { result.now ≡ self.now.follows }
        ensures small { length result.now ≤ 2 ^ 40 }
    {
        bytes_of(&self.body)
    }
}

// The number of the refusal that a reply is, if it is one.
fn refusal_of(reply: &Reply) -> Option<u16>
    ensures { result ≡ refusal_of (said reply.now) }
{
    match reply {
        Reply::Created { .. } => None,
        Reply::Edited { .. } => None,
        Reply::Body { .. } => None,
        Reply::Point { .. } => None,
        Reply::Refused { code, .. } => Some(*code),
        Reply::Behind { .. } => Some(17),
    }
}

// The bytes that follow a line.
fn bytes_of(tail: &Tail) -> &[u8]
    ensures { result.now ≡ tail_bytes tail.now }
{
    match tail {
        Tail::Nothing => &[],
        Tail::Shared(bytes) => bytes.as_slice(),
    }
}
