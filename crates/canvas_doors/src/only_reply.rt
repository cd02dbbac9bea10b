//! The only reply of a connection that gets no session.

ghost use Rattle.std.specs.Prelude.{◌≡◌, IsTrue};
ghost use Rattle.std.specs.Io.KnownBytes.{Appends};
ghost use Rattle.canvas_wire.specs.Replies.{line_of, refused};

use crate::doors::Stream;
use canvas_code::name_of;
use canvas_wire::{Reply, ReplyLine, write_reply};
use std::io::Write;

/// Tells a client that no seat is free. This reply names no version, so no gate is asked.
pub fn refuse(stream: &Stream) {
    let mut writer = stream;
    // A client that is gone needs no reply.
    let _ = tell(&mut writer, &no_seats());
}

/// Tells a client that what it sends is no session, and says whether the reply went out. It names
/// no version.
pub fn refuse_foreign<W: Write>(writer: &mut W) -> bool
    ensures { IsTrue result
        → Appends (W.contents writer.old) (W.contents writer.new) (line_of (refused 50)) }
{
    tell(writer, &no_json())
}

// Writes the only reply of a connection, and says whether it went out.
fn tell<W: Write>(writer: &mut W, line: &ReplyLine) -> bool
    ensures { IsTrue result
        → Appends (W.contents writer.old) (W.contents writer.new) line.now.bytes }
{
    writer.write_all(line.as_str().as_bytes()).is_ok()
}

// The reply to what is no session: its first line is no JSON.
fn no_json() -> ReplyLine
    ensures { result.bytes ≡ line_of (refused 50) }
{
    write_reply(&Reply::Refused {
        code: 50,
        name: name_of(50),
    })
}

// The reply where all seats are taken.
fn no_seats() -> ReplyLine
    ensures { result.bytes ≡ line_of (refused 19) }
{
    write_reply(&Reply::Refused {
        code: 19,
        name: name_of(19),
    })
}
