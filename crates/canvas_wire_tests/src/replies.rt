//! Replies that no session of a program gets by its requests alone. All others are in `tests/sessions/`.
ghost use Rattle.canvas_wire.specs.Replies.{IsNamed};

use crate::asserts::reads;
use canvas_code::name_of;
use canvas_wire::{Reply, write_reply};
use std::process::Abort;

// A reply is written as this line.
fn assert_reply(rt: &impl Abort, reply: &Reply, wanted: &str)
    requires { IsNamed reply.now }
{
    reads(rt, "a reply", write_reply(reply).as_str(), wanted);
}

#[test]
fn replies_that_no_request_gets(rt: HostRuntime) {
    let line = "{\"body\":0,\"code\":1,\"name\":\"OutOfMemory\",\"ok\":false}\n";
    assert_reply(&rt, &refusal(1), line);
    let line = "{\"body\":0,\"code\":73,\"name\":\"TooManyRequests\",\"ok\":false}\n";
    assert_reply(&rt, &refusal(73), line);
    let behind = Reply::Behind {
        desk: 3,
        front: u64::MAX,
    };
    let line =
        "{\"body\":0,\"code\":17,\"desk\":3,\"front\":18446744073709551615,\"name\":\"Behind\",\"ok\":false}\n";
    assert_reply(&rt, &behind, line);
}

fn refusal(code: u16) -> Reply
    ensures { IsNamed result }
{
    Reply::Refused {
        code,
        name: name_of(code),
    }
}
