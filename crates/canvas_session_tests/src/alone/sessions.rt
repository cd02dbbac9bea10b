//! Sessions with what no program has: an odd number of workers, few versions, a line alone. Others are in `tests/sessions/`.

use crate::alone::serving::{answers, board, check};
use crate::asserts::holds;
use canvas_doc::Document;
use canvas_session::answer_line;
use std::alloc::Global;
use std::process::Abort;
use std::sync::Wait;
use std::thread::Threads;

pub(crate) const RED: &[u8] =
    b"{\"verb\":\"create\",\"shape\":{\"kind\":\"rect\",\"w\":2,\"h\":1,\"fill\":\"ff0000\"}}\n{\"verb\":\"patch\",\"x\":0,\"y\":0,\"w\":3,\"h\":1}\n";

pub(crate) const RED_ANSWERS: &[u8] =
    b"{\"body\":0,\"id\":1,\"ok\":true,\"version\":1}\n{\"body\":20,\"ok\":true,\"version\":1}\nP6\n3 1\n255\n\xff\x00\x00\xff\x00\x00\xff\xff\xff";

const BAD_WORKERS: &[u8] = b"{\"body\":0,\"code\":31,\"name\":\"BadWorkers\",\"ok\":false}\n";

#[test]
fn a_red_rectangle_is_painted(rt: HostRuntime) {
    check(&rt, rt.alloc(), RED, RED_ANSWERS, 2);
}

#[test]
fn a_picture_by_seventeen_workers(rt: HostRuntime) {
    let alloc = rt.alloc();
    let board = board(&rt, alloc, Document::empty(alloc), 1_000_000);
    let tile = b"{\"verb\":\"tile\",\"col\":0,\"row\":0}\n";
    let is_refused = answers(&rt, alloc, board, 17, tile, BAD_WORKERS);
    holds(&rt, "seventeen workers", is_refused);
}

#[test]
fn a_line_is_answered_alone(rt: HostRuntime) {
    let line = b"{\"verb\":\"tile\",\"col\":0,\"row\":0}";
    let reply = "{\"body\":196623,\"ok\":true,\"version\":0}\n";
    let is_answered = is_answered(&rt, rt.alloc(), line, reply, 196_623);
    holds(&rt, "a tile", is_answered);
}

// Whether a line on an empty document has this reply, and a body of so many bytes.
fn is_answered<H: Threads + Wait + Sync + Abort>(
    rt: &H,
    alloc: Global,
    line: &[u8],
    reply: &str,
    bytes: usize,
) -> bool {
    let mut board = board(rt, alloc, Document::empty(alloc), 1_000_000);
    let answer = answer_line(rt, alloc, &mut board, 1, line);
    answer.line().as_str() == reply && answer.body().len() == bytes
}

#[test]
fn versions_have_a_limit(rt: HostRuntime) {
    let alloc = rt.alloc();
    let board = board(&rt, alloc, Document::empty(alloc), 2);
    let requests =
        b"{\"verb\":\"respace\",\"parent\":null}\n{\"verb\":\"respace\",\"parent\":1}\n{\"verb\":\"respace\",\"parent\":null}\n{\"verb\":\"respace\",\"parent\":null}\n{\"verb\":\"respace\",\"parent\":1}\n";
    let replies =
        b"{\"body\":0,\"ok\":true,\"version\":1}\n{\"body\":0,\"code\":3,\"name\":\"NoSuchParent\",\"ok\":false}\n{\"body\":0,\"ok\":true,\"version\":2}\n{\"body\":0,\"code\":16,\"name\":\"VersionsSpent\",\"ok\":false}\n{\"body\":0,\"code\":16,\"name\":\"VersionsSpent\",\"ok\":false}\n";
    let is_answered = answers(&rt, alloc, board, 1, requests, replies);
    holds(&rt, "two versions", is_answered);
}
