//! Sessions over readers and writers that are slow, fail, or have no end.

use crate::alone::serving::{front, is_fault, lines_in, served};
use crate::alone::sessions::{RED, RED_ANSWERS};
use crate::asserts::{equal, holds, holds_at};
use crate::fakes::{Drip, Flushed, Narrow, Same};
use canvas_session::Cause;
use std::alloc::Global;
use std::process::Abort;
use std::sync::Wait;
use std::thread::Threads;

const LINE_TOO_LONG: &[u8] = b"{\"body\":0,\"code\":70,\"name\":\"LineTooLong\",\"ok\":false}\n";

#[test]
fn a_writer_that_fails(rt: HostRuntime) {
    let output = RED_ANSWERS;
    equal(&rt, "bytes", &output.len(), &94);
    for room in 0..94usize {
        let is_full = fills(&rt, rt.alloc(), RED, output, room);
        holds_at(&rt, "room for", room as u64, is_full);
    }
}

// Whether a session ends where its writer holds so many bytes of the output; the first line's answer has 40.
fn fills<H: Threads + Wait + Sync + Abort>(
    rt: &H,
    alloc: Global,
    input: &[u8],
    output: &[u8],
    room: usize,
) -> bool {
    let mut reader = input;
    let mut writer = Narrow {
        out: Vec::new(alloc),
        step: 10,
        room,
    };
    let served = served(rt, alloc, &mut reader, &mut writer);
    let answered = (room >= 40) as u64;
    is_fault(&served, Cause::WriteFault, 72, answered, room as u64)
        && writer.out.as_slice() == front(output, room)
}

#[test]
fn a_writer_that_takes_nothing(rt: HostRuntime) {
    let mut reader = RED;
    let mut writer = Narrow {
        out: Vec::new(rt.alloc()),
        step: 0,
        room: 100,
    };
    let served = served(&rt, rt.alloc(), &mut reader, &mut writer);
    let is_ended = is_fault(&served, Cause::WriteFault, 72, 0, 0);
    holds(&rt, "nothing is taken", is_ended);
}

#[test]
fn a_writer_that_cannot_be_flushed(rt: HostRuntime) {
    holds(&rt, "unread", stays_unread(&rt, rt.alloc(), RED));
}

// Whether a session with no flush left ends before it reads.
fn stays_unread<H: Threads + Wait + Sync + Abort>(rt: &H, alloc: Global, input: &[u8]) -> bool {
    let mut reader = input;
    let mut writer = Flushed {
        out: Vec::new(alloc),
        flushes_left: 0,
    };
    let served = served(rt, alloc, &mut reader, &mut writer);
    is_fault(&served, Cause::WriteFault, 72, 0, 0) && reader == input
}

// What is written where so many lines are answered; the first line's answer has 40 bytes.
fn answers_to(output: &[u8], lines: usize) -> &[u8] {
    match lines {
        0 => b"",
        1 => front(output, 40),
        _ => output,
    }
}

#[test]
fn a_reader_that_fails(rt: HostRuntime) {
    let input = RED;
    for reads in 0..=input.len() {
        let is_ended = ends_unread(&rt, rt.alloc(), input, RED_ANSWERS, reads);
        holds_at(&rt, "failed after", reads as u64, is_ended);
    }
}

// Whether a session whose reader fails after so many bytes answers the lines before.
fn ends_unread<H: Threads + Wait + Sync + Abort>(
    rt: &H,
    alloc: Global,
    input: &[u8],
    output: &[u8],
    reads: usize,
) -> bool {
    let mut reader = Drip {
        rest: input,
        reads_left: reads,
    };
    let mut out = Vec::new(alloc);
    let served = served(rt, alloc, &mut reader, &mut out);
    let lines = lines_in(front(input, reads));
    is_fault(
        &served,
        Cause::ReadFault,
        71,
        lines as u64,
        out.len() as u64,
    ) && out.as_slice() == answers_to(output, lines)
}

#[test]
fn a_line_that_is_too_long(rt: HostRuntime) {
    let mut reader = Same {
        byte: b' ',
        left: usize::MAX,
    };
    let mut out = Vec::new(rt.alloc());
    let served = served(&rt, rt.alloc(), &mut reader, &mut out);
    let is_ended = is_fault(&served, Cause::LineTooLong, 70, 0, out.len() as u64);
    holds(&rt, "ended", is_ended);
    holds(&rt, "the reply", out.as_slice() == LINE_TOO_LONG);
    let read = usize::MAX.saturating_sub(reader.left);
    equal(&rt, "bytes read", &read, &65_537);
}

// The first flush comes before anything is read, the second once all lines that were read have their answers.
#[test]
fn a_writer_whose_second_flush_fails(rt: HostRuntime) {
    let mut reader = RED;
    let mut writer = Flushed {
        out: Vec::new(rt.alloc()),
        flushes_left: 1,
    };
    let served = served(&rt, rt.alloc(), &mut reader, &mut writer);
    let is_ended = is_fault(&served, Cause::WriteFault, 72, 2, 94);
    holds(&rt, "ended", is_ended);
    holds(&rt, "the answers", writer.out.as_slice() == RED_ANSWERS);
}

// The closing reply to a line that is too long is flushed too.
#[test]
fn a_writer_whose_last_flush_fails(rt: HostRuntime) {
    for (flushes, cause, code, written) in &[
        (0usize, Cause::WriteFault, 72, 0),
        (1, Cause::WriteFault, 72, 53),
        (2, Cause::LineTooLong, 70, 53),
    ] {
        let is_ended = flushes_out(&rt, rt.alloc(), *flushes, *cause, *code, *written);
        holds_at(&rt, "flushes", *flushes as u64, is_ended);
    }
}

// Whether a session over a line that is too long, with so many flushes left, has such an end.
fn flushes_out<H: Threads + Wait + Sync + Abort>(
    rt: &H,
    alloc: Global,
    flushes_left: usize,
    cause: Cause,
    code: u16,
    written: u64,
) -> bool {
    let mut reader = Same {
        byte: b' ',
        left: 70_000,
    };
    let mut writer = Flushed {
        out: Vec::new(alloc),
        flushes_left,
    };
    let served = served(rt, alloc, &mut reader, &mut writer);
    is_fault(&served, cause, code, 0, written) && writer.out.len() as u64 == written
}
