//! What a server tells of itself: answers by hand.

use crate::asserts::{equal, holds};
use canvas_status::{
    Counts, Head, Health, Lookback, Report, Verb, answer_of, read_head, write_page,
};
use std::alloc::Global;
use std::process::Abort;

// The counts of two answers, one of which was a refusal.
fn two_answers() -> Counts {
    let counts = Counts::new();
    counts.answer(Verb::Pose, None);
    counts.answer(Verb::Delete, Some(2));
    counts
}

// Whether a text has a line.
fn has_line(text: &[u8], line: &str) -> bool {
    text.split(|byte| *byte == b'\n')
        .any(|found| found == line.as_bytes())
}

#[test]
fn a_page_has_the_counts(rt: HostRuntime) {
    let status = two_answers().status("1.2.3", 7, 62);
    let mut page = Vec::new(rt.alloc());
    write_page(&mut page, &status).expect(&rt, "memory");
    for line in &[
        "canvas_build_info{version=\"1.2.3\"} 1",
        "# TYPE canvas_uptime_seconds gauge",
        "canvas_uptime_seconds 7",
        "canvas_requests_total{verb=\"pose\"} 1",
        "canvas_requests_total{verb=\"tile\"} 0",
        "canvas_refusals_total{name=\"NoSuchShape\"} 1",
        "canvas_sync_seconds_total 0.000000",
    ] {
        holds(&rt, line, has_line(&page, line));
    }
}

// Asserts with which line a request of health is answered first, and with which last.
fn check_health<H: Abort>(rt: &H, alloc: Global, health: Health, first: &str, last: &str) {
    let report = Report {
        status: two_answers().status("", 0, 1),
        health,
    };
    let head = read_head(b"GET /healthz HTTP/1.1\r\n\r\n");
    let answer = answer_of(alloc, head, &report).expect(rt, "memory");
    holds(rt, first, answer.starts_with(first.as_bytes()));
    holds(rt, last, answer.ends_with(last.as_bytes()));
}

#[test]
fn health_is_answered(rt: HostRuntime) {
    let alloc = rt.alloc();
    check_health(
        &rt,
        alloc,
        Health::Well,
        "HTTP/1.1 200 OK\r\n",
        "\r\n\r\nok\n",
    );
    check_health(
        &rt,
        alloc,
        Health::Late,
        "HTTP/1.1 503 ",
        "\r\n\r\nan edit has waited for over 2 seconds to be kept\n",
    );
    check_health(
        &rt,
        alloc,
        Health::Lost,
        "HTTP/1.1 503 ",
        "\r\n\r\nthe journal is lost: no more edits are kept\n",
    );
}

#[test]
fn a_version_is_late_after_eight_looks(rt: HostRuntime) {
    let mut lookback = Lookback::new();
    for _ in 0..8u32 {
        equal(&rt, "before", &lookback.health(4, false), &Health::Well);
        lookback.note(5);
    }
    equal(&rt, "after", &lookback.health(4, false), &Health::Late);
    equal(&rt, "kept", &lookback.health(5, false), &Health::Well);
    equal(&rt, "lost", &lookback.health(5, true), &Health::Lost);
}

#[test]
fn an_unfinished_head_is_waited_for(rt: HostRuntime) {
    equal(&rt, "a part", &read_head(b"GET /metr"), &Head::Unfinished);
    equal(&rt, "no request", &read_head(b"\0"), &Head::Bad);
}
