//! The answers to requests.
ghost use Rattle.std.specs.Prelude.{◌≡◌, ◌++◌, IfOk, OnOk};
ghost use Rattle.canvas_status.specs.Answers.{answer_text, body_of, has_body, head_text, outcome_at, outcome_of, reason_of, status_line, type_field};

use crate::head::{Head, Page, Wanted};
use crate::health::Health;
use crate::page::write_page;
use crate::status::Status;
use crate::text::{push_number, push_text};
use canvas_code::OutOfMemory;
use std::alloc::Global;

/// What a server tells of itself at a moment.
#[derive(Clone, Copy, Debug)]
pub struct Report {
    pub status: Status,
    pub health: Health,
}

/// How a request ends.
#[derive(Clone, Copy, Debug, PartialEq, Eq)]
pub(crate) enum Outcome {
    Found(Page),
    Unhealthy,
    BadRequest,
    NotFound,
    NotAllowed,
    TooLong,
}

/// The answer to the first bytes of a connection after which no more come: a whole HTTP/1.1
/// response, behind which the connection is to be closed. Bytes that are no request, also an
/// unfinished one, get an answer that says so.
pub fn answer_of(alloc: Global, head: Head, report: &Report) -> Result<Vec<u8>, OutOfMemory>
    ensures { IfOk result (λ bytes. bytes.items ≡ answer_text head report.now) }
{
    let outcome = outcome_of(head, report.health);
    let mut body = Vec::new(alloc);
    write_body(&mut body, outcome, report)?;
    let mut out = Vec::new(alloc);
    write_head(&mut out, outcome, body.len())?;
    if has_body(head) {
        out.extend_from_slice(&body)?;
    }
    Ok(out)
}

// How a request ends.
fn outcome_of(head: Head, health: Health) -> Outcome
    ensures { result ≡ outcome_of head health }
{
    match head {
        Head::Whole(Wanted::Get(page)) => outcome_at(page, health),
        Head::Whole(Wanted::Head(page)) => outcome_at(page, health),
        Head::Whole(Wanted::Other) => Outcome::NotAllowed,
        Head::Whole(Wanted::Elsewhere) => Outcome::NotFound,
        Head::Whole(Wanted::HeadElsewhere) => Outcome::NotFound,
        Head::Unfinished => Outcome::BadRequest,
        Head::Bad => Outcome::BadRequest,
        Head::TooLong => Outcome::TooLong,
    }
}

// How a request for a page ends.
fn outcome_at(page: Page, health: Health) -> Outcome
    ensures { result ≡ outcome_at page health }
{
    match (page, health) {
        (Page::Metrics, _) => Outcome::Found(Page::Metrics),
        (Page::Health, Health::Well) => Outcome::Found(Page::Health),
        (Page::Health, Health::Late) => Outcome::Unhealthy,
        (Page::Health, Health::Lost) => Outcome::Unhealthy,
    }
}

// Whether the body follows the head of the answer: not where only the head was asked for.
fn has_body(head: Head) -> bool
    ensures { result ≡ has_body head }
{
    match head {
        Head::Whole(Wanted::Head(_)) => false,
        Head::Whole(Wanted::HeadElsewhere) => false,
        Head::Whole(Wanted::Get(_)) => true,
        Head::Whole(Wanted::Other) => true,
        Head::Whole(Wanted::Elsewhere) => true,
        Head::Unfinished => true,
        Head::Bad => true,
        Head::TooLong => true,
    }
}

// Appends the body of an answer.
fn write_body(out: &mut Vec<u8>, outcome: Outcome, report: &Report) -> Result<(), OutOfMemory>
    ensures { OnOk result (out.new.items ≡ out.old.items ++ body_of outcome report.now) }
{
    match outcome {
        Outcome::Found(Page::Health) => push_text(out, "ok\n"),
        Outcome::Found(Page::Metrics) => write_page(out, &report.status),
        Outcome::Unhealthy => push_text(out, reason_of(report.health)),
        Outcome::BadRequest => push_text(out, "this is no request\n"),
        Outcome::NotFound => push_text(out, "there are /healthz and /metrics\n"),
        Outcome::NotAllowed => push_text(out, "pages are only read here\n"),
        Outcome::TooLong => push_text(out, "the head is too long\n"),
    }
}

// Why a document is not kept as it should be, in words.
fn reason_of(health: Health) -> &'static str
    ensures { result.now ≡ reason_of health }
{
    match health {
        Health::Well => "ok\n",
        Health::Late => "an edit has waited for over 2 seconds to be kept\n",
        Health::Lost => "the journal is lost: no more edits are kept\n",
    }
}

// Appends the head of an answer with a body of so many bytes.
#[tactic(auto, unfolding(crate::specs::Answers::head_text))]
fn write_head(out: &mut Vec<u8>, outcome: Outcome, count: usize) -> Result<(), OutOfMemory>
    ensures { OnOk result (out.new.items ≡ out.old.items ++ head_text outcome count) }
{
    push_text(out, status_line(outcome))?;
    push_text(out, type_field(outcome))?;
    push_text(out, "Content-Length: ")?;
    push_number(out, count as u64)?;
    push_text(
        out,
        "\r\nCache-Control: no-store\r\nConnection: close\r\n\r\n",
    )
}

// The first line of an answer.
#[tactic(auto, unfolding(crate::specs::Answers::status_line))]
fn status_line(outcome: Outcome) -> &'static str
    ensures { result.now ≡ status_line outcome }
{
    match outcome {
        Outcome::Found(_) => "HTTP/1.1 200 OK\r\n",
        Outcome::Unhealthy => "HTTP/1.1 503 Service Unavailable\r\n",
        Outcome::BadRequest => "HTTP/1.1 400 Bad Request\r\n",
        Outcome::NotFound => "HTTP/1.1 404 Not Found\r\n",
        Outcome::NotAllowed => "HTTP/1.1 405 Method Not Allowed\r\nAllow: GET, HEAD\r\n",
        Outcome::TooLong => "HTTP/1.1 431 Request Header Fields Too Large\r\n",
    }
}

// The field that tells what the body is.
#[tactic(auto, unfolding(crate::specs::Answers::type_field))]
fn type_field(outcome: Outcome) -> &'static str
    ensures { result.now ≡ type_field outcome }
{
    match outcome {
        Outcome::Found(Page::Metrics) =>
            "Content-Type: text/plain; version=0.0.4; charset=utf-8\r\n",
        Outcome::Found(Page::Health) => "Content-Type: text/plain; charset=utf-8\r\n",
        Outcome::Unhealthy => "Content-Type: text/plain; charset=utf-8\r\n",
        Outcome::BadRequest => "Content-Type: text/plain; charset=utf-8\r\n",
        Outcome::NotFound => "Content-Type: text/plain; charset=utf-8\r\n",
        Outcome::NotAllowed => "Content-Type: text/plain; charset=utf-8\r\n",
        Outcome::TooLong => "Content-Type: text/plain; charset=utf-8\r\n",
    }
}
