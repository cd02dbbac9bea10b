//! Who is handed edits, and what comes back.
ghost use Rattle.std.specs.Prelude.{◌≡◌, IfSome, IsTrue};
ghost use Rattle.canvas_wire.specs.Replies.{IsNamed, line_of, refused, said};
ghost use Rattle.canvas_follow.specs.Outcomes.{Says};

use canvas_code::name_of;
use canvas_wire::{Reply, write_reply};
use std::str;
use std::sync::Wait;

/// What a leader's reply to an edit tells.
#[derive(Clone, Copy, Debug, Drop, PartialEq, Eq)]
pub enum Outcome {
    /// The edit made this version, and a shape with this id, if it made one.
    Made { id: Option<u32>, version: u64 },
    /// The edit was refused, by this number.
    Refused { code: u16 },
}

/// What became of an edit that was to be handed on.
#[derive(Clone, Copy, Debug, Drop, PartialEq, Eq)]
pub enum Handed {
    /// The leader has answered.
    Answered(Outcome),
    /// The leader has not got it.
    Unsent,
    /// The leader may have got it, and has not answered.
    Lost,
}

/// Who decides of the edits that sessions of a follower ask for.
pub trait Leader {
    /// Hands the line of an edit on, which stands without its LF, and waits for what becomes of it.
    fn hand_on<R: Wait>(&self, rt: &R, text: &[u8]) -> Handed;
}

/// What a line, with its LF, tells as the reply to an edit: nothing where it is none.
pub fn read_outcome(line: &[u8]) -> Option<Outcome>
    ensures { IfSome result (Says line.now) }
{
    let outcome = outcome_named(str::from_utf8(line).ok()?)?;
    if is_said(line, outcome) {
        Some(outcome)
    } else {
        None
    }
}

// What the numbers in a text tell, which need not be a whole reply.
fn outcome_named(text: &str) -> Option<Outcome> {
    if let Some((code, _)) = between(text, "\"code\":", ",") {
        let code = code.parse::<u16>().ok()?;
        return Some(Outcome::Refused { code });
    }
    let (version, _) = between(text, "\"version\":", "}")?;
    let version = version.parse::<u64>().ok()?;
    let id = match between(text, "\"id\":", ",") {
        Some((id, _)) => Some(id.parse::<u32>().ok()?),
        None => None,
    };
    Some(Outcome::Made { id, version })
}

// What stands between two texts, and what stands behind.
fn between<'a>(text: &'a str, before: &str, behind: &str) -> Option<(&'a str, &'a str)> {
    let (_, rest) = text.split_once(before)?;
    rest.split_once(behind)
}

// Whether a line is the reply that tells this.
fn is_said(line: &[u8], outcome: Outcome) -> bool
    ensures { IsTrue result → Says line.now outcome }
{
    match outcome {
        Outcome::Made {
            id: Some(id),
            version,
        } => is_written(line, &Reply::Created { id, version }),
        Outcome::Made { id: None, version } => is_written(line, &Reply::Edited { version }),
        Outcome::Refused { code } => is_written(line, &refusal(code)),
    }
}

// Whether a line is that of a reply.
fn is_written(line: &[u8], reply: &Reply) -> bool
    requires { IsNamed reply.now }
    ensures { IsTrue result → line.now ≡ line_of (said reply.now) }
{
    line == write_reply(reply).as_str().as_bytes()
}

// The reply to an edit that was refused.
fn refusal(code: u16) -> Reply
    ensures named { IsNamed result }
    ensures said { said result ≡ refused code }
{
    Reply::Refused {
        code,
        name: name_of(code),
    }
}
