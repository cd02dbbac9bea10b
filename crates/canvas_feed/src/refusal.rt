//! Why a follower is refused.
ghost use Rattle.std.specs.Prelude.{◌≡◌, ◌++◌, decimal, codes, OnOk, IfOk};
ghost use Rattle.canvas_feed.specs.Refusals.{generations_text, judged, refusal_line, words_of};

use crate::line::push_number;
use crate::request::FeedRequest;
use std::alloc::{AllocError, Global};

/// Why a follower is refused.
#[derive(Clone, Copy, Debug, Drop, PartialEq, Eq)]
pub enum Refusal {
    /// It has more versions than are kept.
    Beyond { since: u64, kept: u64 },
    /// The generation that it names has ended.
    Over { asked: u32, served: u32 },
    /// The generation that it names has not begun.
    Early { asked: u32, served: u32 },
    /// Its line is no request.
    NoRequest,
    /// There are as many followers as may be.
    Full,
}

impl FeedRequest {
    /// Whether the request is taken where this generation is served and so many versions are kept:
    /// the generation is judged first.
    pub fn judge(&self, served: u32, kept: u64) -> Result<(), Refusal>
        ensures { result ≡ judged self.now served kept }
    {
        if let Some(asked) = self.generation {
            if asked < served {
                return Err(Refusal::Over { asked, served });
            }
            if served < asked {
                return Err(Refusal::Early { asked, served });
            }
        }
        if kept < u64::from(self.since) {
            return Err(Refusal::Beyond {
                since: u64::from(self.since),
                kept,
            });
        }
        Ok(())
    }
}

impl Refusal {
    /// The line that says so, its LF included.
    #[tactic(auto, unfolding(crate::specs::Refusals::refusal_line))]
    pub fn line(&self, alloc: Global) -> Result<Vec<u8>, AllocError>
        ensures { IfOk result (λ line. line.items ≡ refusal_line self.now) }
    {
        let mut line = Vec::from_slice(alloc, b"{\"error\":\"")?;
        push_words(&mut line, self)?;
        line.extend_from_slice(b"\",\"ok\":false}\n")?;
        Ok(line)
    }
}

// Appends the words of a refusal, as they stand in JSON.
#[tactic(auto, unfolding(crate::specs::Refusals::words_of))]
fn push_words(line: &mut Vec<u8>, refusal: &Refusal) -> Result<(), AllocError>
    ensures { OnOk result (line.new.items ≡ line.old.items ++ words_of refusal.now) }
{
    match refusal {
        Refusal::Beyond { since, kept } => push_beyond(line, *since, *kept),
        Refusal::Over { asked, served } => {
            push_generations(
                line,
                u64::from(*asked),
                b" is over: generation ",
                u64::from(*served),
            )
        }
        Refusal::Early { asked, served } => {
            push_generations(
                line,
                u64::from(*asked),
                b" is not there yet: generation ",
                u64::from(*served),
            )
        }
        Refusal::NoRequest => line.extend_from_slice(
            b"this is no request of a feed: one line {\\\"since\\\":N} is wanted",
        ),
        Refusal::Full => line.extend_from_slice(b"all 256 feeds are taken"),
    }
}

fn push_beyond(line: &mut Vec<u8>, since: u64, kept: u64) -> Result<(), AllocError>
    ensures { OnOk result (line.new.items
        ≡ line.old.items
        ++ (codes "since " ++ decimal since ++ codes " is beyond the history: " ++ decimal kept
        ++ codes " edits are kept")) }
{
    line.extend_from_slice(b"since ")?;
    push_number(line, since)?;
    line.extend_from_slice(b" is beyond the history: ")?;
    push_number(line, kept)?;
    line.extend_from_slice(b" edits are kept")
}

// Appends what is said of two generations.
#[tactic(auto, unfolding(crate::specs::Refusals::generations_text))]
fn push_generations(
    line: &mut Vec<u8>,
    asked: u64,
    between: &[u8],
    served: u64,
) -> Result<(), AllocError>
    ensures { OnOk result
        (line.new.items ≡ line.old.items ++ generations_text asked between.now served) }
{
    line.extend_from_slice(b"generation ")?;
    push_number(line, asked)?;
    line.extend_from_slice(between)?;
    push_served(line, served)
}

// Appends which generation is served.
fn push_served(line: &mut Vec<u8>, served: u64) -> Result<(), AllocError>
    ensures { OnOk result
        (line.new.items ≡ line.old.items ++ (decimal served ++ codes " is served")) }
{
    push_number(line, served)?;
    line.extend_from_slice(b" is served")
}
