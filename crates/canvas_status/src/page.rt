//! The page of a server's numbers.
ghost use Rattle.std.specs.Prelude.{◌≡◌, ◌++◌, OnOk};
ghost use Rattle.std.specs.List.{flat_map};
ghost use Rattle.canvas_status.specs.Page.{family_head, family_text, page_text, refusal_sample, refusal_samples, request_sample, request_samples, samples_of};

use crate::family::{FAMILIES, Family};
use crate::followers::{followers_at, lag_at};
use crate::status::{CODES, Status};
use crate::text::{push_labelled, push_plain, push_text, push_time};
use crate::verb::{VERBS, Verb};
use canvas_code::{OutOfMemory, name_of};

/// Appends the page of a status, in the text format of Prometheus, 0.0.4.
#[tactic(auto, unfolding(crate::specs::Page::page_text))]
pub fn write_page(out: &mut Vec<u8>, status: &Status) -> Result<(), OutOfMemory>
    ensures { OnOk result (out.new.items ≡ out.old.items ++ page_text status.now) }
{
    write_families(out, &FAMILIES, status)
}

// Appends families.
fn write_families(
    out: &mut Vec<u8>,
    families: &[Family],
    status: &Status,
) -> Result<(), OutOfMemory>
    ensures { OnOk result
        (out.new.items ≡ out.old.items ++ flat_map (family_text status.now) families.now) }
{
    for family in families {
        write_family(out, *family, status)?;
    }
    Ok(())
}

// Appends a family: what it is, and its samples.
#[tactic(auto, unfolding(crate::specs::Page::family_text))]
fn write_family(out: &mut Vec<u8>, family: Family, status: &Status) -> Result<(), OutOfMemory>
    ensures { OnOk result (out.new.items ≡ out.old.items ++ family_text status.now family) }
{
    write_head(out, family)?;
    write_samples(out, family, status)
}

// Appends what a family is.
#[tactic(auto, unfolding(crate::specs::Page::family_head))]
fn write_head(out: &mut Vec<u8>, family: Family) -> Result<(), OutOfMemory>
    ensures { OnOk result (out.new.items ≡ out.old.items ++ family_head family) }
{
    push_text(out, "# HELP ")?;
    push_text(out, family.name())?;
    push_text(out, " ")?;
    push_text(out, family.help())?;
    push_text(out, "\n# TYPE ")?;
    push_text(out, family.name())?;
    push_text(out, " ")?;
    push_text(out, family.kind())?;
    push_text(out, "\n")
}

// Appends the samples of a family.
#[tactic(auto, unfolding(crate::specs::Page::samples_of))]
fn write_samples(out: &mut Vec<u8>, family: Family, status: &Status) -> Result<(), OutOfMemory>
    ensures { OnOk result (out.new.items ≡ out.old.items ++ samples_of status.now family) }
{
    let name = family.name();
    match family {
        Family::Build => push_labelled(out, name, "version", status.program, 1),
        Family::Uptime => push_plain(out, name, status.seconds),
        Family::Generation => push_plain(out, name, u64::from(status.generation)),
        Family::Version => push_plain(out, name, status.version),
        Family::Kept => push_plain(out, name, status.kept),
        Family::Seats => push_plain(out, name, u64::from(status.seats)),
        Family::OpenSessions => push_plain(out, name, status.open_sessions),
        Family::Sessions => push_plain(out, name, status.sessions),
        Family::RefusedConnections => push_plain(out, name, status.refused_connections),
        Family::MissedConnections => push_plain(out, name, status.missed_connections),
        Family::Followers => push_plain(out, name, followers_at(&status.followers)),
        Family::FollowerLag => push_plain(out, name, lag_at(&status.followers, status.kept)),
        Family::Requests => write_requests(out, name, &status.requests),
        Family::Refusals => write_refusals(out, name, &status.refusals),
        Family::SentBytes => push_plain(out, name, status.sent_bytes),
        Family::PaintedPictures => push_plain(out, name, status.painted_pictures),
        Family::KeptPictures => push_plain(out, name, status.kept_pictures),
        Family::Syncs => push_plain(out, name, status.syncs),
        Family::SyncSeconds => push_time(out, name, status.sync_micros),
    }
}

// Appends a sample for each verb.
#[tactic(auto, unfolding(crate::specs::Page::request_samples))]
fn write_requests(out: &mut Vec<u8>, name: &str, requests: &[u64; 12]) -> Result<(), OutOfMemory>
    ensures { OnOk result (out.new.items ≡ out.old.items ++ request_samples name.now requests.now) }
{
    write_verbs(out, name, requests, &VERBS)
}

// Appends a sample for each of these verbs.
fn write_verbs(
    out: &mut Vec<u8>,
    name: &str,
    requests: &[u64; 12],
    verbs: &[Verb],
) -> Result<(), OutOfMemory>
    ensures { OnOk result (out.new.items
        ≡ out.old.items ++ flat_map (request_sample name.now requests.now) verbs.now) }
{
    for verb in verbs {
        write_request(out, name, requests, *verb)?;
    }
    Ok(())
}

// Appends the sample of a verb.
#[tactic(auto, unfolding(crate::specs::Page::request_sample))]
fn write_request(
    out: &mut Vec<u8>,
    name: &str,
    requests: &[u64; 12],
    verb: Verb,
) -> Result<(), OutOfMemory>
    ensures { OnOk result
        (out.new.items ≡ out.old.items ++ request_sample name.now requests.now verb) }
{
    push_labelled(out, name, "verb", verb.name(), requests[verb.place()])
}

// Appends a sample for each refusal that has a name.
#[tactic(auto, unfolding(crate::specs::Page::refusal_samples))]
fn write_refusals(out: &mut Vec<u8>, name: &str, refusals: &[u64; CODES]) -> Result<(), OutOfMemory>
    ensures { OnOk result (out.new.items ≡ out.old.items ++ refusal_samples name.now refusals.now) }
{
    for code in 0..CODES {
        write_refusal(out, name, code as u16, refusals[code])?;
    }
    Ok(())
}

// Appends the sample of a refusal; none where the number is that of no refusal.
#[tactic(auto, unfolding(crate::specs::Page::refusal_sample))]
fn write_refusal(out: &mut Vec<u8>, name: &str, code: u16, count: u64) -> Result<(), OutOfMemory>
    ensures { OnOk result (out.new.items ≡ out.old.items ++ refusal_sample name.now code count) }
{
    let refusal = name_of(code);
    if refusal.is_empty() {
        return Ok(());
    }
    push_labelled(out, name, "name", refusal, count)
}
