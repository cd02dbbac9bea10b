//! What an edit leads to.
ghost use Rattle.std.specs.Prelude.{◌≡◌, ◌+◌, ◌<◌, ◌≤◌, ◌^◌, ◌++◌, ◌∷◌, [], Some, IfOk, MatchResult};
ghost use Rattle.std.specs.Arc.{arc_value};
ghost use Rattle.canvas_record.specs.Damage.{damage_of};
ghost use Rattle.canvas_record.specs.Effect.{Fits, effect_of, new_id};
ghost use Rattle.canvas_line.specs.Lines.{Decides, Follows, Next, RefusedAt, Rightly};
ghost use Rattle.canvas_line.specs.Recent.{last_64};
ghost use Rattle.canvas_line.specs.Recording.{Awaits};

use crate::fault::LineFault;
use crate::front::Head;
use crate::published::Published;
use crate::recent::Damage;
use crate::recorder::Recorder;
use crate::version::Version;
use canvas_code::OutOfMemory;
use canvas_doc::{Change, Document, Edit, Refusal};
use canvas_look::Edited;
use std::alloc::Global;
use std::snapshot::Snapshot;
use std::sync::Arc;

// The version that an edit leads to, the change that it adds, and what is answered then.
#[derive(Drop)]
struct NextVersion {
    version: Arc<Version, Global>,
    change: Snapshot<Change>,
    edited: Edited,
}

// The change that an edit makes of a document, or why it is refused.
fn decided(alloc: Global, document: &Document, edit: &Edit) -> Result<Change, LineFault>
    ensures { Decides document.now edit.now result }
{
    match document.decide(alloc, edit) {
        Ok(change) => Ok(change),
        Err(Refusal::OutOfMemory) => Err(LineFault::OutOfMemory),
        Err(why) => Err(LineFault::Refused(why)),
    }
}

// The version that an edit leads to, unless the line has accepted all that it may.
#[tactic(auto, using(crate::proofs::Refusals::refused_at))]
fn next_version(
    alloc: Global,
    limit: u64,
    version: &Version,
    edit: &Edit,
) -> Result<NextVersion, LineFault>
    ensures follows { IfOk result
        (λ n. Follows version.now limit edit.now n.change.value (arc_value n.version)
        × (n.edited.number ≡ (arc_value n.version).number)
        × (n.edited.id ≡ new_id n.change.value)) }
    ensures refused { MatchResult result (λ _. Unit {0})
        (λ f. RefusedAt version.now limit edit.now f) }
{
    if version.number >= limit {
        return Err(LineFault::VersionsSpent);
    }
    let change = decided(alloc, &version.document, edit)?;
    let id = change.new_id();
    let added = Snapshot::of(&change);
    let version = version_after(alloc, version, change)?;
    let number = version.number;
    Ok(NextVersion {
        version,
        change: added,
        edited: Edited { number, id },
    })
}

// The version that a change makes.
fn version_after(
    alloc: Global,
    version: &Version,
    change: Change,
) -> Result<Arc<Version, Global>, OutOfMemory>
    requires number { version.now.number + 1 < 2 ^ 64 }
    requires fits { Fits change version.now.document }
    ensures { IfOk result (λ w. ((arc_value w).number ≡ version.now.number + 1)
        × ((arc_value w).change ≡ Some change)
        × ((arc_value w).document ≡ effect_of change version.now.document)
        × ((arc_value w).recent
        ≡ last_64 (version.now.recent
        ++ record { number = version.now.number + 1; area = damage_of change version.now.document }
        ∷ []))) }
{
    let document = version.document.with(alloc, &change)?;
    let number = version.number + 1;
    let area = version.document.damage(&change);
    let recent = version.recent.with(alloc, Damage { number, area })?;
    Ok(Arc::new(
        alloc,
        Version {
            number,
            change: Some(change),
            document,
            recent,
        },
    )?)
}

// What is to be published once the edit is accepted, what is answered then, and the copy that is
// recorded where the line records. All memory is there before the history grows.
pub(crate) fn next_published(
    alloc: Global,
    now: &Published,
    head: &Head,
    recorder: &mut Recorder,
    edit: &Edit,
) -> Result<(Published, Edited, Option<Edit>), LineFault>
    requires book { head.now.word.book ≡ now.now.facts.book }
    requires limit { now.now.facts.limit ≤ 1000000 }
    ensures next { IfOk result (λ p. Next now.now.facts now.now.facts.opening now.now.facts.limit
        now.now.changes edit.now p.0 p.1) }
    ensures refused { MatchResult result (λ _. Unit {0})
        (λ f. Rightly now.now.facts.opening now.now.facts.limit now.now.changes edit.now f) }
    ensures taken { recorder.new.taken ≡ recorder.old.taken }
    ensures edits { recorder.new.edits.items ≡ recorder.old.edits.items }
    ensures copy { IfOk result (λ p. Awaits recorder.new edit.now p.2) }
{
    let after = next_version(alloc, now.limit, &now.version, edit)?;
    let opening = Arc::try_clone(&now.opening)?;
    let copy = recorder.copy(alloc, edit)?;
    let mut trace = now.trace.again();
    if !trace.add(head, &after.change) {
        return Err(LineFault::OutOfMemory);
    }
    let next = Published {
        version: after.version,
        opening,
        limit: now.limit,
        trace,
    };
    Ok((next, after.edited, copy))
}
