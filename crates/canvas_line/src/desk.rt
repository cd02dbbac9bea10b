//! What lies under the lock: the writer, the head of the history, and what is recorded of it.
ghost use Rattle.std.specs.Prelude.{◌≡◌, ◌≤◌, [], None, length, IfOk, IfSome, MatchResult};
ghost use Rattle.std.specs.Arc.{arc_value};
ghost use Rattle.crossbeam_utils.specs.Padded.{padded_value};
ghost use Rattle.canvas_record.specs.History.{AllFit};
ghost use Rattle.canvas_line.specs.Lines.{Accepts, Rightly, Takes, line_of, recording};
ghost use Rattle.canvas_line.specs.Rule.{Knows};
ghost use Rattle.left_right.specs.Sides.{view as seat_view};

use crate::fault::LineFault;
use crate::front::{Head, Lines, Trace};
use crate::herald::Herald;
use crate::next::next_published;
use crate::recorder::{Recorder, Taken};
use crate::rule::Note;
use crate::version::Version;
use crate::viewer::Viewer;
use crate::writer::{LineWriter, publish_at};
use canvas_doc::Edit;
use canvas_look::Edited;
use crossbeam_utils::CachePadded;
use std::alloc::{AllocError, Global};
use std::marker::{Model, PhantomData};
use std::mem::ManuallyDrop;
use std::sync::{Arc, Wait};

/// The value of the lock. Contracts see it as the line's name, opening document, limit and history,
/// and how many changes were taken of a line that records: taken and pending edits together make
/// the history.
#[derive(Drop)]
pub struct Desk<B: Lines> {
    writer: ManuallyDrop<LineWriter>,
    head: Arc<CachePadded<Head>, Global>,
    name: u64,
    alloc: Global,
    // The version before the published one, and the one before that until it is taken. A desk keeps
    // them so that no version is freed under the lock.
    previous: Option<Arc<Version, Global>>,
    retired: Option<Arc<Version, Global>>,
    recorder: Recorder,
    of: PhantomData<B>,
}

impl<B: Lines> Model for Desk<B> {
    ghost use Rattle.std.specs.Prelude.{◌≡◌, ◌≤◌};
    ghost use Rattle.std.specs.Arc.{arc_value};
    ghost use Rattle.std.specs.Mem.{manually_drop_value};
    ghost use Rattle.crossbeam_utils.specs.Padded.{padded_value};
    ghost use Rattle.left_right.specs.Sides.{view as seat_view};
    ghost use Rattle.canvas_line.specs.Rule.{Knows};
    ghost use Rattle.canvas_line.specs.Lines.{Line, line_of};
    ghost use Rattle.canvas_line.specs.Recording.{Records};

    ghost Value = { Line };

    ghost view = { λ d. line_of d.name (B.line d.name)
        (manually_drop_value d.writer).desk.shown.value.changes d.recorder.taken };

    ghost invariant = { λ d.
        Knows (seat_view (manually_drop_value d.writer).desk.place) (B.line d.name)
        × ((manually_drop_value d.writer).desk.shown.value.facts ≡ B.line d.name)
        × ((padded_value (arc_value d.head)).word.book ≡ (B.line d.name).book)
        × ((B.line d.name).limit ≤ 1000000)
        × Records (B.line d.name).opening (manually_drop_value d.writer).desk.shown.value.changes
        d.recorder.taken d.recorder.edits.items };
}

impl<B: Lines> Desk<B> {
    // The desk of a line, whose history is the writer's.
    pub(crate) fn new(
        alloc: Global,
        name: u64,
        head: Arc<CachePadded<Head>, Global>,
        writer: LineWriter,
    ) -> Desk<B>
        requires view { Knows (seat_view writer.desk.place) (B.line name) }
        requires facts { (writer.desk.shown.value.facts ≡ B.line name)
            × ((padded_value (arc_value head)).word.book ≡ (B.line name).book)
            × ((B.line name).limit ≤ 1000000) }
        ensures { result ≡ line_of name (B.line name) writer.desk.shown.value.changes None }
    {
        Desk {
            writer: unsafe { ManuallyDrop::new_unchecked(writer) },
            head,
            name,
            alloc,
            previous: None,
            retired: None,
            recorder: Recorder::off(alloc),
            of: PhantomData,
        }
    }

    // Gives the line's memory up.
    pub(crate) fn close<R: Wait>(self, rt: &R) {
        let Desk { writer, head, .. } = self;
        drop(head);
        drop(ManuallyDrop::into_inner(writer).take(rt));
    }

    // One more viewer of the line, if there is a place for it.
    pub(crate) fn viewer(&mut self) -> Option<Viewer<B>>
        ensures same { self.new ≡ self.old }
        ensures viewer { IfSome result (λ v. v ≡ self.old.name) }
    {
        let writer = &mut *self.writer;
        let mut reader = writer.factory().reader().ok()?;
        reader.learn::<Note>(writer.tell::<Note>());
        Some(Viewer::new(reader, self.name))
    }

    // The line's name, by which its facts are known.
    pub(crate) fn name(&self) -> u64
        ensures name { result ≡ self.now.name }
        ensures facts { (self.now.opening ≡ (B.line self.now.name).opening)
            × (self.now.limit ≡ (B.line self.now.name).limit) }
    {
        self.name
    }

    // Who tells how long the history is. Want of memory is the only refusal.
    pub(crate) fn herald(&self) -> Result<Herald<B>, AllocError>
        ensures { IfOk result (λ h. h ≡ self.now.name) }
    {
        Ok(Herald::new(Arc::try_clone(&self.head)?, self.name))
    }

    // The whole history.
    pub(crate) fn trace(&self) -> Trace
        ensures book { result.book ≡ (B.line self.now.name).book }
        ensures changes { result.changes ≡ self.now.history }
        ensures fits { AllFit self.now.opening self.now.history
            × (length self.now.history ≤ self.now.limit) }
    {
        self.writer.published().trace.again()
    }

    /// Makes an edit, or says why it is refused: `VersionsSpent` where the history has as many
    /// changes as the line may accept, then the document's refusal, then `OutOfMemory`. A refused
    /// edit leaves the history as it was. An accepted one is pending from then on, where the line
    /// records.
    pub fn apply<R: Wait>(&mut self, rt: &R, edit: &Edit) -> Result<Edited, LineFault>
        ensures accepted { IfOk result (λ r. Accepts self.old edit.now self.new r) }
        ensures refused { MatchResult result (λ _. Unit {0}) (λ f. (self.new ≡ self.old)
            × Rightly self.old.opening self.old.limit self.old.history edit.now f) }
    {
        let (next, edited, copy) = next_published(
            self.alloc,
            self.writer.published(),
            &self.head,
            &mut self.recorder,
            edit,
        )?;
        let before = Arc::try_clone(&self.writer.published().version)?;
        if !publish_at(rt, &mut self.writer, next) {
            return Err(LineFault::OutOfMemory);
        }
        self.recorder.add(copy);
        self.retired = self.previous.replace(before);
        Ok(edited)
    }

    /// The version that the last edit retired. Where no seat looks at it, it is freed with this
    /// pointer: whoever holds the lock takes it, and lets it go once the lock is free.
    pub(crate) fn take_retired(&mut self) -> Option<Arc<Version, Global>>
        ensures { self.new ≡ self.old }
    {
        self.retired.take()
    }

    /// Records from now on, if it did not before. The whole history counts as taken then.
    pub fn start_recording(&mut self)
        ensures { self.new ≡ recording self.old self.old.taken }
    {
        if self.recorder.taken.is_none() {
            self.recorder.taken = Some(self.writer.published().trace.len());
        }
    }

    /// The edits that were accepted since some were last taken, in the order of versions. An empty
    /// list takes their place. None where the line does not record.
    pub fn take_pending(&mut self, empty: Vec<Edit>) -> Option<Taken>
        requires { empty.items ≡ [] }
        ensures { Takes self.old result self.new }
    {
        let number = self.writer.published().trace.len();
        self.recorder.take(number, empty)
    }
}
