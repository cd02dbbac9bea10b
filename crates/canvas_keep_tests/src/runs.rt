//! A run of edits whose keeper turns now and then, and what is opened of what a crash has left of it.
ghost use Rattle.std.specs.Prelude.{◌≡◌};

use crate::asserts::{equal, holds};
use crate::disk::Disk;
use crate::edits::{EDITS, make, saved_at_the_end, seen};
use crate::seats::{Kept, Two, kept_line};
use canvas_doc::Document;
use canvas_journal_file::Asked;
use canvas_keep::Keeper;
use canvas_line::{Lines, Opened};
use std::alloc::Global;
use std::marker::Brand;
use std::process::Abort;
use std::sync::Wait;

/// How often the keeper turns after each edit.
const TURNS: [u32; 10] = [1, 0, 1, 2, 0, 0, 1, 1, 0, 3];

/// How many versions were made and how many were kept after so many calls of the disk.
#[derive(Clone, Copy)]
pub(crate) struct Mark {
    pub(crate) calls: usize,
    pub(crate) made: u64,
    pub(crate) kept: u64,
}

/// A run: its disk, what was made and kept meanwhile, and the document of each version, as it is saved.
#[derive(Drop)]
pub(crate) struct Run {
    pub(crate) disk: Disk,
    marks: Vec<Mark>,
    texts: Vec<Vec<u8>>,
}

impl Run {
    fn mark(&mut self, rt: &impl Abort, made: u64, kept: u64) {
        let calls = self.disk.moment();
        let mark = Mark { calls, made, kept };
        self.marks.push(mark).expect(rt, "memory");
    }

    /// What was made and kept after so many calls.
    pub(crate) fn mark_at(&self, moment: usize) -> Mark {
        let before = self.marks.iter().filter(|mark| mark.calls <= moment);
        before.last().copied().unwrap_or(Mark {
            calls: 0,
            made: 0,
            kept: 0,
        })
    }

    /// Whether the document of a version is saved so.
    pub(crate) fn is_saved(&self, version: u64, text: &[u8]) -> bool {
        match self.texts.get(version as usize) {
            Some(saved) => saved.as_slice() == text,
            None => false,
        }
    }
}

/// All edits over an empty disk.
pub(crate) fn whole_run<H: Wait + Abort>(rt: &H, alloc: Global) -> Run {
    let disk = Disk::new(alloc, Vec::new(alloc), 0).expect(rt, "memory");
    run_at::<Brand, H>(rt, alloc, Opened::new(), Document::empty(alloc), disk)
}

fn run_at<B: Lines, H: Wait + Abort>(
    rt: &H,
    alloc: Global,
    opened: Opened,
    document: Document,
    disk: Disk,
) -> Run
    requires { B.line 1
        ≡ record { book = opened.head.word.book; opening = document; limit = 1000 } }
{
    let kept = kept_line::<B, H>(rt, alloc, opened, document, &disk).expect(rt, "a line");
    let Kept {
        mut keeper,
        mut watch,
        mut two,
    } = kept;
    let mut run = Run {
        disk,
        marks: Vec::new(alloc),
        texts: Vec::new(alloc),
    };
    let (_, text) = seen(rt, alloc, &mut watch);
    run.texts.push(text).expect(rt, "memory");
    for (version, turns) in (1..=EDITS).zip(TURNS) {
        make(rt, &mut two, version);
        let (_, text) = seen(rt, alloc, &mut watch);
        run.texts.push(text).expect(rt, "memory");
        run.mark(rt, version, keeper.kept());
        keeper = turned(rt, alloc, keeper, &mut run, turns);
    }
    run
}

// Turns so often, and notes what is kept then.
fn turned<B: Lines, H: Wait + Abort>(
    rt: &H,
    alloc: Global,
    keeper: Keeper<Asked<Disk>, B>,
    run: &mut Run,
    turns: u32,
) -> Keeper<Asked<Disk>, B> {
    let mut keeper = keeper;
    for _ in 0..turns {
        keeper = keeper.turn(rt, alloc).expect(rt, "a turn");
        let made = run.mark_at(usize::MAX).made;
        run.mark(rt, made, keeper.kept());
    }
    keeper
}

/// Opens what a crash has left of a run, and tells how many versions are kept. Their document is
/// the run's, and what is edited then goes on as the run did.
pub(crate) fn reopened<H: Wait + Abort>(rt: &H, alloc: Global, run: &Run, disk: &Disk) -> u64 {
    goes_on::<Brand, H>(rt, alloc, Opened::new(), Document::empty(alloc), run, disk)
}

fn goes_on<B: Lines, H: Wait + Abort>(
    rt: &H,
    alloc: Global,
    opened: Opened,
    document: Document,
    run: &Run,
    disk: &Disk,
) -> u64
    requires { B.line 1
        ≡ record { book = opened.head.word.book; opening = document; limit = 1000 } }
{
    let kept = kept_line::<B, H>(rt, alloc, opened, document, disk).expect(rt, "a line");
    let Kept {
        keeper,
        mut two,
        ..
    } = kept;
    let number = keeper.kept();
    let (version, text) = seen(rt, alloc, &mut two.first);
    equal(rt, "what is kept is seen", &version, &number);
    holds(rt, "its document", run.is_saved(number, &text));
    make_rest(rt, alloc, &mut two, number);
    let keeper = keeper.rested(rt, alloc).expect(rt, "a turn");
    equal(rt, "all are kept", &keeper.kept(), &EDITS);
    number
}

// Makes the edits behind the first ones.
fn make_rest<B: Lines, H: Wait + Abort>(rt: &H, alloc: Global, two: &mut Two<B>, kept: u64) {
    for version in kept.saturating_add(1)..=EDITS {
        make(rt, two, version);
    }
    let (_, text) = seen(rt, alloc, &mut two.second);
    holds(
        rt,
        "the document at the end",
        text.as_slice() == saved_at_the_end(),
    );
}
