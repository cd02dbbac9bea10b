//! The history, which exists in proofs alone, and beginnings of it that were seen.
ghost use Rattle.std.specs.Prelude.{◌≡◌, ◌+◌, ◌<◌, ◌≤◌, ◌^◌, ◌++◌, ◌∷◌, [], length, MatchBool};
ghost use mathlib.Core.List.{IsPrefix};
ghost use Rattle.canvas_line.specs.Trails.{longer_by};
ghost use Rattle.canvas_line.specs.Books.{head_of};

use canvas_doc::Change;
use logbook::{Gain, Offer, Plain, Play, Rule, Seen, Start, Word};
use std::marker::{Brand, Model};
use std::snapshot::Snapshot;

/// The head word is the length of the history.
pub struct Law;

impl Rule<Change, u64> for Law {
    ghost use Rattle.std.specs.Prelude.{[]};
    ghost use base.Fml.{ftrue};
    ghost use Rattle.canvas_line.specs.Books.{IsKept};

    ghost holds = { λ cells log. IsKept cells log };

    ghost first = { [] };

    ghost hinted = { λ n log. Unit {0} };

    ghost shows = { λ log. [] };

    ghost keeps = { λ names log. ftrue };

    ghost moves = { λ ask before after answer. Unit {0} };
}

/// Callers trade nothing.
pub struct Nothing;

impl Gain<Change, u64> for Nothing {
    ghost use base.Fml.{ftrue};

    ghost after = { λ names about answer. ftrue };
}

/// A step that adds a change.
pub struct Add;

impl Play<Change, u64> for Add {
    ghost use Rattle.canvas_line.specs.Books.{Adds};

    ghost then = { Adds };
}

/// What a step asks for: the change.
impl Plain<Snapshot<Change>, Change, u64> for Add {
    ghost use Rattle.std.specs.Prelude.{None};

    ghost ask = { λ change. change.value };

    ghost state = { λ change. None };
}

/// A step that finds how long the history is.
pub struct Look;

impl Play<Change, u64> for Look {
    ghost use Rattle.canvas_line.specs.Books.{Looks};

    ghost then = { Looks };
}

/// It asks for no change, so any will do.
impl Plain<(), Change, u64> for Look {
    ghost use Rattle.std.specs.Prelude.{None};
    ghost use Rattle.canvas_record.specs.declared.edits.Change.TheVariants as change;

    ghost ask = { λ _. change.Delete 0 };

    ghost state = { λ _. None };
}

/// Gives a line's book, opening document and limit from the line's name. A program picks it where
/// it opens its lines.
pub trait Lines {
    ghost use Rattle.std.specs.Prelude.{ℕ};
    ghost use Rattle.canvas_line.specs.Trails.{Facts};

    ghost line: { ℕ → Facts };
}

impl Lines for Brand {
    ghost use Rattle.canvas_line.specs.Trails.{no_facts};

    ghost line = { λ _. no_facts };
}

/// The word by which a history grows.
#[derive(Drop)]
pub struct Head {
    pub word: Word<Change, u64, Law>,
    ghost word_is: { word ≡ head_of word.book },
}

impl Head {
    /// A new book, with an empty history.
    pub fn open() -> (Head, Trace)
        ensures { result.1 ≡ record { book = result.0.word.book; changes = [] } }
    {
        let (seen, mut first, _second) = Seen::open(Start::alone(), 0, 0);
        let head = Head {
            word: Word::tracked(0, &mut first),
        };
        (head, Trace { count: 0, seen })
    }

    /// How long the history is by now: no shorter than any that was seen. Whose glimpse it is makes
    /// no difference.
    pub(crate) fn number(&self, seen: &Glimpse) -> u64
        requires { seen.now.book ≡ self.now.word.book }
        ensures { length seen.now.changes ≤ result }
    {
        let mut seen = seen.seen.again();
        let mut offer: Offer<Change, u64, Law, Nothing> = seen.plain::<Nothing, (), Look>(&());
        self.word.load::<Look, Nothing>(&mut seen, &mut offer)
    }
}

/// A new book with an empty history, which belongs to no line yet.
#[derive(Drop)]
pub struct Opened {
    pub head: Head,
    pub trace: Trace,
    ghost empty: { trace ≡ record { book = head.word.book; changes = [] } },
}

impl Opened {
    pub fn new() -> Opened {
        let (head, trace) = Head::open();
        Opened { head, trace }
    }
}

/// What was seen of a book's history, for clauses alone: it has no bytes, so nothing that runs
/// rests on how much that is.
#[derive(Drop)]
pub struct Glimpse {
    seen: Seen<Change, u64, Law>,
}

impl Model for Glimpse {
    ghost use Rattle.canvas_line.specs.Trails.{Trail};

    ghost Value = { Trail };

    ghost view = { λ g. record { book = g.seen.book; changes = g.seen.log } };
}

/// A beginning of a book's history that was seen.
#[derive(Drop)]
pub struct Trace {
    count: u64,
    seen: Seen<Change, u64, Law>,
}

impl Model for Trace {
    ghost use Rattle.std.specs.Prelude.{◌≡◌, length};
    ghost use Rattle.canvas_line.specs.Trails.{Trail};

    ghost Value = { Trail };

    ghost view = { λ f. record { book = f.seen.book; changes = f.seen.log } };

    ghost invariant = { λ f. f.count ≡ length f.seen.log };
}

impl Trace {
    pub fn len(&self) -> u64
        ensures { result ≡ length self.now.changes }
    {
        self.count
    }

    /// The same for clauses alone.
    pub(crate) fn glimpse(&self) -> Glimpse
        ensures { result ≡ self.now }
    {
        Glimpse {
            seen: self.seen.again(),
        }
    }

    /// A copy.
    pub fn again(&self) -> Trace
        ensures { result ≡ self.now }
    {
        Trace {
            count: self.count,
            seen: self.seen.again(),
        }
    }

    /// Of two beginnings of one history the shorter begins the longer.
    pub fn compare(&self, other: &Trace)
        requires book { other.now.book ≡ self.now.book }
        requires length { length self.now.changes ≤ length other.now.changes }
        ensures { IsPrefix self.now.changes other.now.changes }
    {
        let mut both = self.seen.again();
        both.learn(&other.seen);
    }

    /// Adds a change to all that was seen, and says whether it did. It did not where the history is longer.
    pub(crate) fn add(&mut self, head: &Head, change: &Snapshot<Change>) -> bool
        requires book { head.now.word.book ≡ self.old.book }
        requires room { length self.old.changes < 2 ^ 62 }
        ensures { MatchBool result (self.new ≡ longer_by self.old change.now.value) (Unit {0}) }
    {
        let mut offer: Offer<Change, u64, Law, Nothing> = self
            .seen
            .plain::<Nothing, Snapshot<Change>, Add>(change);
        let mut pen = self.seen.no_pen();
        let count = self.count;
        let found = head
            .word
            .compare_exchange::<Add, Nothing>(
                count,
                count + 1,
                &mut self.seen,
                &mut offer,
                &mut pen,
            );
        self.count = if found == count { count + 1 } else { found };
        found == count
    }
}
