//! The board of one caller, who has the document alone.

ghost use Rattle.std.specs.Prelude.{◌≡◌, IfOk, OnErr};
ghost use Rattle.canvas_record.specs.Effect.{effect_of};
ghost use Rattle.canvas_board.specs.Alone.{Makes, Opens};

use crate::history::History;
use crate::picture::file_of;
use crate::saving::text_of;
use bumpalo::Bump;
use canvas_doc::{Change, Document, Edit, Refusal};
use canvas_look::{Board, BoardFault, Dot, Edited, Picture, Saved};
use canvas_plane::Window;
use std::alloc::Global;
use std::marker::Model;
use std::mem;
use std::snapshot::Snapshot;
use std::sync::Wait;
use std::thread::Threads;

/// The board of one caller, who has the document alone.
#[derive(Drop)]
pub struct Alone {
    alloc: Global,
    limit: u64,
    opening: Snapshot<Document>,
    document: Document,
    history: History,
    // How many changes the history has.
    number: u64,
    // Holds the scene of a picture while it is painted.
    arena: Bump,
}

impl Model for Alone {
    ghost use Rattle.std.specs.Prelude.{◌≡◌, ◌≤◌, true, length};
    ghost use Rattle.canvas_look.specs.Seen.{Seen};
    ghost use Rattle.canvas_record.specs.History.{AllFit, replay_of};

    ghost Value = { Seen };

    ghost view = { λ a.
        record { opening = a.opening.value; limit = a.limit; front = a.history; alone = true } };

    ghost invariant = { λ a. (a.document ≡ replay_of a.opening.value a.history)
        × (a.number ≡ length a.history)
        × (a.number ≤ a.limit)
        × (a.limit ≤ 1000000)
        × AllFit a.opening.value a.history };
}

impl Alone {
    /// A board over a document that may accept up to `limit` changes, 1 to 1,000,000; else `BadSetting`.
    pub fn new(alloc: Global, document: Document, limit: u64) -> Result<Alone, BoardFault>
        ensures { Opens document limit result }
    {
        if limit < 1 || 1_000_000 < limit {
            return Err(BoardFault::BadSetting);
        }
        Ok(Alone {
            alloc,
            limit,
            opening: Snapshot::of(&document),
            document,
            history: History::new(),
            number: 0,
            arena: Bump::new(alloc),
        })
    }
}

impl Board for Alone {
    ghost seen = { λ board. board };

    fn edit<H: Wait>(&mut self, _rt: &H, edit: &Edit) -> Result<Edited, BoardFault> {
        if self.number >= self.limit {
            return Err(BoardFault::VersionsSpent);
        }
        match make(self.alloc, &mut self.document, edit) {
            Err(fault) => Err(fault),
            Ok(change) => {
                let id = change.new_id();
                self.number += 1;
                let history = mem::replace(&mut self.history, History::new());
                self.history = history.with(change);
                Ok(Edited {
                    number: self.number,
                    id,
                })
            }
        }
    }

    fn picture<H: Threads + Wait + Sync>(
        &mut self,
        rt: &H,
        window: &Window,
        workers: u32,
    ) -> Result<Picture, BoardFault> {
        if workers < 1 || 16 < workers {
            return Err(BoardFault::BadWorkers);
        }
        let version = self.number;
        let file = file_of(rt, self.alloc, &self.arena, &self.document, window, workers);
        // Nothing borrows the arena any more, so a reset can't fail.
        let _ = self.arena.reset();
        match file {
            Ok(bytes) => Ok(Picture { version, bytes }),
            Err(_) => Err(BoardFault::OutOfMemory),
        }
    }

    fn point(&mut self, x: i32, y: i32) -> Result<Dot, BoardFault> {
        let version = self.number;
        let colour = self.document.colour_at(x, y);
        Ok(Dot { version, colour })
    }

    fn saved(&mut self) -> Result<Saved, BoardFault> {
        let version = self.number;
        match text_of(self.alloc, &self.document) {
            Ok(text) => Ok(Saved { version, text }),
            Err(_) => Err(BoardFault::OutOfMemory),
        }
    }
}

// Makes an edit in a document, and answers the change that it is.
fn make(alloc: Global, document: &mut Document, edit: &Edit) -> Result<Change, BoardFault>
    ensures change { Makes document.old edit.now result }
    ensures effect { IfOk result (λ change. document.new ≡ effect_of change document.old) }
    ensures same { OnErr result (document.new ≡ document.old) }
{
    match document.edit(alloc, edit) {
        Ok(change) => Ok(change),
        Err(Refusal::OutOfMemory) => Err(BoardFault::OutOfMemory),
        Err(why) => Err(BoardFault::Refused(why)),
    }
}
