//! The board of a session at a follower: it looks here, and hands edits on.
ghost use denote.Param.Send.{IsSync};
ghost use Rattle.std.specs.Prelude.{◌≡◌, false, IfNone, IfSome};
ghost use Rattle.canvas_look.specs.Steps.{Edits};

use crate::handed::{Handed, Leader, Outcome};
use crate::turns::Turns;
use canvas_doc::Edit;
use canvas_line::Lines;
use canvas_look::{Board, BoardFault, Dot, Edited, Picture, Saved};
use canvas_plane::Window;
use canvas_wire::write_edit;
use std::alloc::Global;
use std::sync::Wait;
use std::sync::atomic::{AtomicBool, Ordering};
use std::thread::Threads;

/// The most bytes of a line that a session reads.
const MOST_BYTES: usize = 65_536;

/// A board of a line that follows: looks are answered by it, and an edit is handed to the leader,
/// and made here as the version that it made there.
///
/// Where it is not known what became of an edit, the session is lost: nothing that it has not sent
/// yet is sent any more.
#[derive(Drop)]
pub struct Relayed<'a, C: Board, B: Lines, L: Leader> {
    alloc: Global,
    board: C,
    turns: &'a Turns<B>,
    leader: Option<&'a L>,
    is_lost: &'a AtomicBool,
    ghost among_others: { ∥ (C.seen board).alone ≡ false ∥₁ },
}

impl<'a, C: Board, B: Lines, L: Leader> Relayed<'a, C, B, L> {
    /// A board whose edits are handed on. Without a leader each is refused.
    pub fn new(
        alloc: Global,
        board: C,
        turns: &'a Turns<B>,
        leader: Option<&'a L>,
        is_lost: &'a AtomicBool,
    ) -> Relayed<'a, C, B, L>
        requires { (C.seen board).alone ≡ false }
        ensures { result.board ≡ board }
    {
        Relayed {
            alloc,
            board,
            turns,
            leader,
            is_lost,
        }
    }

    /// The board again.
    pub fn into_inner(self) -> C
        ensures { result ≡ self.entry.board }
    {
        let Relayed { board, .. } = self;
        board
    }

    // What is answered to an edit: nothing where it was not made, or where that is not known.
    fn relay<H: Wait>(&mut self, rt: &H, edit: &Edit) -> Option<Result<Edited, BoardFault>>
        ensures answered { IfSome result
            (λ answer. Edits (C.seen self.old.board) edit.now answer (C.seen self.new.board)) }
        ensures same { IfNone result (C.seen self.new.board ≡ C.seen self.old.board) }
    {
        let leader = self.leader?;
        if self.is_lost.load(Ordering::SeqCst) {
            return None;
        }
        let text = write_edit(self.alloc, edit).ok()?;
        if MOST_BYTES < text.len() {
            return None;
        }
        let ticket = self.turns.ask(rt, &text).ok()?;
        match leader.hand_on(rt, &text) {
            Handed::Answered(Outcome::Made { id, version }) => {
                let answer = self
                    .turns
                    .make_own(rt, ticket, version, edit, &mut self.board);
                if !is_told(&answer, id, version) {
                    self.is_lost.store(true, Ordering::SeqCst);
                }
                answer
            }
            // No version refuses an edit so.
            Handed::Answered(Outcome::Refused { code: 1 | 33 }) | Handed::Unsent => {
                self.turns.withdraw(rt, ticket);
                None
            }
            Handed::Answered(Outcome::Refused { code }) => {
                self.turns
                    .refuse_own(rt, ticket, code, edit, &mut self.board)
            }
            Handed::Lost => {
                self.is_lost.store(true, Ordering::SeqCst);
                self.turns.withdraw(rt, ticket);
                None
            }
        }
    }
}

// Whether the answer is what the leader told.
fn is_told(answer: &Option<Result<Edited, BoardFault>>, id: Option<u32>, version: u64) -> bool {
    match answer {
        Some(Ok(edited)) => edited.id == id && edited.number == version,
        _ => false,
    }
}

impl<'a, C: Board, B: Lines, L: Leader> Board for Relayed<'a, C, B, L> {
    ghost seen = { λ relayed. C.seen relayed.board };

    fn edit<H: Wait>(&mut self, rt: &H, edit: &Edit) -> Result<Edited, BoardFault> {
        match self.relay(rt, edit) {
            Some(answer) => answer,
            None => Err(BoardFault::NoView),
        }
    }

    fn picture<H: Threads + Wait + Sync>(
        &mut self,
        rt: &H,
        window: &Window,
        workers: u32,
    ) -> Result<Picture, BoardFault> {
        self.board.picture(rt, window, workers)
    }

    fn point(&mut self, x: i32, y: i32) -> Result<Dot, BoardFault> {
        self.board.point(x, y)
    }

    fn saved(&mut self) -> Result<Saved, BoardFault> {
        self.board.saved()
    }
}
