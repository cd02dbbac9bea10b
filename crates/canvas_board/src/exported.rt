//! A text that was exported, with its place in the history.

ghost use Rattle.std.specs.Prelude.{◌≡◌, ◌≤◌, ◌^◌, IfSome, vec_len};
ghost use Rattle.std.specs.Arc.{arc_value};
ghost use Rattle.canvas_line.specs.Seats.{is_no_further};
ghost use Rattle.canvas_record.specs.History.{replay_of};
ghost use Rattle.canvas_json.specs.Saved.{saved_text_of};

use canvas_line::{Lines, Mark};
use std::alloc::Global;
use std::marker::Model;
use std::sync::Arc;

/// The saved text of a version, and the mark at that version.
#[derive(Drop)]
pub(crate) struct Exported<B: Lines> {
    at: Mark<B>,
    text: Arc<Vec<u8>, Global>,
}

impl<B: Lines> Model for Exported<B> {
    ghost use Rattle.std.specs.Prelude.{◌≡◌, ◌≤◌, ◌^◌, vec_len};
    ghost use Rattle.std.specs.Arc.{arc_value};
    ghost use Rattle.canvas_line.specs.Lines.{Sight};
    ghost use Rattle.canvas_record.specs.History.{replay_of};
    ghost use Rattle.canvas_json.specs.Saved.{saved_text_of};

    ghost Value = { Sight };

    ghost view = { λ e. e.at };

    ghost invariant = { λ e.
        ((arc_value e.text).items ≡ saved_text_of (replay_of e.at.opening e.at.front))
        × (vec_len (arc_value e.text) ≤ 2 ^ 40) };
}

impl<B: Lines> Exported<B> {
    /// The saved text of the document at a mark.
    pub(crate) fn new(at: Mark<B>, text: Arc<Vec<u8>, Global>) -> Exported<B>
        requires saved { (arc_value text).items ≡ saved_text_of (replay_of at.opening at.front) }
        requires small { vec_len (arc_value text) ≤ 2 ^ 40 }
        ensures { result ≡ at }
    {
        Exported { at, text }
    }

    /// The text, if it is that of the document at this mark. `None` too where it could not be
    /// shared once more.
    pub(crate) fn text_at(&self, at: &Mark<B>) -> Option<Arc<Vec<u8>, Global>>
        ensures saved { IfSome result (λ text. (arc_value text).items
            ≡ saved_text_of (replay_of at.now.opening at.now.front)) }
        ensures small { IfSome result (λ text. vec_len (arc_value text) ≤ 2 ^ 40) }
    {
        if self.at.is_at(at) {
            Arc::try_clone(&self.text).ok()
        } else {
            None
        }
    }

    /// Whether it is of the other's line, and of the same version or an older one.
    pub(crate) fn is_no_newer(&self, other: &Exported<B>) -> bool
        ensures { result ≡ is_no_further self.now other.now }
    {
        self.at.begins(&other.at)
    }
}
