//! The text of the last export, which the boards of a line share.

ghost use Rattle.std.specs.Prelude.{◌≡◌, ◌≤◌, ◌^◌, IfOk, IfSome, vec_len};
ghost use Rattle.std.specs.Arc.{arc_value};
ghost use Rattle.canvas_record.specs.History.{replay_of};
ghost use Rattle.canvas_json.specs.Saved.{saved_text_of};
ghost use Rattle.canvas_board.specs.Exports.{gives_way, newer_of};

use crate::exported::Exported;
use crate::saving::text_of;
use canvas_code::OutOfMemory;
use canvas_doc::Document;
use canvas_line::{Lines, Mark};
use std::alloc::Global;
use std::mem::replace;
use std::sync::{Arc, Mutex};

/// The text of the last export, which the boards of a line share. One text is kept at most. Nobody
/// waits for it: where another board has it in hand, a text is made anew.
#[derive(Drop)]
pub struct LastExport<B: Lines> {
    // There unless memory for it could not be had.
    place: Option<Arc<Mutex<Option<Exported<B>>>, Global>>,
}

impl<B: Lines> LastExport<B> {
    /// No text yet. Where memory for it can't be had, none will be kept.
    pub fn new(alloc: Global) -> LastExport<B> {
        LastExport {
            place: Arc::new(alloc, Mutex::new(None)).ok(),
        }
    }

    /// The same, for one more board.
    pub fn again(&self) -> LastExport<B> {
        let place = match &self.place {
            Some(place) => Arc::try_clone(place).ok(),
            None => None,
        };
        LastExport { place }
    }

    /// The saved text of the document at a mark: the one that is kept, where it is of this version;
    /// else it is made, and kept.
    pub(crate) fn text_at(
        &self,
        alloc: Global,
        at: Mark<B>,
        document: &Document,
    ) -> Result<Arc<Vec<u8>, Global>, OutOfMemory>
        requires { document.now ≡ replay_of at.opening at.front }
        ensures saved { IfOk result (λ text. (arc_value text).items ≡ saved_text_of document.now) }
        ensures small { IfOk result (λ text. vec_len (arc_value text) ≤ 2 ^ 40) }
    {
        if let Some(text) = self.kept_at(&at) {
            return Ok(text);
        }
        let text = text_of(alloc, document)?;
        if let Ok(copy) = Arc::try_clone(&text) {
            self.keep(Exported::new(at, copy));
        }
        Ok(text)
    }

    // The kept text, if it is that of the document at this mark, and no other board has it in hand.
    fn kept_at(&self, at: &Mark<B>) -> Option<Arc<Vec<u8>, Global>>
        ensures saved { IfSome result (λ text. (arc_value text).items
            ≡ saved_text_of (replay_of at.now.opening at.now.front)) }
        ensures small { IfSome result (λ text. vec_len (arc_value text) ≤ 2 ^ 40) }
    {
        let guard = self.place.as_ref()?.try_lock()?;
        let exported = guard.as_ref()?;
        exported.text_at(at)
    }

    // Keeps a text, unless another board has the kept one in hand.
    fn keep(&self, exported: Exported<B>) {
        let Some(place) = &self.place else {
            return;
        };
        if let Some(mut guard) = place.try_lock() {
            let older = put_in(&mut *guard, exported);
            drop(guard);
            drop(older);
        }
    }
}

// Keeps a new text where the kept one gives way to it. Gives the text that is not kept, if there is one.
fn put_in<B: Lines>(kept: &mut Option<Exported<B>>, exported: Exported<B>) -> Option<Exported<B>>
    ensures { kept.new ≡ newer_of kept.old exported }
{
    if gives_way(kept, &exported) {
        replace(kept, Some(exported))
    } else {
        Some(exported)
    }
}

// Whether what is kept gives way to a new text: no text does, and one of the same line that is no newer.
fn gives_way<B: Lines>(kept: &Option<Exported<B>>, exported: &Exported<B>) -> bool
    ensures { result ≡ gives_way kept.now exported.now }
{
    match kept {
        Some(old) => old.is_no_newer(exported),
        None => true,
    }
}
