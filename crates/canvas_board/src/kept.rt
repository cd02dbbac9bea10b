//! A picture that is kept, with its place in the history.

ghost use Rattle.std.specs.Prelude.{◌≡◌, ◌<◌, ◌≤◌, ◌++◌, ◌^◌, IsTrue, IfSome, length, vec_len};
ghost use Rattle.std.specs.Arc.{arc_value};
ghost use Rattle.canvas_plane.specs.Page.{is_empty_box, meet_of};
ghost use Rattle.canvas_record.specs.History.{AllFit};
ghost use Rattle.canvas_board.specs.Kept.{document_at, key_of, IsEndOf, IsPictureOf, IsStillRight};
ghost use Rattle.canvas_look.specs.Raster.{file_of};

use crate::window_key::{WindowKey, key_of};
use canvas_line::{Damage, Lines, Mark};
use canvas_plane::{PageBox, Window};
use std::alloc::Global;
use std::marker::Model;
use std::sync::Arc;

/// The most bytes of a picture: the header, and three for each of 256 by 256 pixels.
pub(crate) const MOST_PICTURE_BYTES: usize = 15 + 3 * 256 * 256;

/// The picture of a window at a version, and the mark at that version.
#[derive(Drop)]
pub(crate) struct Kept<B: Lines> {
    at: Mark<B>,
    // How many changes the mark has.
    number: u64,
    key: WindowKey,
    bytes: Arc<Vec<u8>, Global>,
}

impl<B: Lines> Model for Kept<B> {
    ghost use Rattle.std.specs.Prelude.{◌≡◌, ◌≤◌, length, vec_len};
    ghost use Rattle.std.specs.Arc.{arc_value};
    ghost use Rattle.canvas_line.specs.Lines.{Sight};
    ghost use Rattle.canvas_board.specs.Kept.{document_at, IsPictureOf};

    ghost Value = { Sight };

    ghost view = { λ k. k.at };

    ghost invariant = { λ k. (k.number ≡ length k.at.front)
        × IsPictureOf (document_at k.at) k.key (arc_value k.bytes).items
        × (vec_len (arc_value k.bytes) ≤ 196623) };
}

impl<B: Lines> Kept<B> {
    /// The picture of a window at a mark with so many changes. `None` where it has too many bytes,
    /// as none has.
    pub(crate) fn new(
        at: Mark<B>,
        number: u64,
        window: &Window,
        bytes: Arc<Vec<u8>, Global>,
    ) -> Option<Kept<B>>
        requires number { number ≡ length at.front }
        requires right { IsPictureOf (document_at at) (key_of window.now) (arc_value bytes).items }
        ensures { IfSome result (λ kept. kept ≡ at) }
    {
        if bytes.len() > MOST_PICTURE_BYTES {
            return None;
        }
        let key = key_of(window);
        Some(Kept {
            at,
            number,
            key,
            bytes,
        })
    }

    /// The bytes, if they are those of this window at another mark with so many changes: it is of
    /// the same line and no older, and the damage of the last changes tells that none since meets
    /// the window. `None` too where they could not be shared once more.
    pub(crate) fn bytes_at(
        &self,
        at: &Mark<B>,
        number: u64,
        older: &[Damage],
        newer: &[Damage],
        window: &Window,
    ) -> Option<Arc<Vec<u8>, Global>>
        requires number { number ≡ length at.now.front }
        requires fits { AllFit at.now.opening at.now.front }
        requires told { IsEndOf (older.now ++ newer.now) at.now.opening at.now.front }
        ensures right { IfSome result (λ bytes. IsPictureOf (document_at at.now) (key_of window.now)
            (arc_value bytes).items) }
        ensures small { IfSome result (λ bytes. vec_len (arc_value bytes) ≤ 196623) }
    {
        if self.key != key_of(window) || !self.at.begins(at) {
            return None;
        }
        if !still_right(older, newer, self.number, number, window) {
            return None;
        }
        Arc::try_clone(&self.bytes).ok()
    }
}

// Whether the picture of a window at one version is that at version `number`, as the damage of the
// last changes tells. A newer picture is not.
fn still_right(
    older: &[Damage],
    newer: &[Damage],
    kept_at: u64,
    number: u64,
    window: &Window,
) -> bool
    ensures { IsTrue result → IsStillRight (older.now ++ newer.now) kept_at number window.now }
{
    let told = older.len().saturating_add(newer.len());
    if number < kept_at || number - kept_at > told as u64 {
        return false;
    }
    let covered = window.covered();
    older.iter().chain(newer).all(|damage| damage.number <= kept_at
        || misses(&damage.area, &covered))
}

fn misses(area: &PageBox, covered: &PageBox) -> bool
    ensures { result ≡ is_empty_box (meet_of area.now covered.now) }
{
    area.meet(covered).is_empty()
}
