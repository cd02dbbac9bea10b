//! The pictures that a board keeps.

ghost use Rattle.std.specs.Prelude.{◌≡◌, ◌≤◌, ◌^◌, IfSome, vec_len};
ghost use Rattle.std.specs.Arc.{arc_value};
ghost use Rattle.canvas_record.specs.Contents.{IsWellFormed};
ghost use Rattle.canvas_line.specs.Standing.{IsVersionOf};
ghost use Rattle.canvas_look.specs.Raster.{file_of};

use crate::gallery::Gallery;
use crate::kept::Kept;
use crate::shelf::Shelf;
use crate::window_key::key_of;
use canvas_line::{Lines, Seat, Version};
use canvas_plane::Window;
use std::alloc::Global;
use std::sync::Arc;

/// The pictures that a board was asked for last: its own, or those of a gallery.
#[derive(Drop)]
pub(crate) enum KeptPictures<B: Lines> {
    /// The board alone has them. The damage that a version tells of decides alone which are still
    /// right.
    Own(Shelf<B>),
    /// The board shares them with others.
    Common(Gallery<B>),
}

impl<B: Lines> KeptPictures<B> {
    /// The picture of a window at the version that a seat has looked at, where one is kept that is
    /// still right.
    pub(crate) fn answer(
        &mut self,
        alloc: Global,
        seat: &Seat<B>,
        version: &Version,
        window: &Window,
    ) -> Option<Arc<Vec<u8>, Global>>
        requires { IsVersionOf seat.now.opening seat.now.limit seat.now.front version.now }
        ensures shows { IfSome result
            (λ bytes. (arc_value bytes).items ≡ file_of version.now.document window.now) }
        ensures small { IfSome result (λ bytes. vec_len (arc_value bytes) ≤ 2 ^ 40) }
    {
        match self {
            KeptPictures::Own(shelf) => {
                let (older, newer) = version.recent.as_slices();
                shelf.answer(seat.mark(), version.number, older, newer, window)
            }
            KeptPictures::Common(gallery) => gallery.answer(alloc, seat, version, window),
        }
    }

    /// Has a gallery remember the damage of the last changes up to the version that a seat has
    /// looked at, unless another board has it in hand.
    pub(crate) fn remember(&self, alloc: Global, seat: &Seat<B>, version: &Version)
        requires { IsVersionOf seat.now.opening seat.now.limit seat.now.front version.now }
    {
        if let KeptPictures::Common(gallery) = self {
            gallery.remember(alloc, seat, version);
        }
    }

    /// Keeps the picture of a window at the version that a seat has looked at, if there is room for
    /// it and no other board has its shelf in hand.
    pub(crate) fn keep(
        &mut self,
        alloc: Global,
        seat: &Seat<B>,
        version: &Version,
        window: &Window,
        bytes: &Arc<Vec<u8>, Global>,
    )
        requires at { IsVersionOf seat.now.opening seat.now.limit seat.now.front version.now }
        requires well_formed { IsWellFormed version.now.document }
        requires shows { (arc_value bytes.now).items ≡ file_of version.now.document window.now }
    {
        let Ok(bytes) = Arc::try_clone(bytes) else {
            return;
        };
        let Some(kept) = Kept::new(seat.mark(), version.number, window, bytes) else {
            return;
        };
        let key = key_of(window);
        match self {
            KeptPictures::Own(shelf) => drop(shelf.keep(alloc, key, kept)),
            KeptPictures::Common(gallery) => gallery.keep(alloc, key, kept),
        }
    }
}
