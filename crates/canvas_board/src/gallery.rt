//! The pictures that the boards of a line share.

ghost use Rattle.std.specs.Prelude.{◌≡◌, ◌≤◌, ◌^◌, IfOk, IfSome, vec_len};
ghost use Rattle.std.specs.Arc.{arc_value};
ghost use Rattle.canvas_line.specs.Standing.{IsVersionOf};
ghost use Rattle.canvas_board.specs.declared.gallery.TheConstants.{MOST_SHELVES};
ghost use Rattle.canvas_board.specs.declared.shelf.TheConstants.{MOST_OF_SHELF};
ghost use Rattle.canvas_look.specs.Raster.{file_of};

use crate::damage_log::DamageLog;
use crate::kept::{Kept, MOST_PICTURE_BYTES};
use crate::shelf::{CommonShelf, MOST_OF_SHELF};
use crate::window_key::{WindowKey, key_of};
use canvas_line::{Lines, Mark, Seat, Version};
use canvas_plane::Window;
use std::alloc::{AllocError, Global};
use std::hash::{BuildHasher, BuildHasherDefault, FoldHasher};
use std::sync::{Arc, Mutex};

/// The most bytes that the pictures of a gallery for many boards have.
pub const MOST_GALLERY_BYTES: usize = 32_000_000;

/// How many shelves such a gallery has at most.
const MOST_SHELVES: usize = 16;

const _: () = prove!(MOST_SHELVES * MOST_OF_SHELF * MOST_PICTURE_BYTES <= MOST_GALLERY_BYTES);

/// The pictures that many boards of a line were asked for last. Nobody waits for them: where another
/// board has a shelf in hand, a picture is painted.
#[derive(Drop)]
pub struct Gallery<B: Lines> {
    // There unless no picture is to be kept, or memory for it could not be had.
    hall: Option<Arc<Hall<B>, Global>>,
}

/// The shelves of a gallery, and the damage of the last changes.
#[derive(Drop)]
struct Hall<B: Lines> {
    // A window's picture stands on the shelf that its hash tells.
    shelves: Vec<Mutex<CommonShelf<B>>>,
    hashing: BuildHasherDefault<FoldHasher>,
    // A log is in it once a board has looked.
    log: Mutex<Option<DamageLog<B>>>,
    ghost few: { vec_len shelves ≤ MOST_SHELVES },
}

impl<B: Lines> Gallery<B> {
    /// A gallery which may keep so many pictures, and no more than `MOST_GALLERY_BYTES` hold: those
    /// of windows that were asked for twice.
    pub fn of_many(alloc: Global, pictures: usize) -> Gallery<B> {
        let count = pictures.div_ceil(MOST_OF_SHELF).min(MOST_SHELVES);
        if count == 0 {
            return Gallery { hall: None };
        }
        match shelves_for_many(alloc, count, (pictures / count).min(MOST_OF_SHELF)) {
            Ok(shelves) => {
                let hall = Hall {
                    shelves,
                    hashing: BuildHasherDefault::new(),
                    log: Mutex::new(None),
                };
                Gallery {
                    hall: Arc::new(alloc, hall).ok(),
                }
            }
            Err(_) => Gallery { hall: None },
        }
    }

    /// The same, for one more board.
    pub fn again(&self) -> Gallery<B> {
        let hall = match &self.hall {
            Some(hall) => Arc::try_clone(hall).ok(),
            None => None,
        };
        Gallery { hall }
    }

    /// The picture of a window at the version that a seat has looked at, where one is kept that is
    /// still right.
    pub(crate) fn answer(
        &self,
        alloc: Global,
        seat: &Seat<B>,
        version: &Version,
        window: &Window,
    ) -> Option<Arc<Vec<u8>, Global>>
        requires { IsVersionOf seat.now.opening seat.now.limit seat.now.front version.now }
        ensures shows { IfSome result
            (λ bytes. (arc_value bytes).items ≡ file_of version.now.document window.now) }
        ensures small { IfSome result (λ bytes. vec_len (arc_value bytes) ≤ 2 ^ 40) }
    {
        let hall = self.hall.as_ref()?;
        hall.remember(alloc, seat.mark(), version);
        hall.answer(seat, version, window)
    }

    /// Remembers the damage of the last changes up to the version that a seat has looked at, unless
    /// another board has it in hand.
    pub(crate) fn remember(&self, alloc: Global, seat: &Seat<B>, version: &Version)
        requires { IsVersionOf seat.now.opening seat.now.limit seat.now.front version.now }
    {
        if let Some(hall) = &self.hall {
            hall.remember(alloc, seat.mark(), version);
        }
    }

    /// Keeps the picture of a window, unless another board has its shelf in hand.
    pub(crate) fn keep(&self, alloc: Global, key: WindowKey, kept: Kept<B>) {
        if let Some(hall) = &self.hall {
            hall.keep(alloc, key, kept);
        }
    }
}

impl<B: Lines> Hall<B> {
    // Has the damage of the last changes go on to a version, unless another board has it in hand.
    fn remember(&self, alloc: Global, at: Mark<B>, version: &Version)
        requires { IsVersionOf at.opening at.limit at.front version.now }
    {
        if let Some(mut log) = self.log.try_lock() {
            go_on(&mut *log, alloc, at, version);
        }
    }

    // The picture of a window that is kept, where the damage of the last 64 changes tells that it
    // is still right, or that of more.
    fn answer(
        &self,
        seat: &Seat<B>,
        version: &Version,
        window: &Window,
    ) -> Option<Arc<Vec<u8>, Global>>
        requires { IsVersionOf seat.now.opening seat.now.limit seat.now.front version.now }
        ensures shows { IfSome result
            (λ bytes. (arc_value bytes).items ≡ file_of version.now.document window.now) }
        ensures small { IfSome result (λ bytes. vec_len (arc_value bytes) ≤ 2 ^ 40) }
    {
        let number = version.number;
        let mut shelf = self.shelf_of(key_of(window))?.try_lock()?;
        let (older, newer) = version.recent.as_slices();
        let answer = shelf
            .pictures
            .answer(seat.mark(), number, older, newer, window);
        if answer.is_some() {
            return answer;
        }
        let guard = self.log.try_lock()?;
        let log = guard.as_ref()?;
        if !log.is_at(&seat.mark()) {
            return None;
        }
        let (older, newer) = log.as_slices();
        shelf
            .pictures
            .answer(seat.mark(), number, older, newer, window)
    }

    // Keeps a picture, unless another board has its shelf in hand.
    fn keep(&self, alloc: Global, key: WindowKey, kept: Kept<B>) {
        let Some(shelf) = self.shelf_of(key) else {
            return;
        };
        if let Some(mut guard) = shelf.try_lock() {
            let gone = guard.keep(alloc, key, kept);
            drop(guard);
            drop(gone);
        }
    }

    // The shelf on which the picture of a window stands.
    fn shelf_of(&self, key: WindowKey) -> Option<&Mutex<CommonShelf<B>>> {
        let hash = self.hashing.hash_one(key);
        let place = hash.checked_rem(self.shelves.len() as u64)?;
        self.shelves.get(place as usize)
    }
}

// Shelves for so many pictures each.
fn shelves_for_many<B: Lines>(
    alloc: Global,
    count: usize,
    pictures: usize,
) -> Result<Vec<Mutex<CommonShelf<B>>>, AllocError>
    requires { pictures ≤ MOST_OF_SHELF }
    ensures { IfOk result (λ shelves. vec_len shelves ≡ count) }
{
    let mut shelves = Vec::with_capacity(alloc, count)?;
    for _ in 0..count {
        shelves.push(Mutex::new(CommonShelf::new(pictures)))?;
    }
    Ok(shelves)
}

// Has the log go on to a version, or begin with it.
fn go_on<B: Lines>(log: &mut Option<DamageLog<B>>, alloc: Global, at: Mark<B>, version: &Version)
    requires { IsVersionOf at.opening at.limit at.front version.now }
{
    match log {
        Some(log) => log.go_on(at, version),
        None => *log = DamageLog::new(alloc, at, version).ok(),
    }
}
