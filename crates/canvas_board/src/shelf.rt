//! Pictures that are kept.

ghost use Rattle.std.specs.Prelude.{◌≡◌, ◌≤◌, ◌++◌, [], IfSome, length, vec_len};
ghost use Rattle.std.specs.Arc.{arc_value};
ghost use Rattle.canvas_record.specs.History.{AllFit};
ghost use Rattle.canvas_board.specs.declared.shelf.TheConstants.{MOST_OF_SHELF};
ghost use Rattle.canvas_board.specs.Kept.{document_at, entries_of, key_of, CountsAt, HasRoom, IsEndOf, IsPictureOf};

use crate::asked::Asked;
use crate::kept::Kept;
use crate::window_key::{WindowKey, key_of};
use canvas_line::{Damage, Lines, Mark};
use canvas_plane::Window;
use lru::LruCache;
use std::alloc::Global;
use std::num::NonZeroUsize;
use std::sync::Arc;

/// Up to `most` pictures, by window. Where there is no room for one more, the one that was last
/// asked for longest ago goes.
#[derive(Drop)]
pub(crate) struct Shelf<B: Lines> {
    most: usize,
    // There once a picture was kept.
    cache: Option<LruCache<WindowKey, Kept<B>>>,
    ghost few: { most ≤ 256 },
    ghost room: { HasRoom most cache },
}

impl<B: Lines> Shelf<B> {
    /// No picture yet.
    pub(crate) fn new(most: usize) -> Shelf<B>
        requires { most ≤ 256 }
        ensures none { entries_of result.cache ≡ [] }
        ensures most { result.most ≡ most }
    {
        Shelf { most, cache: None }
    }

    /// The picture of a window at a mark with so many changes, where the one that is kept is still
    /// right, as the damage of the last changes tells. It then counts as kept at that mark.
    pub(crate) fn answer(
        &mut self,
        at: Mark<B>,
        number: u64,
        older: &[Damage],
        newer: &[Damage],
        window: &Window,
    ) -> Option<Arc<Vec<u8>, Global>>
        requires number { number ≡ length at.front }
        requires fits { AllFit at.opening at.front }
        requires told { IsEndOf (older.now ++ newer.now) at.opening at.front }
        ensures right { IfSome result
            (λ bytes. IsPictureOf (document_at at) (key_of window.now) (arc_value bytes).items) }
        ensures small { IfSome result (λ bytes. vec_len (arc_value bytes) ≤ 196623) }
        ensures counts { IfSome result (λ _. CountsAt (entries_of self.new.cache) window.now at) }
        ensures most { self.new.most ≡ self.old.most }
    {
        match &mut self.cache {
            Some(cache) => answered(cache, at, number, older, newer, window),
            None => None,
        }
    }

    /// Keeps the picture of a window, if there is room for it and memory for that can be had. Gives
    /// what goes for it.
    pub(crate) fn keep(
        &mut self,
        alloc: Global,
        key: WindowKey,
        kept: Kept<B>,
    ) -> Option<(WindowKey, Kept<B>)>
        ensures { self.new.most ≡ self.old.most }
    {
        make_room(&mut self.cache, alloc, self.most);
        match &mut self.cache {
            Some(cache) => put_in(cache, key, kept),
            None => Some((key, kept)),
        }
    }
}

/// How many pictures a shelf for many boards has at most.
pub(crate) const MOST_OF_SHELF: usize = 10;

/// A shelf for many boards, with few pictures. A window is kept from its second asking on.
#[derive(Drop)]
pub(crate) struct CommonShelf<B: Lines> {
    pub(crate) pictures: Shelf<B>,
    // The windows that were asked for.
    asked: Asked,
    ghost few: { pictures.most ≤ MOST_OF_SHELF },
}

impl<B: Lines> CommonShelf<B> {
    /// No picture yet, and up to so many.
    pub(crate) fn new(most: usize) -> CommonShelf<B>
        requires { most ≤ MOST_OF_SHELF }
        ensures { result.pictures.most ≡ most }
    {
        CommonShelf {
            pictures: Shelf::new(most),
            asked: Asked::new(),
        }
    }

    /// Keeps the picture of a window that was asked for before, as `Shelf::keep` does. Gives what
    /// goes for it.
    pub(crate) fn keep(
        &mut self,
        alloc: Global,
        key: WindowKey,
        kept: Kept<B>,
    ) -> Option<(WindowKey, Kept<B>)>
        ensures { self.new.pictures.most ≡ self.old.pictures.most }
    {
        if self.asked.again(alloc, key) {
            self.pictures.keep(alloc, key, kept)
        } else {
            Some((key, kept))
        }
    }
}

// Makes room for pictures where there is none yet.
fn make_room<B: Lines>(cache: &mut Option<LruCache<WindowKey, Kept<B>>>, alloc: Global, most: usize)
    requires { HasRoom most cache.old }
    ensures same { entries_of cache.new ≡ entries_of cache.old }
    ensures room { HasRoom most cache.new }
{
    match cache {
        Some(_) => {}
        None => *cache = opened(alloc, most),
    }
}

// Room for so many pictures, unless there are to be none or memory can't be had.
fn opened<B: Lines>(alloc: Global, most: usize) -> Option<LruCache<WindowKey, Kept<B>>>
    ensures none { entries_of result ≡ [] }
    ensures room { HasRoom most result }
{
    match NonZeroUsize::new(most) {
        Some(most) => LruCache::new(alloc, most).ok(),
        None => None,
    }
}

fn answered<B: Lines>(
    cache: &mut LruCache<WindowKey, Kept<B>>,
    at: Mark<B>,
    number: u64,
    older: &[Damage],
    newer: &[Damage],
    window: &Window,
) -> Option<Arc<Vec<u8>, Global>>
    requires number { number ≡ length at.front }
    requires fits { AllFit at.opening at.front }
    requires told { IsEndOf (older.now ++ newer.now) at.opening at.front }
    ensures right { IfSome result
        (λ bytes. IsPictureOf (document_at at) (key_of window.now) (arc_value bytes).items) }
    ensures small { IfSome result (λ bytes. vec_len (arc_value bytes) ≤ 196623) }
    ensures counts { IfSome result (λ _. CountsAt cache.new.entries window.now at) }
    ensures room { cache.new.cap ≡ cache.old.cap }
{
    let key = key_of(window);
    let bytes = match cache.peek(&key) {
        Some(kept) => kept.bytes_at(&at, number, older, newer, window)?,
        None => return None,
    };
    let again = Arc::try_clone(&bytes).ok()?;
    let kept = Kept::new(at, number, window, again)?;
    // The window is there, so this takes no memory.
    match cache.put(key, kept) {
        Ok(_) => Some(bytes),
        Err(_) => None,
    }
}

// Puts a picture in. Gives that of the window before, or the one that goes for it; for want of
// memory the new one.
fn put_in<B: Lines>(
    cache: &mut LruCache<WindowKey, Kept<B>>,
    key: WindowKey,
    kept: Kept<B>,
) -> Option<(WindowKey, Kept<B>)>
    ensures room { cache.new.cap ≡ cache.old.cap }
{
    match cache.push(key, kept) {
        Ok(gone) => gone,
        Err(failed) => Some(failed.value),
    }
}
