//! The windows that were asked for.

use crate::window_key::WindowKey;
use lru::LruCache;
use std::alloc::Global;
use std::num::NonZeroUsize;

/// How many windows are remembered.
const MOST_ASKED: usize = 64;

/// The windows that were last asked for.
#[derive(Drop)]
pub(crate) struct Asked {
    // There once a window was asked for.
    windows: Option<LruCache<WindowKey, ()>>,
}

impl Asked {
    /// No window yet.
    pub(crate) fn new() -> Asked {
        Asked { windows: None }
    }

    /// Whether a window was asked for before, as far as is remembered. From now on it was, unless
    /// memory for it can't be had.
    pub(crate) fn again(&mut self, alloc: Global, key: WindowKey) -> bool {
        if self.windows.is_none() {
            self.windows = opened(alloc);
        }
        match &mut self.windows {
            Some(windows) => matches!(windows.put(key, ()), Ok(Some(()))),
            None => false,
        }
    }
}

fn opened(alloc: Global) -> Option<LruCache<WindowKey, ()>> {
    LruCache::new(alloc, NonZeroUsize::new(MOST_ASKED)?).ok()
}
