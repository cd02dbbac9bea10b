//! Strips of a picture.

/// Strip `k` of `n` strips of a picture, counted from 0 at the top.
#[derive(Clone, Copy, Debug, PartialEq, Eq)]
pub(crate) struct Cut {
    pub(crate) k: u32,
    pub(crate) n: u32,
}
