//! Windows as keys.

ghost use Rattle.std.specs.Prelude.{◌≡◌};
ghost use Rattle.canvas_board.specs.Kept.{key_of};

use canvas_plane::Window;

/// A window as the key of its picture.
#[derive(Clone, Copy, PartialEq, Eq, Hash)]
pub(crate) struct WindowKey {
    level: u8,
    x: i32,
    y: i32,
    w: u32,
    h: u32,
}

/// The key of a window.
pub(crate) fn key_of(window: &Window) -> WindowKey
    ensures { result ≡ key_of window.now }
{
    WindowKey {
        level: window.level(),
        x: window.x(),
        y: window.y(),
        w: window.w(),
        h: window.h(),
    }
}
