//! Events.

ghost use Rattle.std.specs.Prelude.{◌≡◌};
ghost use Rattle.canvas_world.specs.Transcript.{seat_of};

use canvas_doc::Edit;
use canvas_plane::Window;

/// One step of one seat. Seats are numbered from 0.
#[derive(Drop)]
pub enum Event {
    /// The seat edits the document.
    Edit { seat: u32, edit: Edit },
    /// The seat asks for the picture of a window, at the version that the document has then.
    Look { seat: u32, window: Window },
    /// Strip `k` of `n` of that picture is painted; strips are counted from 0 at the top.
    Strip { seat: u32, k: u32, n: u32 },
    /// The picture is handed out.
    Answer { seat: u32 },
}

impl Event {
    /// Whose step it is.
    pub fn seat(&self) -> u32
        ensures { result ≡ seat_of self.now }
    {
        match self {
            Event::Edit { seat, .. } => *seat,
            Event::Look { seat, .. } => *seat,
            Event::Strip { seat, .. } => *seat,
            Event::Answer { seat } => *seat,
        }
    }
}
