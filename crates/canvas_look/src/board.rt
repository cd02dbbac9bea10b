//! What a board is: a document that one caller edits and looks at.

ghost use denote.Param.Send.{IsSync};
ghost use Rattle.canvas_look.specs.Seen.{Seen};
ghost use Rattle.canvas_look.specs.Steps.{Edits, Looks, Paints, Saves};

use crate::answers::{Dot, Edited, Picture, Saved};
use crate::fault::BoardFault;
use canvas_plane::Window;
use canvas_record::Edit;
use std::sync::Wait;
use std::thread::Threads;

/// A document that is edited and looked at, by one caller alone or beside others.
///
/// A board is seen as the document that it was opened with, the limit of accepted changes, the
/// accepted changes that it has told of (its front), and whether it is alone. Calls change the
/// front alone, and a front only grows.
pub trait Board {
    ghost seen: { Self → Seen };

    /// Makes an edit, or says why it is refused. A refused edit leaves the document as it was.
    fn edit<H: Wait>(&mut self, rt: &H, edit: &Edit) -> Result<Edited, BoardFault>
        ensures { Edits (seen self.old) edit.now result (seen self.new) };

    /// The P6 file of a window, painted by 1 to 16 workers.
    fn picture<H: Threads + Wait + Sync>(
        &mut self,
        rt: &H,
        window: &Window,
        workers: u32,
    ) -> Result<Picture, BoardFault>
        requires { IsSync H.row }
        ensures { Paints (seen self.old) window.now workers result (seen self.new) };

    /// The colour of a pixel of the page.
    fn point(&mut self, x: i32, y: i32) -> Result<Dot, BoardFault>
        ensures { Looks (seen self.old) x y result (seen self.new) };

    /// The text of the saved document.
    fn saved(&mut self) -> Result<Saved, BoardFault>
        ensures { Saves (seen self.old) result (seen self.new) };
}
