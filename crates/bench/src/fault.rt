//! Why the program ends early.

use canvas_code::OutOfMemory;
use canvas_doc::{Refusal, TreeFault};
use canvas_line::LineFault;
use canvas_paint::PaintFault;
use canvas_plane::WindowFault;
use canvas_saved::StoreFault;
use std::alloc::{AllocError, AllocFailed};
use std::io;

/// Why the program ends before all is timed.
#[derive(Clone, Copy, Debug, Drop)]
pub enum Fault {
    /// Memory could not be had.
    Memory,
    /// The clock, a file, or standard input or output failed.
    Io,
    /// An edit was refused.
    Refused,
    /// Records or a text are no document.
    NoDocument,
    /// A line could not be opened, or did not answer.
    Line,
    /// A picture was not painted.
    Picture,
    /// The arena of scenes could not be emptied.
    Arena,
}

impl From<AllocError> for Fault {
    fn from(_error: AllocError) -> Fault {
        Fault::Memory
    }
}

impl<T: Drop> From<AllocFailed<T>> for Fault {
    fn from(_failed: AllocFailed<T>) -> Fault {
        Fault::Memory
    }
}

impl From<OutOfMemory> for Fault {
    fn from(_error: OutOfMemory) -> Fault {
        Fault::Memory
    }
}

impl From<io::Error> for Fault {
    fn from(_error: io::Error) -> Fault {
        Fault::Io
    }
}

impl From<Refusal> for Fault {
    fn from(_refusal: Refusal) -> Fault {
        Fault::Refused
    }
}

impl From<TreeFault> for Fault {
    fn from(_fault: TreeFault) -> Fault {
        Fault::NoDocument
    }
}

impl From<StoreFault> for Fault {
    fn from(_fault: StoreFault) -> Fault {
        Fault::NoDocument
    }
}

impl From<LineFault> for Fault {
    fn from(_fault: LineFault) -> Fault {
        Fault::Line
    }
}

impl From<PaintFault> for Fault {
    fn from(_fault: PaintFault) -> Fault {
        Fault::Picture
    }
}

impl From<WindowFault> for Fault {
    fn from(_fault: WindowFault) -> Fault {
        Fault::Picture
    }
}
