//! Entries: what events come to.

ghost use Rattle.std.specs.Prelude.{◌≡◌};

use canvas_plane::Window;
use std::marker::Model;

/// The bytes of a picture, or of some rows of it: pixels from the left, rows from the top, three
/// bytes for each pixel, red, green and blue. It is seen as the list of these bytes.
#[derive(Debug, Drop)]
pub struct Raster {
    bytes: Vec<u8>,
}

impl Model for Raster {
    ghost use Rattle.std.specs.Prelude.{ℕ, List};

    ghost Value = { List ℕ };

    ghost view = { λ raster. raster.bytes.items };
}

impl Raster {
    /// These bytes.
    pub(crate) fn from_vec(bytes: Vec<u8>) -> Raster
        ensures { result ≡ bytes.items }
    {
        Raster { bytes }
    }

    /// The bytes, three for each pixel.
    pub fn bytes(&self) -> &[u8]
        ensures { result.now ≡ self.now }
    {
        self.bytes.as_slice()
    }
}

/// What an event came to.
#[derive(Debug, Drop)]
pub enum Entry {
    /// The edit was accepted.
    Edited {
        /// How many edits are accepted then.
        version: u64,
        /// The id of the shape that it made, if it made one.
        id: Option<u32>,
    },
    /// The edit was refused, and changed nothing.
    Refused {
        /// The number of the refusal.
        code: u16,
    },
    /// The picture that the seat asked for will show this version.
    Looked {
        version: u64,
    },
    /// The strip was painted.
    Painted,
    /// The picture of a window.
    Tile {
        /// The version that it shows.
        version: u64,
        window: Window,
        raster: Raster,
    },
    /// Nothing was done.
    Skipped,
}

/// The entries of a list of events, one for each, seen as their list.
#[derive(Debug, Drop)]
pub struct Transcript {
    entries: Vec<Entry>,
}

impl Model for Transcript {
    ghost use Rattle.std.specs.Prelude.{List};
    ghost use Rattle.canvas_world.specs.declared.entry.Entry.{Entry};

    ghost Value = { List Entry };

    ghost view = { λ transcript. transcript.entries.items };
}

impl Transcript {
    /// These entries.
    pub(crate) fn from_vec(entries: Vec<Entry>) -> Transcript
        ensures { result ≡ entries.items }
    {
        Transcript { entries }
    }

    /// The entries, in the order of the events.
    pub fn entries(&self) -> &[Entry]
        ensures { result.now ≡ self.now }
    {
        self.entries.as_slice()
    }
}
