//! The formats of saved documents.
ghost use Rattle.std.specs.Prelude.{◌≡◌, ◌≤◌};
ghost use Rattle.canvas_record.specs.Contents.{most_records};
ghost use Rattle.canvas_saved.specs.Formats.{format_numbered, most_of};

use canvas_record::MOST_RECORDS;

/// The most records of a saved document of format 1.
const MOST_OF_FORMAT_ONE: usize = 4_096;

/// A format of saved documents: how the members of a record stand, and how many records there are.
#[derive(Clone, Copy, Debug, PartialEq, Eq, Drop)]
pub enum Format {
    /// A record's parent and index are two of its members; at most 4,096 records.
    One,
    /// A record's place is one member, with the parent and the index; at most `MOST_RECORDS` records.
    Two,
}

impl Format {
    // The format of a number, if there is one.
    pub(crate) fn numbered(number: u32) -> Option<Format>
        ensures { result ≡ format_numbered number }
    {
        match number {
            1 => Some(Format::One),
            2 => Some(Format::Two),
            _ => None,
        }
    }

    // The most records of a saved document of this format.
    pub(crate) fn most_records(self) -> usize
        ensures value { result ≡ most_of self }
        ensures bounded { result ≤ most_records }
    {
        match self {
            Format::One => MOST_OF_FORMAT_ONE,
            Format::Two => MOST_RECORDS,
        }
    }
}

/// What stands beside the records of a saved document.
#[derive(Clone, Copy, Debug, PartialEq, Eq, Drop)]
pub(crate) struct Head {
    pub(crate) format: Format,
    pub(crate) next: u32,
}
