//! The steps by which a generation is made.

/// A step of making a generation in a folder.
#[derive(Clone, Copy, Debug, PartialEq, Eq)]
pub enum Step {
    /// Makes the generation's own folder, if it is not there.
    MakeFolder,
    /// Has the entry of that folder put on the disk.
    KeepFolder,
    /// Writes the opening under its temporary name.
    WriteOpening,
    /// Has the bytes of the opening put on the disk.
    KeepOpening,
    /// Gives the opening its name, over one that may be there.
    NameOpening,
    /// Has the names in the generation's folder put on the disk.
    KeepNames,
    /// Makes an empty journal.
    MakeJournal,
    /// Has the journal put on the disk.
    KeepJournal,
}
