//! What is asked of a file.

/// A file of which something can be asked. Each call says whether it was done.
pub trait Backing {
    /// Writes the bytes at this place.
    fn write(&mut self, at: usize, bytes: &[u8]) -> bool;

    /// Has all that was written put on the disk.
    fn sync(&mut self) -> bool;

    /// Writes a new file with these bytes beside this one, in place of any that is there. The
    /// first `same` of them are those that this one has.
    fn write_new(&mut self, same: usize, bytes: &[u8]) -> bool;

    /// Has the new file put on the disk.
    fn sync_new(&mut self) -> bool;

    /// Gives the new file the name of this one, and has that put on the disk. From then on it is
    /// this one.
    fn take_name(&mut self) -> bool;
}
