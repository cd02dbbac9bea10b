//! Why a text has no tape.

/// Why a text has no tape.
#[derive(Clone, Copy, Debug, PartialEq, Eq, Drop)]
pub enum TextFault {
    /// The text is not JSON.
    NotJson,
    /// The allocator refused memory, or the text has more than 4 GiB less 256 bytes.
    OutOfMemory,
}
