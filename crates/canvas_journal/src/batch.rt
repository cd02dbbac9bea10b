//! Lines that are to be written together.
ghost use Rattle.std.specs.Prelude.{◌≡◌, ◌≤◌, ◌<◌, ◌+◌, ◌-◌, ◌^◌, ◌++◌, [], ◌∷◌, length, take, drop, vec_len, IfOk, OnOk, OnErr, MatchBool};
ghost use Rattle.std.specs.List.{AllByRecursion};
ghost use Rattle.canvas_journal.specs.Lines.{IsLine, text};

use std::alloc::{AllocError, Global};
use std::marker::Model;

/// Lines that are to be written together. Contracts see it as a list of lines.
#[derive(Drop)]
pub struct Batch {
    // The lines as they stand in a file, and a closed gate.
    bytes: Vec<u8>,
}

impl Model for Batch {
    ghost use Rattle.std.specs.Prelude.{◌≡◌, List, ℕ, [], ◌∷◌, ◌++◌};
    ghost use Rattle.canvas_journal.specs.Lines.{recovered, text};

    ghost Value = { List (List ℕ) };

    ghost view = { λ b. recovered b.bytes.items };

    ghost invariant = { λ b. b.bytes.items ≡ text (recovered b.bytes.items) ++ 10 ∷ [] };
}

impl Batch {
    /// A batch with no lines.
    pub fn new(alloc: Global) -> Result<Batch, AllocError>
        ensures { IfOk result (λ b. b ≡ []) }
    {
        let bytes = vec![in alloc; b'\n'; 1]?;
        Ok(Batch { bytes })
    }

    /// Adds a line, which has no LF.
    pub fn push(&mut self, line: &[u8]) -> Result<(), AllocError>
        requires { IsLine line.now }
        ensures added { OnOk result (self.new ≡ self.old ++ line.now ∷ []) }
        ensures same { OnErr result (self.new ≡ self.old) }
    {
        append(&mut self.bytes, line)
    }

    /// Takes all lines out.
    pub fn clear(&mut self)
        ensures { self.new ≡ [] }
    {
        self.bytes.truncate(1);
        self.bytes[0] = b'\n';
    }

    /// Whether there is no line.
    pub fn is_empty(&self) -> bool
        ensures { MatchBool result (self.now ≡ []) (0 < length self.now) }
    {
        self.bytes.len() == 1
    }

    // How many bytes the lines take in a file.
    pub(crate) fn len(&self) -> usize
        ensures len { result ≡ length (text self.now) }
        ensures fits { result < 2 ^ 63 }
        ensures lines { AllByRecursion IsLine self.now }
    {
        self.bytes.len() - 1
    }

    // The blank of the first line, if there is one.
    pub(crate) fn gate(&self) -> &[u8]
        ensures { result.now ≡ take 1 (text self.now) }
    {
        if self.bytes.len() == 1 {
            &[]
        } else {
            &self.bytes[..1]
        }
    }

    // What stands behind the first blank, and a closed gate; nothing where there is no line.
    pub(crate) fn body(&self) -> &[u8]
        ensures { result.now ≡ drop 1 (text self.now ++ 10 ∷ []) }
    {
        &self.bytes[1..]
    }
}

// Puts a line in the place of the closed gate, and a closed gate behind it.
fn append(bytes: &mut Vec<u8>, line: &[u8]) -> Result<(), AllocError>
    requires { 0 < length bytes.old.items }
    ensures added { OnOk result (bytes.new.items
        ≡ take (length bytes.old.items - 1) bytes.old.items ++ 32 ∷ line.now ++ 10 ∷ 10 ∷ []) }
    ensures same { OnErr result (bytes.new.items ≡ bytes.old.items) }
{
    let len = bytes.len();
    if let Err(fault) = extend(bytes, line) {
        bytes.truncate(len);
        return Err(fault);
    }
    bytes[len - 1] = b' ';
    Ok(())
}

// Puts a line and a closed gate behind the bytes. They begin as before also where memory is refused half way.
fn extend(bytes: &mut Vec<u8>, line: &[u8]) -> Result<(), AllocError>
    ensures added { OnOk result (bytes.new.items ≡ bytes.old.items ++ line.now ++ 10 ∷ 10 ∷ []) }
    ensures kept { take (vec_len bytes.old) bytes.new.items ≡ bytes.old.items }
{
    bytes.extend_from_slice(line)?;
    bytes.extend_from_slice(b"\n\n")
}
