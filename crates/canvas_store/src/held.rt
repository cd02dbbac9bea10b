//! A lease, and what is kept of its document.
ghost use Rattle.std.specs.Prelude.{◌≡◌, ◌++◌, [], ◌∷◌, codes, decimal, length, IfOk, IfSome, OnOk};
ghost use Rattle.std.specs.Io.KnownBytes.{Consumes};
ghost use Rattle.canvas_store.specs.Answers.{held_message, held_text};

use crate::answer::{Line, read_line, read_whole, refusal_of};
use crate::fault::StoreFault;
use itoa::Buffer;
use std::alloc::{AllocError, Global};
use std::io::Read;

/// The line of a lease.
#[derive(Clone, Copy, Debug, PartialEq, Eq)]
pub(crate) struct HeldLine {
    /// The number of the lease, higher than those of all before.
    pub epoch: u64,
    /// The newest generation; 0 where there is no document yet.
    pub generation: u64,
    /// How many bytes its opening has.
    pub opening: u64,
    /// How many bytes its journal has.
    pub journal: u64,
}

/// A lease of a document, and what the store keeps of it.
#[derive(Drop)]
pub struct Held {
    /// The number of the lease, higher than those of all before.
    pub epoch: u64,
    /// The newest generation; 0 where there is no document yet.
    pub generation: u64,
    /// The saved document with which it begins.
    pub opening: Vec<u8>,
    /// Its journal.
    pub journal: Vec<u8>,
}

/// Reads a lease, and what is kept of the document.
pub(crate) fn read_held<R: Read>(alloc: Global, reader: &mut R) -> Result<Held, StoreFault>
    ensures { IfOk result (λ held. Consumes (R.remaining reader.old) (R.remaining reader.new)
        (held_message held.epoch held.generation held.opening.items held.journal.items)) }
{
    let line = read_line(reader)?;
    let Some(known) = held_line(alloc, &line)? else {
        return Err(refusal_of(&line));
    };
    let opening = read_bytes(alloc, reader, known.opening)?;
    let journal = read_bytes(alloc, reader, known.journal)?;
    Ok(Held {
        epoch: known.epoch,
        generation: known.generation,
        opening,
        journal,
    })
}

// Reads so many bytes.
fn read_bytes<R: Read>(alloc: Global, reader: &mut R, len: u64) -> Result<Vec<u8>, StoreFault>
    ensures bytes { IfOk result
        (λ bytes. Consumes (R.remaining reader.old) (R.remaining reader.new) bytes.items) }
    ensures len { IfOk result (λ bytes. length bytes.items ≡ len) }
{
    let mut bytes = vec![in alloc; 0u8; len as usize]?;
    read_whole(reader, &mut bytes)?;
    Ok(bytes)
}

// The numbers of a line, where it is that of a lease and nothing else.
fn held_line(alloc: Global, line: &Line) -> Result<Option<HeldLine>, AllocError>
    ensures { IfOk result (λ found. IfSome found (λ h. line.now.bytes ++ 10 ∷ [] ≡ held_text h)) }
{
    let Some(found) = numbers_in(line.as_str()) else {
        return Ok(None);
    };
    let text = text_of(alloc, &found)?;
    if text.as_slice() == line.as_bytes() {
        Ok(Some(found))
    } else {
        Ok(None)
    }
}

// The four numbers behind the first word of a line.
fn numbers_in(line: &str) -> Option<HeldLine> {
    let mut words = line.split(' ').skip(1);
    let epoch = words.next()?.parse::<u64>().ok()?;
    let generation = words.next()?.parse::<u64>().ok()?;
    let opening = words.next()?.parse::<u64>().ok()?;
    let journal = words.next()?.parse::<u64>().ok()?;
    Some(HeldLine {
        epoch,
        generation,
        opening,
        journal,
    })
}

// The line of a lease, without its LF.
fn text_of(alloc: Global, held: &HeldLine) -> Result<Vec<u8>, AllocError>
    ensures { IfOk result (λ text. text.items ++ 10 ∷ [] ≡ held_text held.now) }
{
    let mut text = Vec::from_slice(alloc, b"held ")?;
    push_number(&mut text, held.epoch)?;
    text.extend_from_slice(b" ")?;
    push_number(&mut text, held.generation)?;
    text.extend_from_slice(b" ")?;
    push_number(&mut text, held.opening)?;
    text.extend_from_slice(b" ")?;
    push_number(&mut text, held.journal)?;
    Ok(text)
}

fn push_number(text: &mut Vec<u8>, number: u64) -> Result<(), AllocError>
    ensures { OnOk result (text.new.items ≡ text.old.items ++ decimal number) }
{
    text.extend_from_slice(Buffer::new().format(number).as_bytes())
}
