//! A store at the other end of a connection.
ghost use Rattle.std.specs.Prelude.{◌≡◌, IfOk, OnOk};
ghost use Rattle.std.specs.Io.KnownBytes.{Appends, Consumes, Keeps};
ghost use Rattle.canvas_store.specs.Messages.{hold_text, lease_text, begin_text, write_text, cut_text, sync_text};
ghost use Rattle.canvas_store.specs.Answers.{held_message, lasts_text, ok_text};

use crate::answer::{read_lasts, read_line, read_unasked, refusal_of};
use crate::fault::StoreFault;
use crate::head::{begin_head, cut_head, epoch_tail, write_head};
use crate::held::{Held, read_held};
use std::alloc::Global;
use std::io;
use std::io::{ErrorKind, Read, Write};

/// A store at the other end of a connection, which holds the lease of one document at most.
///
/// **What a store promises**: once it has answered `ok` to `begin` or `sync`, what they were about
/// is kept, in the order in which it was sent: whoever holds the document next is given it,
/// whatever crashes meanwhile. What was sent and not answered may be kept whole or not at all.
/// Another that holds the document ends this lease: no `ok` comes any more.
#[derive(Drop)]
pub struct Store<R: Read, W: Write> {
    /// From where its answers come.
    pub answers: R,
    /// Where to it is sent.
    pub messages: W,
}

impl<R: Read, W: Write> Store<R, W> {
    /// Asks for the lease of the document of a name, and for what is kept of it.
    pub fn hold(&mut self, alloc: Global, name: &str) -> Result<Held, StoreFault>
        ensures sent { OnOk result
            (Appends (W.contents self.old.messages) (W.contents self.new.messages)
            (hold_text name.now)) }
        ensures read { IfOk result
            (λ held. Consumes (R.remaining self.old.answers) (R.remaining self.new.answers)
            (held_message held.epoch held.generation held.opening.items held.journal.items)) }
    {
        self.ask(name)?;
        read_held(alloc, &mut self.answers)
    }

    /// Begins a generation with a saved document. At `Ok` the store keeps it, and an empty journal.
    pub fn begin(&mut self, generation: u32, opening: &[u8]) -> Result<(), StoreFault>
        ensures sent { OnOk result
            (Appends (W.contents self.old.messages) (W.contents self.new.messages)
            (begin_text generation opening.now)) }
        ensures kept { OnOk result
            (Consumes (R.remaining self.old.answers) (R.remaining self.new.answers) ok_text) }
    {
        self.send(begin_head(generation, opening.len()).as_bytes())?;
        self.send(opening)?;
        self.confirm()
    }

    /// Notes that bytes stand at a place of the journal, over what was there and past the end.
    pub fn write(&mut self, place: usize, bytes: &[u8]) -> Result<(), StoreFault>
        ensures sent { OnOk result
            (Appends (W.contents self.old.messages) (W.contents self.new.messages)
            (write_text place bytes.now)) }
    {
        self.send(write_head(place, bytes.len()).as_bytes())?;
        self.send(bytes)
    }

    /// Notes that the journal has a length.
    pub fn cut(&mut self, len: usize) -> Result<(), StoreFault>
        ensures sent { OnOk result
            (Appends (W.contents self.old.messages) (W.contents self.new.messages) (cut_text len)) }
    {
        self.send(cut_head(len).as_bytes())
    }

    /// Has the store keep all that was noted since the last time. At `Ok` it does.
    pub fn sync(&mut self) -> Result<(), StoreFault>
        ensures sent { OnOk result
            (Appends (W.contents self.old.messages) (W.contents self.new.messages) sync_text) }
        ensures kept { OnOk result
            (Consumes (R.remaining self.old.answers) (R.remaining self.new.answers) ok_text) }
    {
        self.send(b"sync\n")?;
        self.confirm()
    }

    /// Whether the store stands, over a connection whose reads don't wait: it has neither ended the
    /// connection nor said that it keeps no more. It is called while no answer is awaited.
    pub fn heed(&mut self) -> Result<(), StoreFault>
        ensures unread { OnOk result
            (Keeps (R.remaining self.old.answers) (R.remaining self.new.answers)) }
        ensures unsent { self.new.messages ≡ self.old.messages }
    {
        read_unasked(&mut self.answers)
    }

    /// Asks for how long the lease of a document, by its name, lasts under an epoch, over a connection that holds no document.
    pub fn ask_lease(&mut self, document: &str, epoch: u64) -> Result<(), StoreFault>
        ensures sent { OnOk result
            (Appends (W.contents self.old.messages) (W.contents self.new.messages)
            (lease_text document.now epoch)) }
        ensures unread { OnOk result (self.new.answers ≡ self.old.answers) }
    {
        self.send(b"lease ")?;
        self.send(document.as_bytes())?;
        self.send(epoch_tail(epoch).as_bytes())
    }

    /// For how many milliseconds the lease that was asked after lasts, from when it was asked.
    pub fn lasts(&mut self) -> Result<u64, StoreFault>
        ensures read { IfOk result
            (λ time. Consumes (R.remaining self.old.answers) (R.remaining self.new.answers)
            (lasts_text time)) }
        ensures unsent { self.new.messages ≡ self.old.messages }
    {
        read_lasts(&mut self.answers)
    }

    // Asks for the document of a name.
    fn ask(&mut self, name: &str) -> Result<(), StoreFault>
        ensures sent { OnOk result
            (Appends (W.contents self.old.messages) (W.contents self.new.messages)
            (hold_text name.now)) }
        ensures unread { OnOk result (self.new.answers ≡ self.old.answers) }
    {
        self.send(b"hold ")?;
        self.send(name.as_bytes())?;
        self.send(b"\n")
    }

    // Reads the answer to a message that the store keeps.
    fn confirm(&mut self) -> Result<(), StoreFault>
        ensures kept { OnOk result
            (Consumes (R.remaining self.old.answers) (R.remaining self.new.answers) ok_text) }
        ensures unsent { self.new.messages ≡ self.old.messages }
    {
        let line = read_line(&mut self.answers)?;
        if line.as_str() == "ok" {
            Ok(())
        } else {
            Err(refusal_of(&line))
        }
    }

    // Sends bytes.
    fn send(&mut self, bytes: &[u8]) -> Result<(), StoreFault>
        ensures sent { OnOk result
            (Appends (W.contents self.old.messages) (W.contents self.new.messages) bytes.now) }
        ensures unread { OnOk result (self.new.answers ≡ self.old.answers) }
    {
        match self.messages.write_all(bytes) {
            Ok(()) => Ok(()),
            Err(error) => Err(self.why(error)),
        }
    }

    // Why nothing more can be sent. A store that has ended the connection may have said why.
    fn why(&mut self, error: io::Error) -> StoreFault {
        if error.kind() != ErrorKind::BrokenPipe {
            return StoreFault::Io(error);
        }
        match read_line(&mut self.answers) {
            Ok(line) => refusal_of(&line),
            Err(_) => StoreFault::Ended,
        }
    }
}
