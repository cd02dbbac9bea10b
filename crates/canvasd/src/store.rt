//! The store that keeps a document in place of the disk of this machine.

use crate::addresses::{Address, address_of};
use crate::fault::{Fault, Misfit};
use crate::lease::Lease;
use canvas_store::{Held, Store, StoreFault};
use std::alloc::Global;
use std::net::{Net, Shutdown};
use std::os::unix::net::UnixStream;
use std::sync::{Mutex, Wait};
use std::time::Clock;

/// A connection to a store, by which one document is held as long as it lives. One thread at a time
/// speaks over it.
#[derive(Drop)]
pub struct Link {
    stream: UnixStream,
    // How long the document is held, if the store says that.
    lease: Option<Lease>,
    // Why nothing more is kept, once that is so.
    fault: Mutex<Option<StoreFault>>,
}

impl Link {
    /// Connects to the store at an address, which is a unix socket.
    pub fn connect<H: Net>(rt: &H, address: &str) -> Result<Link, Fault> {
        Ok(Link {
            stream: connected(rt, address)?,
            lease: None,
            fault: Mutex::new(None),
        })
    }

    /// Waits for the lease of the document of a name. The answer is what the store keeps of it.
    pub fn hold(&self, alloc: Global, name: &str) -> Result<Held, Fault> {
        match self.store().hold(alloc, name) {
            Ok(held) => Ok(held),
            Err(fault) => Err(Fault::Store(fault)),
        }
    }

    /// Has the store say from now on how long the lease of a name lasts under an epoch, and says
    /// whether it knows that question.
    pub fn follow_lease<H: Net + Wait + Clock>(
        &mut self,
        rt: &H,
        alloc: Global,
        address: &str,
        name: &str,
        epoch: u64,
    ) -> Result<bool, Fault> {
        match Lease::open(rt, alloc, connected(rt, address)?, name, epoch) {
            Ok(lease) => {
                self.lease = lease;
                Ok(self.lease.is_some())
            }
            Err(fault) => Err(Fault::Store(fault)),
        }
    }

    /// Has the store keep a generation with its saved document, and an empty journal.
    pub fn begin<H: Wait>(&self, rt: &H, number: u32, opening: &[u8]) -> Result<(), Fault> {
        let mut fault = self.fault.lock(rt);
        note(&mut *fault, self.store().begin(number, opening));
        match *fault {
            Some(fault) => Err(Fault::StoreLost(fault)),
            None => Ok(()),
        }
    }

    /// Tells the store that bytes stand at a place of the journal, and says whether that could be.
    pub fn write<H: Wait>(&self, rt: &H, place: usize, bytes: &[u8]) -> bool {
        let mut fault = self.fault.lock(rt);
        note(&mut *fault, self.store().write(place, bytes))
    }

    /// Tells the store that the journal has a length, and says whether that could be.
    pub fn cut<H: Wait>(&self, rt: &H, len: usize) -> bool {
        let mut fault = self.fault.lock(rt);
        note(&mut *fault, self.store().cut(len))
    }

    /// Waits until the store keeps all that it was told, and says whether it does.
    pub fn sync<H: Wait>(&self, rt: &H) -> bool {
        let mut fault = self.fault.lock(rt);
        note(&mut *fault, self.store().sync())
    }

    /// Whether the store stands: it has neither ended the connection nor said that it keeps no more,
    /// and the lease lasts. While something is asked of it, the answer will tell the first.
    pub fn stands<H: Wait + Clock>(&self, rt: &H) -> bool {
        let stands = match self.fault.try_lock() {
            Some(mut fault) => note(&mut *fault, self.heed()),
            None => true,
        };
        match &self.lease {
            Some(lease) if stands && !lease.lasts(rt) => {
                // Whoever waits for an answer waits no longer.
                let _ = self.stream.shutdown(Shutdown::Both);
                false
            }
            _ => stands,
        }
    }

    /// Has the store say how long the lease lasts, before anybody is served.
    pub fn renew_lease<H: Wait + Clock>(&self, rt: &H) {
        if let Some(lease) = &self.lease {
            lease.renew(rt);
        }
    }

    // Hears what the store has said unasked. Reads don't wait meanwhile.
    fn heed(&self) -> Result<(), StoreFault> {
        if let Err(error) = self.stream.set_nonblocking(true) {
            return Err(StoreFault::Io(error));
        }
        self.store().heed()?;
        match self.stream.set_nonblocking(false) {
            Ok(()) => Ok(()),
            Err(error) => Err(StoreFault::Io(error)),
        }
    }

    /// Why nothing more is kept, once that is so.
    pub fn fault<H: Wait>(&self, rt: &H) -> Option<StoreFault> {
        let lease = self.lease.as_ref().and_then(|lease| lease.fault(rt));
        lease.or(*self.fault.lock(rt))
    }

    fn store(&self) -> Store<&UnixStream, &UnixStream> {
        Store {
            answers: &self.stream,
            messages: &self.stream,
        }
    }
}

// A connection to the store at an address, which is a unix socket.
fn connected<H: Net>(rt: &H, address: &str) -> Result<UnixStream, Fault> {
    let Address::Unix(path) = address_of(address) else {
        return Err(Fault::Misfit(Misfit::NoSocket));
    };
    match UnixStream::connect(rt, path) {
        Ok(stream) => Ok(stream),
        Err(error) => Err(Fault::Store(StoreFault::Io(error))),
    }
}

// Notes what the store answered, and says whether all is kept so far. The first fault stays.
fn note(fault: &mut Option<StoreFault>, answer: Result<(), StoreFault>) -> bool {
    match answer {
        Ok(()) => fault.is_none(),
        Err(new) => {
            *fault = Some(fault.unwrap_or(new));
            false
        }
    }
}
