//! The running document, and the work at the seats' pictures.

ghost use Rattle.std.specs.Prelude.{◌≡◌, ◌<◌, ◌≤◌, ◌+◌, ◌^◌, [], IfOk, OnOk};
ghost use Rattle.canvas_world.specs.declared.event.Event.TheVariants.{Look, Strip, Answer};
ghost use Rattle.canvas_world.specs.Worlds.{Enters, EntersAny, EntersEdit, IsWorld};

use crate::cut::Cut;
use crate::entry::Entry;
use crate::event::Event;
use crate::job::Job;
use bumpalo::Bump;
use canvas_code::{Coded, OutOfMemory};
use canvas_doc::{Change, Document, Edit, Refusal};
use canvas_plane::Window;
use std::alloc::Global;
use std::collections::BTreeMap;
use std::rc::Rc;

/// The document as it is, and the work of each seat that has looked and got no answer yet.
#[derive(Drop)]
pub(crate) struct World {
    alloc: Global,
    document: Rc<Document>,
    // How many edits were accepted.
    version: u64,
    jobs: BTreeMap<u32, Job>,
    // Holds a scene while a strip is painted.
    arena: Bump,
}

impl World {
    /// A world before its first event.
    pub(crate) fn new(alloc: Global, start: &Document) -> Result<World, OutOfMemory>
        ensures world { IfOk result (λ world. IsWorld start.now [] world) }
        ensures version { IfOk result (λ world. world.version ≡ 0) }
    {
        let document = start.try_clone(alloc)?;
        Ok(World {
            alloc,
            document: Rc::new(alloc, document)?,
            version: 0,
            jobs: BTreeMap::new(alloc),
            arena: Bump::new(alloc),
        })
    }

    /// Takes one step. A seat that is not below `seats` does nothing.
    pub(crate) fn step(&mut self, seats: u32, event: &Event) -> Result<Entry, OutOfMemory>
        requires { self.old.version + 1 < 2 ^ 64 }
        ensures entry { IfOk result (λ entry. EntersAny seats event.now self.old entry self.new) }
        ensures version { OnOk result (self.new.version ≤ self.old.version + 1) }
    {
        if event.seat() >= seats {
            return Ok(Entry::Skipped);
        }
        match event {
            Event::Edit { edit, .. } => self.edit(edit),
            Event::Look { seat, window } => self.look(*seat, window),
            Event::Strip { seat, k, n } => self.strip(*seat, Cut { k: *k, n: *n }),
            Event::Answer { seat } => self.answer(*seat),
        }
    }

    // The document is edited. A refused edit leaves it.
    fn edit(&mut self, edit: &Edit) -> Result<Entry, OutOfMemory>
        requires { self.old.version + 1 < 2 ^ 64 }
        ensures entry { IfOk result (λ entry. EntersEdit edit.now self.old entry self.new) }
        ensures version { OnOk result (self.new.version ≤ self.old.version + 1) }
    {
        match self.document.decide(self.alloc, edit) {
            Err(why) => {
                if why == Refusal::OutOfMemory {
                    return Err(OutOfMemory);
                }
                Ok(Entry::Refused { code: why.code() })
            }
            Ok(change) => {
                let after = self.document.with(self.alloc, &change)?;
                self.document = Rc::new(self.alloc, after)?;
                self.version += 1;
                Ok(Entry::Edited {
                    version: self.version,
                    id: change.new_id(),
                })
            }
        }
    }

    // The seat's next picture will show a window of the document as it is.
    fn look(&mut self, seat: u32, window: &Window) -> Result<Entry, OutOfMemory>
        ensures entry { IfOk result
            (λ entry. Enters (Look seat window.now) self.old entry self.new) }
        ensures version { self.new.version ≡ self.old.version }
    {
        let document = self.document.clone()?;
        let job = Job::new(self.alloc, self.version, *window, document);
        self.jobs.insert(seat, job)?;
        Ok(Entry::Looked {
            version: self.version,
        })
    }

    // A strip of the seat's picture is painted, from the document that its look fixed.
    fn strip(&mut self, seat: u32, cut: Cut) -> Result<Entry, OutOfMemory>
        ensures entry { IfOk result
            (λ entry. Enters (Strip seat cut.k cut.n) self.old entry self.new) }
        ensures version { self.new.version ≡ self.old.version }
    {
        match self.jobs.get_mut(&seat) {
            Some(job) if job.may_paint(cut) => {
                job.paint(self.alloc, &mut self.arena, cut)?;
                Ok(Entry::Painted)
            }
            _ => Ok(Entry::Skipped),
        }
    }

    // The seat's picture is handed out, once all its strips are there.
    fn answer(&mut self, seat: u32) -> Result<Entry, OutOfMemory>
        ensures entry { IfOk result (λ entry. Enters (Answer seat) self.old entry self.new) }
        ensures version { self.new.version ≡ self.old.version }
    {
        let Some(job) = self.jobs.get(&seat) else {
            return Ok(Entry::Skipped);
        };
        let Some(raster) = job.picture(self.alloc)? else {
            return Ok(Entry::Skipped);
        };
        let (version, window) = (job.version(), job.window());
        self.jobs.remove(&seat);
        Ok(Entry::Tile {
            version,
            window,
            raster,
        })
    }
}
