//! The line of a follower, and how it goes on.
ghost use Rattle.std.specs.Prelude.{◌≡◌, ◌+◌, Ok, IfOk, IfSome, OnOk, IsTrue, length};
ghost use Rattle.canvas_line.specs.Seats.{GoesOn};
ghost use Rattle.canvas_record.specs.Decision.{decision_of};
ghost use Rattle.canvas_record.specs.Effect.{Fits};
ghost use Rattle.canvas_wire.specs.Requests.{request_of};
ghost use Rattle.canvas_wire.specs.declared.request.Request.TheVariants as requests;
ghost use Rattle.canvas_follow.specs.Course.{Follows, TellsNext, document_at};

use crate::fault::CourseFault;
use crate::feed_line::edit_in;
use canvas_code::Coded;
use canvas_doc::{Change, Document, Edit, Refusal};
use canvas_feed::push_line;
use canvas_line::{LineFault, Lines, Seat, Version};
use canvas_wire::{Request, RequestReader, WireFault};
use std::alloc::Global;
use std::marker::Model;
use std::sync::Wait;

/// The line of a follower, by one of its seats. Contracts see it as that seat.
#[derive(Drop)]
pub struct Course<B: Lines> {
    alloc: Global,
    seat: Seat<B>,
    reader: RequestReader,
    // Room for the line that this document's feed has for an edit.
    room: Vec<u8>,
}

impl<B: Lines> Model for Course<B> {
    ghost use Rattle.canvas_line.specs.Lines.{Sight};

    ghost Value = { Sight };

    ghost view = { λ c. c.seat };
}

impl<B: Lines> Course<B> {
    /// The line of a seat, from its newest version on.
    pub fn new(alloc: Global, seat: Seat<B>) -> Result<Course<B>, CourseFault>
        ensures { IfOk result (λ course. GoesOn seat course) }
    {
        let mut seat = seat;
        if seat.look().is_err() {
            return Err(CourseFault::NoView);
        }
        Ok(Course {
            alloc,
            seat,
            reader: RequestReader::new(alloc),
            room: Vec::new(alloc),
        })
    }

    /// How many edits the line has.
    pub fn number(&self) -> u64
        ensures { result ≡ length self.now.front }
    {
        self.seat.number()
    }

    /// The edit that a line of a feed, with its LF, tells as the next one. A line that is not the
    /// very one which this document's feed has for that edit there is refused.
    pub fn judge(&mut self, line: &[u8]) -> Result<Edit, CourseFault>
        ensures same { IfOk result (λ edit. self.new ≡ self.old) }
        ensures told { IfOk result
            (λ edit. TellsNext (document_at self.old) (length self.old.front) line.now edit) }
    {
        let before = self.seat.number();
        let version = match self.seat.look() {
            Ok(version) => version,
            Err(_) => return Err(CourseFault::NoView),
        };
        if version.number != before {
            return Err(CourseFault::Busy);
        }
        edit_told(self.alloc, &mut self.reader, &mut self.room, &version, line)
    }

    /// Makes the edit that a line of a feed, with its LF, tells as the next one.
    pub fn make<R: Wait>(&mut self, rt: &R, line: &[u8]) -> Result<(), CourseFault>
        ensures { OnOk result (Follows self.old line.now self.new) }
    {
        let edit = match self.judge(line) {
            Ok(edit) => edit,
            Err(fault) => return Err(fault),
        };
        let before = self.seat.number();
        match self.seat.edit(rt, &edit) {
            Ok(edited) if edited.number - 1 == before => Ok(()),
            Ok(_) => Err(CourseFault::Busy),
            Err(LineFault::OutOfMemory) => Err(CourseFault::OutOfMemory),
            Err(fault) => Err(CourseFault::Refused(fault.code())),
        }
    }

    /// Goes on by the one edit that another seat of the line has made.
    pub fn go_on(&mut self) -> Result<(), CourseFault>
        ensures goes_on { OnOk result (GoesOn self.old self.new) }
        ensures one { OnOk result (length self.new.front ≡ length self.old.front + 1) }
    {
        let before = self.seat.number();
        match self.seat.look() {
            Ok(version) if version.number - before == 1 => Ok(()),
            Ok(_) => Err(CourseFault::Busy),
            Err(_) => Err(CourseFault::NoView),
        }
    }

    /// The number with which the newest version refuses an edit, if it does.
    pub fn refusal(&mut self, edit: &Edit, limit: u64) -> Option<u16> {
        let version = self.seat.look().ok()?;
        if version.number == limit {
            return Some(LineFault::VersionsSpent.code());
        }
        match version.document.decide(self.alloc, edit) {
            Ok(_) => None,
            Err(why) => Some(why.code()),
        }
    }

    /// Gives the seat up.
    pub fn close<R: Wait>(self, rt: &R) {
        let Course { seat, .. } = self;
        seat.close(rt);
    }
}

// The edit that a line tells as the one that makes the version after this.
fn edit_told(
    alloc: Global,
    reader: &mut RequestReader,
    room: &mut Vec<u8>,
    version: &Version,
    line: &[u8],
) -> Result<Edit, CourseFault>
    ensures { IfOk result (TellsNext version.now.document version.now.number line.now) }
{
    let Some(text) = edit_in(line) else {
        return Err(CourseFault::NoEdit);
    };
    let edit = edit_asked(alloc, reader, text)?;
    let change = decided(alloc, &version.document, &edit)?;
    let damage = version.document.damage(&change);
    let Some(number) = version.number.checked_add(1) else {
        return Err(CourseFault::Otherwise);
    };
    room.clear();
    push_line(room, &damage, text, change.new_id(), number)?;
    if are_equal(line, room.as_slice()) {
        Ok(edit)
    } else {
        Err(CourseFault::Otherwise)
    }
}

fn are_equal(one: &[u8], other: &[u8]) -> bool
    ensures { IsTrue result → one.now ≡ other.now }
{
    one == other
}

// What a document decides of an edit that a feed tells.
fn decided(alloc: Global, document: &Document, edit: &Edit) -> Result<Change, CourseFault>
    ensures decided { IfOk result (λ change. decision_of edit.now document.now ≡ Ok change) }
    ensures fits { IfOk result (λ change. Fits change document.now) }
{
    match document.decide(alloc, edit) {
        Ok(change) => Ok(change),
        Err(Refusal::OutOfMemory) => Err(CourseFault::OutOfMemory),
        Err(why) => Err(CourseFault::Refused(why.code())),
    }
}

// The edit that a text asks for.
fn edit_asked(alloc: Global, reader: &mut RequestReader, text: &[u8]) -> Result<Edit, CourseFault>
    ensures { IfOk result (λ edit. request_of text.now ≡ Ok (requests.Edit edit)) }
{
    match reader.read(alloc, text) {
        Ok(Request::Edit(edit)) => Ok(edit),
        Ok(_) => Err(CourseFault::NoEdit),
        Err(WireFault::OutOfMemory) => Err(CourseFault::OutOfMemory),
        Err(_) => Err(CourseFault::NoEdit),
    }
}
