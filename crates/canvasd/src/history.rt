//! The document of a folder as of a version.
ghost use Rattle.std.specs.Prelude.{◌≡◌, map, IfOk};
ghost use Rattle.canvasd.specs.History.{IsSavedAfter};
ghost use Rattle.canvasd.specs.Seats.{IsUnused};

use crate::fault::{Deed, Fault, Place, refused};
use crate::folder::{look, path_in};
use crate::journal::read_all;
use crate::seats::{line_fault, saved_at, take_seat};
use crate::serving::{MOST_EDITS, NAME, opening_document};
use canvas_doc::Document;
use canvas_folder::{JOURNAL, State, state_of};
use canvas_journal::read_lines;
use canvas_keep::replay;
use canvas_line::{Line, Lines, Opened, Seat};
use std::alloc::Global;
use std::fs::File;
use std::io;
use std::io::Write;
use std::marker::Brand;
use std::rt::Files;
use std::sync::Wait;

/// Writes the saved document of the newest generation as of a version, or as it is now, to standard output.
pub fn write_version<H: Files<File = File> + Alloc + Print + Wait + Clone + Drop>(
    rt: &H,
    alloc: Global,
    folder: &str,
    version: Option<u64>,
) -> Result<(), Fault> {
    let found = look(rt, alloc, folder)?;
    let number = match state_of(&found.generations) {
        State::Serves(number) => number,
        State::Begins => return Err(Fault::NoDocument),
        State::Strange(number) => return Err(Fault::Strange(number)),
    };
    let (newest, text) = replayed(rt, alloc, folder, number, version)?;
    if let Some(asked) = version
        && newest < asked
    {
        return Err(Fault::NoVersion { asked, newest });
    }
    match io::writer(rt).write_all(&text) {
        Ok(()) => Ok(()),
        Err(error) => Err(refused(Place::Output, Deed::Write, error)),
    }
}

/// How many edits the journal of a generation has, and the saved document after so many of them, or
/// after all.
pub fn replayed<H: Files<File = File> + Wait>(
    rt: &H,
    alloc: Global,
    folder: &str,
    number: u32,
    version: Option<u64>,
) -> Result<(u64, Vec<u8>), Fault> {
    let document = opening_document(rt, alloc, folder, number)?;
    let lines = lines_of(rt, alloc, folder, number)?;
    let edits = lines.len();
    let count = match version {
        Some(version) if version < edits as u64 => version as usize,
        _ => edits,
    };
    let text = text_after::<Brand, H>(rt, alloc, Opened::new(), document, &lines[..count], number)?;
    Ok((edits as u64, text))
}

// The lines of a journal that count. A journal that is being written can be read too, front to back.
fn lines_of<H: Files<File = File>>(
    rt: &H,
    alloc: Global,
    folder: &str,
    number: u32,
) -> Result<Vec<Vec<u8>>, Fault> {
    let place = Place::Journal(number);
    let path = path_in(alloc, folder, number, JOURNAL)?;
    let mut file = match File::open(rt, path.as_str()) {
        Ok(file) => file,
        Err(error) => return Err(refused(place, Deed::Read, error)),
    };
    let bytes = read_all(alloc, &mut file, place)?;
    Ok(read_lines(alloc, &bytes)?.lines)
}

// The saved document after the edits of lines.
fn text_after<L: Lines, H: Wait>(
    rt: &H,
    alloc: Global,
    opened: Opened,
    document: Document,
    lines: &[Vec<u8>],
    number: u32,
) -> Result<Vec<u8>, Fault>
    requires { L.line 1
        ≡ record { book = opened.head.word.book; opening = document; limit = 1000000 } }
{
    let mut seats = match Line::open::<L, H>(rt, alloc, opened, NAME, document, 1, MOST_EDITS) {
        Ok(seats) => seats,
        Err(fault) => return Err(line_fault(&fault)),
    };
    let Some(mut seat) = take_seat(&mut seats) else {
        return Err(Fault::Memory);
    };
    let text = text_at(rt, alloc, &mut seat, lines, number);
    seat.close(rt);
    text
}

// The saved document after the edits of lines that are made through a seat.
fn text_at<L: Lines, H: Wait>(
    rt: &H,
    alloc: Global,
    seat: &mut Seat<L>,
    lines: &[Vec<u8>],
    number: u32,
) -> Result<Vec<u8>, Fault>
    requires { IsUnused seat.old }
    ensures { IfOk result
        (λ text. IsSavedAfter seat.old.opening (map (λ v. v.items) lines.now) text.items) }
{
    if let Err(fault) = replay(rt, alloc, seat, lines) {
        return Err(Fault::Line {
            number,
            line: fault.line,
            why: fault.why,
        });
    }
    saved_at(alloc, seat)
}
