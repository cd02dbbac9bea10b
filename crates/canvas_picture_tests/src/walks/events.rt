//! Worked lists of events, told in words.

use crate::asserts::equal;
use canvas_code::OutOfMemory;
use canvas_doc::{Document, Edit, Parent, Spot};
use canvas_plane::{Pose, Window};
use canvas_shape::{Colour, Kind};
use canvas_world::{Entry, Event, Transcript, run};
use std::alloc::{AllocError, Global};
use std::process::Abort;

const RED: Colour = Colour([255, 0, 0]);

/// An event of a list. Each edit is of seat 0, and each look is at the list's window.
#[derive(Clone, Copy)]
pub(crate) enum Step {
    /// A red rectangle of so many pixels comes in front.
    Create(u32, u32),
    Delete(u32),
    Look(u32),
    /// A seat paints strip k of n.
    Strip(u32, u32, u32),
    Answer(u32),
}

// A red rectangle in front of all others on the page.
fn create(w: u32, h: u32) -> Edit {
    Edit::Create {
        kind: Kind::Rect { w, h, fill: RED },
        pose: Pose::STILL,
        hidden: false,
        parent: Parent::Page,
        spot: Spot::Front,
    }
}

fn edit(edit: Edit) -> Event {
    Event::Edit { seat: 0, edit }
}

fn event(step: Step, window: Window) -> Event {
    match step {
        Step::Create(w, h) => edit(create(w, h)),
        Step::Delete(id) => edit(Edit::Delete { id }),
        Step::Look(seat) => Event::Look { seat, window },
        Step::Strip(seat, k, n) => Event::Strip { seat, k, n },
        Step::Answer(seat) => Event::Answer { seat },
    }
}

fn events_of(alloc: Global, steps: &[Step], window: Window) -> Result<Vec<Event>, OutOfMemory> {
    let mut events = Vec::new(alloc);
    for step in steps {
        events.push(event(*step, window))?;
    }
    Ok(events)
}

// An entry in words, with a semicolon behind them.
fn told(alloc: Global, entry: &Entry) -> Result<String, AllocError> {
    match entry {
        Entry::Edited {
            version,
            id: Some(id),
        } => format!(in alloc; "edited {version} {id}; "),
        Entry::Edited { version, id: None } => told_number(alloc, "edited", *version),
        Entry::Refused { code } => told_number(alloc, "refused", u64::from(*code)),
        Entry::Looked { version } => told_number(alloc, "looked", *version),
        Entry::Painted => told_word(alloc, "painted"),
        Entry::Tile {
            version,
            window,
            raster,
        } => told_tile(alloc, *version, window, raster.bytes()),
        Entry::Skipped => told_word(alloc, "skipped"),
    }
}

fn told_word(alloc: Global, word: &str) -> Result<String, AllocError> {
    format!(in alloc; "{word}; ")
}

fn told_number(alloc: Global, word: &str, number: u64) -> Result<String, AllocError> {
    format!(in alloc; "{word} {number}; ")
}

fn told_tile(
    alloc: Global,
    version: u64,
    window: &Window,
    bytes: &[u8],
) -> Result<String, AllocError> {
    let (w, h) = (window.w(), window.h());
    format!(in alloc; "tile {version} {w} {h} {bytes:?}; ")
}

// The text with an entry in words behind it.
fn tell(alloc: Global, text: &mut String, entry: &Entry) -> Result<(), OutOfMemory> {
    let words = told(alloc, entry)?;
    let told = text.push_str(words.as_str());
    drop(words);
    Ok(told?)
}

fn tell_all(alloc: Global, entries: &[Entry]) -> Result<String, OutOfMemory> {
    let mut text = String::new(alloc);
    for entry in entries {
        tell(alloc, &mut text, entry)?;
    }
    Ok(text)
}

/// The transcript of a list of events over an empty document. (A call of this tells a proof
/// nothing, which keeps tests quick to prove.)
pub(crate) fn ran(alloc: Global, seats: u32, events: &[Event]) -> Result<Transcript, OutOfMemory> {
    run(alloc, &Document::empty(alloc), seats, events)
}

/// The transcript of a list of events over an empty document, in words.
pub(crate) fn transcript(
    alloc: Global,
    seats: u32,
    window: Window,
    steps: &[Step],
) -> Result<String, OutOfMemory> {
    let events = events_of(alloc, steps, window)?;
    let transcript = ran(alloc, seats, events.as_slice());
    drop(events);
    let transcript = transcript?;
    tell_all(alloc, transcript.entries())
}

// Asserts what the transcript of a list of events is in words.
fn check(rt: &impl Abort, alloc: Global, seats: u32, window: Window, steps: &[Step], wanted: &str) {
    let told = transcript(alloc, seats, window, steps).expect(rt, "memory");
    equal(rt, "the transcript", &told.as_str(), &wanted);
}

/// A look, an edit between its two strips, and two answers.
pub(crate) const A_TILE: [Step; 6] = [
    Step::Look(0),
    Step::Strip(0, 0, 2),
    Step::Create(1, 2),
    Step::Strip(0, 1, 2),
    Step::Answer(0),
    Step::Answer(0),
];

/// What `A_TILE` comes to in a window of 1 by 2.
pub(crate) const A_TILE_TOLD: &str =
    "looked 0; painted; edited 1 1; painted; tile 0 1 2 [255, 255, 255, 255, 255, 255]; skipped; ";

#[test]
fn a_tile_shows_the_version_of_its_look(rt: HostRuntime) {
    let window = Window::new(0, 0, 1, 2).expect(&rt, "a window");
    check(&rt, rt.alloc(), 1, window, &A_TILE, A_TILE_TOLD);
}

const NEW_LOOKS: [Step; 8] = [
    Step::Create(1, 1),
    Step::Look(1),
    Step::Strip(1, 0, 1),
    Step::Look(1),
    Step::Answer(1),
    Step::Strip(1, 0, 2),
    Step::Strip(1, 0, 2),
    Step::Look(2),
];

const NEW_LOOKS_TOLD: &str =
    "edited 1 1; looked 1; painted; looked 1; skipped; painted; skipped; skipped; ";

#[test]
fn a_new_look_begins_anew(rt: HostRuntime) {
    let window = Window::new(0, 0, 1, 1).expect(&rt, "a window");
    check(&rt, rt.alloc(), 2, window, &NEW_LOOKS, NEW_LOOKS_TOLD);
}

const A_LEVEL: [Step; 4] = [
    Step::Create(2, 2),
    Step::Look(0),
    Step::Strip(0, 0, 1),
    Step::Answer(0),
];

const A_LEVEL_TOLD: &str =
    "edited 1 1; looked 1; painted; tile 1 3 1 [255, 255, 255, 255, 0, 0, 255, 255, 255]; ";

#[test]
fn a_tile_of_a_level_shows_the_first_pixel_of_each_block(rt: HostRuntime) {
    let window = Window::at_level(1, -1, 0, 3, 1).expect(&rt, "a window");
    check(&rt, rt.alloc(), 1, window, &A_LEVEL, A_LEVEL_TOLD);
}

const ANY_ORDER: [Step; 11] = [
    Step::Create(1, 1),
    Step::Delete(9),
    Step::Look(0),
    Step::Strip(0, 1, 2),
    Step::Strip(0, 2, 2),
    Step::Strip(0, 0, 1),
    Step::Strip(0, 0, 17),
    Step::Answer(0),
    Step::Strip(0, 0, 2),
    Step::Answer(0),
    Step::Strip(0, 0, 1),
];

const ANY_ORDER_TOLD: &str =
    "edited 1 1; refused 2; looked 1; painted; skipped; skipped; skipped; skipped; painted; tile 1 1 2 [255, 0, 0, 255, 255, 255]; skipped; ";

#[test]
fn strips_come_in_any_order(rt: HostRuntime) {
    let window = Window::new(0, 0, 1, 2).expect(&rt, "a window");
    check(&rt, rt.alloc(), 1, window, &ANY_ORDER, ANY_ORDER_TOLD);
}

#[test]
fn seats_of_events(rt: HostRuntime) {
    let window = Window::new(0, 0, 1, 1).expect(&rt, "a window");
    let look = Event::Look { seat: 4, window };
    let strip = event(Step::Strip(5, 1, 2), window);
    let answer = event(Step::Answer(6), window);
    let edit = Event::Edit {
        seat: 7,
        edit: Edit::Delete { id: 1 },
    };
    let seats = (look.seat(), strip.seat(), answer.seat(), edit.seat());
    equal(&rt, "seats", &seats, &(4, 5, 6, 7));
}
