//! Random lists of events, with each entry compared with what is found by looking back over the list.

use crate::asserts::holds_at;
use crate::shapes::after;
use crate::walks::events::ran;
use canvas_code::Coded;
use canvas_doc::{Change, Document, Edit, Parent, Refusal, Spot};
use canvas_plane::{Pose, Window};
use canvas_shape::{Colour, Kind};
use canvas_world::{Entry, Event, Transcript};
use std::alloc::Global;
use std::process::Abort;

// Numbers that look random.
#[derive(Drop)]
struct Dice(u64);

impl Dice {
    fn below(&mut self, n: u32) -> u32 {
        self.0 = self
            .0
            .wrapping_mul(6_364_136_223_846_793_005)
            .wrapping_add(1_442_695_040_888_963_407);
        let high = (self.0 >> 40) as u32;
        if n == 0 { 0 } else { high % n }
    }
}

fn random_edit(dice: &mut Dice) -> Edit {
    let id = dice.below(5);
    let pose = Pose {
        dx: i64::from(dice.below(4)),
        dy: i64::from(dice.below(4)),
        quarter: 0,
        flip: false,
    };
    match dice.below(7) {
        0 => Edit::Delete { id },
        1 => Edit::Pose { id, pose },
        2 => Edit::Show {
            id,
            hidden: dice.below(2) == 0,
        },
        3 => Edit::Move {
            id,
            parent: Parent::Page,
            spot: Spot::Front,
        },
        _ => Edit::Create {
            kind: Kind::Rect {
                w: dice.below(5),
                h: 3,
                fill: Colour([dice.below(200).min(200) as u8, 0, 9]),
            },
            pose,
            hidden: false,
            parent: Parent::Page,
            spot: Spot::Front,
        },
    }
}

// An event of one of four seats, of which the last is not there. Most strips are of two.
fn random_event(dice: &mut Dice, window: Window) -> Event {
    let seat = dice.below(13) / 4;
    match dice.below(13) {
        0 | 1 => Event::Edit {
            seat,
            edit: random_edit(dice),
        },
        2 => Event::Look { seat, window },
        3 | 4 => Event::Answer { seat },
        5 => Event::Strip {
            seat,
            k: dice.below(4),
            n: dice.below(4),
        },
        _ => Event::Strip {
            seat,
            k: dice.below(2),
            n: 2,
        },
    }
}

// A small window.
fn random_window(dice: &mut Dice) -> Option<Window> {
    let w = dice.below(5).saturating_add(1);
    let h = dice.below(4).saturating_add(2);
    Window::new(dice.below(3).min(3) as i32, 0, w, h).ok()
}

fn random_events(rt: &impl Abort, alloc: Global, dice: &mut Dice) -> Vec<Event> {
    let mut events = Vec::new(alloc);
    for _ in 0..24u8 {
        if let Some(window) = random_window(dice) {
            let event = random_event(dice, window);
            events.push(event).expect(rt, "memory");
        }
    }
    events
}

// An event, and the entry that it came to.
type Pair<'a> = (&'a Event, &'a Entry);

// Each event with its entry.
fn pairs_of<'a>(
    rt: &impl Abort,
    alloc: Global,
    events: &'a [Event],
    entries: &'a [Entry],
) -> Vec<Pair<'a>> {
    let mut steps = Vec::new(alloc);
    for step in events.iter().zip(entries) {
        steps.push(step).expect(rt, "memory");
    }
    steps
}

// The document after the first so many accepted edits, judged anew from the empty one.
fn replayed(rt: &impl Abort, alloc: Global, past: &[Pair<'_>], many: u64) -> Document {
    let mut document = Document::empty(alloc);
    let mut left = many;
    for (event, entry) in past {
        if let Some(edit) = next_accepted(event, entry, &mut left) {
            document = after(alloc, document, edit).expect(rt, "memory");
        }
    }
    document
}

// The edit of an event that was accepted, where some are left, of which it is one.
fn next_accepted<'a>(event: &'a Event, entry: &Entry, left: &mut u64) -> Option<&'a Edit> {
    match (event, entry) {
        (Event::Edit { edit, .. }, Entry::Edited { .. }) => {
            *left = left.checked_sub(1)?;
            Some(edit)
        }
        _ => None,
    }
}

fn edits_in(past: &[Pair<'_>]) -> u64 {
    let mut many = 0u64;
    for (_, entry) in past {
        many = many.wrapping_add(u64::from(matches!(*entry, Entry::Edited { .. })));
    }
    many
}

// The place of a seat's latest look, if no tile of it stands after.
fn latest_look(past: &[Pair<'_>], own: u32) -> Option<usize> {
    let mut found = None;
    let mut at = 0usize;
    for (event, entry) in past {
        if event.seat() == own {
            found = look_after(found, at, entry);
        }
        at = at.wrapping_add(1);
    }
    found
}

// The place of the latest look, once an entry of the same seat stands at a place.
fn look_after(before: Option<usize>, at: usize, entry: &Entry) -> Option<usize> {
    match entry {
        Entry::Looked { .. } => Some(at),
        Entry::Tile { .. } => None,
        _ => before,
    }
}

// Which strip a seat painted by an event, if it did: k of n.
fn strip_of(event: &Event, entry: &Entry, own: u32) -> Option<(u32, u32)> {
    match (event, entry) {
        (Event::Strip { seat, k, n }, Entry::Painted) if *seat == own => Some((*k, *n)),
        _ => None,
    }
}

// How often a seat painted strip k of n, and how many strips in all.
fn painted(steps: &[Pair<'_>], own: u32, wanted: (u32, u32)) -> (u32, u32) {
    let (mut same, mut all) = (0u32, 0u32);
    for (event, entry) in steps {
        let strip = strip_of(event, entry, own);
        same = same.wrapping_add(u32::from(strip == Some(wanted)));
        all = all.wrapping_add(u32::from(strip.is_some()));
    }
    (same, all)
}

// Whether the bytes are the document's colours at the pixels of a window.
fn shows(document: &Document, window: &Window, bytes: &[u8]) -> bool {
    let mut at = 0usize;
    for j in 0..window.h() {
        let y = window.y().wrapping_add(j as i32);
        for k in 0..window.w() {
            let x = window.x().wrapping_add(k as i32);
            let Colour([red, green, blue]) = document.colour_at(x, y);
            for byte in [red, green, blue] {
                if bytes.get(at) != Some(&byte) {
                    return false;
                }
                at = at.wrapping_add(1);
            }
        }
    }
    at == bytes.len()
}

// The id of the shape that a change makes.
fn new_id(change: &Change) -> Option<u32> {
    match change {
        Change::Create { id, .. } => Some(*id),
        _ => None,
    }
}

// Whether an edit came to the right entry after the steps before it.
fn edited_right(
    rt: &impl Abort,
    alloc: Global,
    past: &[Pair<'_>],
    edit: &Edit,
    entry: &Entry,
) -> bool {
    let many = edits_in(past);
    let document = replayed(rt, alloc, past, many);
    is_decided(&document.decide(alloc, edit), many, entry)
}

// Whether an entry tells what was decided of an edit after so many others.
fn is_decided(decided: &Result<Change, Refusal>, many: u64, entry: &Entry) -> bool {
    match (decided, entry) {
        (Ok(change), Entry::Edited { version, id }) => {
            *version == many.wrapping_add(1) && *id == new_id(change)
        }
        (Err(why), Entry::Refused { code }) => *code == why.code(),
        _ => false,
    }
}

// Whether a look came to the right entry.
fn looked_right(past: &[Pair<'_>], entry: &Entry) -> bool {
    match entry {
        Entry::Looked { version } => *version == edits_in(past),
        _ => false,
    }
}

// Whether a strip came to the right entry after a look at a place.
fn painted_right(past: &[Pair<'_>], own: u32, at: usize, strip: (u32, u32), entry: &Entry) -> bool {
    let steps = past.get(at.saturating_add(1)..).unwrap_or(&[]);
    let (k, n) = strip;
    let mut of_this_number = 0u32;
    for other in 0..n.min(17) {
        let (same, _) = painted(steps, own, (other, n));
        of_this_number = of_this_number.wrapping_add(same);
    }
    let (same, all) = painted(steps, own, (k, n));
    let may = 1 <= n && n <= 16 && k < n && same == 0 && of_this_number == all;
    match entry {
        Entry::Painted => may,
        Entry::Skipped => !may,
        _ => false,
    }
}

// The number of strips of which the first strip was one, none where there is no strip.
fn strips_of(steps: &[Pair<'_>], own: u32) -> u32 {
    for (event, entry) in steps {
        if let Some((_, n)) = strip_of(event, entry, own) {
            return n;
        }
    }
    0
}

// Whether there are strips since a place, and all of them.
fn is_whole(past: &[Pair<'_>], own: u32, at: usize) -> bool {
    let steps = past.get(at.saturating_add(1)..).unwrap_or(&[]);
    let n = strips_of(steps, own);
    let mut there = 0u32;
    for k in 0..n {
        let (same, _) = painted(steps, own, (k, n));
        there = there.wrapping_add(same.min(1));
    }
    0 < n && there == n
}

// The version and the window of the look at a place.
fn look_at(past: &[Pair<'_>], at: usize) -> Option<(u64, Window)> {
    let (event, entry) = past.get(at)?;
    match (*event, *entry) {
        (Event::Look { window, .. }, Entry::Looked { version }) => Some((*version, *window)),
        _ => None,
    }
}

// Whether the bytes are the colours of the document after the first so many accepted edits.
fn shows_replay(
    rt: &impl Abort,
    alloc: Global,
    past: &[Pair<'_>],
    many: u64,
    window: &Window,
    bytes: &[u8],
) -> bool {
    let document = replayed(rt, alloc, past, many);
    shows(&document, window, bytes)
}

// Whether an answer came to the right entry after a look at a place.
fn answered_right(
    rt: &impl Abort,
    alloc: Global,
    past: &[Pair<'_>],
    own: u32,
    at: usize,
    entry: &Entry,
) -> bool {
    let whole = is_whole(past, own, at);
    match entry {
        Entry::Tile {
            version,
            window,
            raster,
        } => {
            whole
                && look_at(past, at) == Some((*version, *window))
                && shows_replay(rt, alloc, past, *version, window, raster.bytes())
        }
        Entry::Skipped => !whole,
        _ => false,
    }
}

// Whether an event came to the right entry, by looking back over those before it.
fn is_right(
    rt: &impl Abort,
    alloc: Global,
    past: &[Pair<'_>],
    event: &Event,
    entry: &Entry,
) -> bool {
    if event.seat() >= 3 {
        return matches!(entry, Entry::Skipped);
    }
    match (event, latest_look(past, event.seat())) {
        (Event::Edit { edit, .. }, _) => edited_right(rt, alloc, past, edit, entry),
        (Event::Look { .. }, _) => looked_right(past, entry),
        (Event::Strip { seat, k, n }, Some(at)) => {
            painted_right(past, *seat, at, (*k, *n), entry)
        }
        (Event::Answer { seat }, Some(at)) => { answered_right(rt, alloc, past, *seat, at, entry) }
        _ => matches!(entry, Entry::Skipped),
    }
}

// Whether all entries are right.
fn all_right(rt: &impl Abort, alloc: Global, events: &[Event], transcript: &Transcript) -> bool {
    let entries = transcript.entries();
    let steps = pairs_of(rt, alloc, events, entries);
    entries.len() == events.len() && are_right(rt, alloc, &steps)
}

fn are_right(rt: &impl Abort, alloc: Global, steps: &[Pair<'_>]) -> bool {
    let mut at = 0usize;
    for (event, entry) in steps {
        let past = steps.get(..at).unwrap_or(&[]);
        if !is_right(rt, alloc, past, event, entry) {
            return false;
        }
        at = at.wrapping_add(1);
    }
    true
}

// How many tiles are among the entries.
fn tiles_in(entries: &[Entry]) -> u32 {
    let mut many = 0u32;
    for entry in entries {
        if let Entry::Tile { .. } = entry {
            many = many.wrapping_add(1);
        }
    }
    many
}

// How many tiles there were in a list of events over an empty document, of which all entries are to
// be right. The number tells which list it is.
fn tiles_of(rt: &impl Abort, alloc: Global, events: &[Event], number: u64) -> u32 {
    let transcript = ran(alloc, 3, events).expect(rt, "memory");
    holds_at(
        rt,
        "list",
        number,
        all_right(rt, alloc, events, &transcript),
    );
    tiles_in(transcript.entries())
}

// How many tiles there were in random lists of events, all compared.
fn compared(rt: &impl Abort, alloc: Global, seed: u64) -> u32 {
    let mut dice = Dice(seed);
    let mut tiles = 0u32;
    let first = seed.wrapping_mul(10_000);
    for round in 0..2_000u64 {
        let events = random_events(rt, alloc, &mut dice);
        let number = first.wrapping_add(round);
        tiles = tiles.wrapping_add(tiles_of(rt, alloc, &events, number));
    }
    tiles
}

#[test]
fn random_lists_are_their_replay(rt: HostRuntime) {
    let tiles = compared(&rt, rt.alloc(), 1);
    holds_at(&rt, "tiles", u64::from(tiles), tiles > 200);
}
