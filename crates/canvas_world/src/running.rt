//! Lists of events.

ghost use Rattle.std.specs.Prelude.{◌≡◌, IfOk};
ghost use Rattle.canvas_world.specs.Tiles.{ShowOneHistory};
ghost use Rattle.canvas_world.specs.Transcript.{transcript_of};

use crate::entry::Transcript;
use crate::event::Event;
use crate::world::World;
use canvas_code::OutOfMemory;
use canvas_doc::Document;
use std::alloc::Global;

/// What the events of seats below `seats` come to, one after another, beginning with a document.
/// Want of memory is the only refusal, and leaves no transcript.
pub fn run(
    alloc: Global,
    start: &Document,
    seats: u32,
    events: &[Event],
) -> Result<Transcript, OutOfMemory>
    // The entry of each event looks back over all events before it and their entries.
    ensures exact { IfOk result
        (λ transcript. transcript ≡ transcript_of start.now seats events.now) }
    // The accepted edits come to one history, numbered in turn. Each tile is the picture of the
    // document after as many of its changes as the tile names: no more than were accepted before
    // the tile, and no less than any entry before the seat's latest look names.
    ensures tiles { IfOk result (λ transcript. ShowOneHistory start.now events.now transcript) }
{
    let mut world = World::new(alloc, start)?;
    let mut entries = Vec::new(alloc);
    for event in events {
        let entry = world.step(seats, event)?;
        entries.push(entry)?;
    }
    Ok(Transcript::from_vec(entries))
}
