//! What a window leaves out, strips of many shapes, and lists of events.

mod bands;
mod cells;
mod events;
mod memory;
mod replays;
