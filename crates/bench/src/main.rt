//! Times parts of the product: `bench SUBJECT`, with the word for one of them. Without a word it
//! prints how it is called and ends.
#![tactic(auto)]

mod drawings;
mod edits;
mod fault;
mod painting;
mod saving;
mod scenes;
mod seats;
mod shapes;
mod spans;
mod times;
mod versions;

use fault::Fault;
use std::env;

/// What can be timed.
#[derive(Clone, Copy)]
enum Subject {
    /// The row spans of leaves.
    Spans,
    /// Edits of documents, and their restoring.
    Edits,
    /// Scenes of tiles, and their painting.
    Scenes,
    /// Pictures by workers.
    Painting,
    /// The opening and the saving of a document.
    Saving,
    /// Edits and looks through seats.
    Seats,
    /// The memory of versions.
    Versions,
}

/// The words for the subjects.
const SUBJECTS: [(&str, Subject); 7] = [
    ("spans", Subject::Spans),
    ("edits", Subject::Edits),
    ("scenes", Subject::Scenes),
    ("painting", Subject::Painting),
    ("saving", Subject::Saving),
    ("seats", Subject::Seats),
    ("versions", Subject::Versions),
];

// The subject of a word.
fn named(word: &str) -> Option<Subject> {
    for (name, subject) in &SUBJECTS {
        if *name == word {
            return Some(*subject);
        }
    }
    None
}

fn main(rt: HostRuntime) -> Result<(), Fault> {
    let Some(subject) = asked(&rt)? else {
        return print_usage(&rt);
    };
    times::check_clock(&rt)?;
    match subject {
        Subject::Spans => spans::time_all(&rt),
        Subject::Edits => edits::time_all(&rt, rt.alloc()),
        Subject::Scenes => scenes::time_all(&rt),
        Subject::Painting => painting::time_all(&rt, rt.alloc()),
        Subject::Saving => saving::time_all(&rt),
        Subject::Seats => seats::time_all(&rt, rt.alloc()),
        Subject::Versions => versions::measure_all(&rt),
    }
}

fn print_usage(rt: &HostRuntime) -> Result<(), Fault> {
    println!(rt; "usage: bench spans|edits|scenes|painting|saving|seats|versions")?;
    Ok(())
}

// The subject that the first word names.
fn asked(rt: &HostRuntime) -> Result<Option<Subject>, Fault> {
    match env::args(rt)?.nth(1) {
        Some(word) => Ok(named(word.as_str())),
        None => Ok(None),
    }
}
