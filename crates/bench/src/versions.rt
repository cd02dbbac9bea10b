//! Measures the memory of a version that differs from the one before by a pose: what the system
//! says that the program has.

use crate::edits::layouts::{self, Layout};
use crate::fault::Fault;
use crate::shapes::edited;
use canvas_doc::{Document, Edit};
use canvas_plane::Pose;
use std::alloc::Global;
use std::fs;

/// How many versions of a document are kept beside its first.
const VERSIONS: u32 = 2_000;

/// How many records the documents have.
const SIZES: [u32; 5] = [10, 100, 1_000, 4_096, 16_384];

/// How many bytes a page of memory has.
const PAGE: u64 = 4_096;

/// Keeps versions of documents of several sizes, all records on the page, and prints the memory
/// that each takes more.
pub fn measure_all(rt: &HostRuntime) -> Result<(), Fault> {
    // None goes before the last is measured: memory that was given back would serve the next ones.
    let mut versions = Vec::with_capacity(rt.alloc(), SIZES.len() * (VERSIONS as usize + 1))?;
    measure_each(rt, &mut versions)
}

fn measure_each(rt: &HostRuntime, versions: &mut Vec<Document>) -> Result<(), Fault> {
    for records in &SIZES {
        versions.push(layouts::document(rt.alloc(), Layout::Flat, *records)?)?;
        measure(rt, versions, *records)?;
    }
    Ok(())
}

// Puts versions behind the newest, and prints the memory that each takes as a mean.
fn measure(rt: &HostRuntime, versions: &mut Vec<Document>, records: u32) -> Result<(), Fault> {
    let before = resident(rt)?;
    for number in 0..VERSIONS {
        push_posed(rt.alloc(), versions, number % records.max(1) + 2)?;
    }
    let more = resident(rt)?.saturating_sub(before);
    println!(rt;
        "{records:>6} records: {} bytes a version",
        more / VERSIONS as u64
    )?;
    Ok(())
}

// Puts a version with another pose of a record behind the newest.
fn push_posed(alloc: Global, versions: &mut Vec<Document>, id: u32) -> Result<(), Fault> {
    let pose = Pose {
        dx: 3,
        ..Pose::STILL
    };
    if let Some(newest) = versions.last() {
        let next = edited(alloc, newest, &Edit::Pose { id, pose })?;
        versions.push(next)?;
    }
    Ok(())
}

// How many bytes of memory the program has.
fn resident(rt: &HostRuntime) -> Result<u64, Fault> {
    let text = fs::read(rt, "/proc/self/statm")?;
    Ok(second_number(&text).saturating_mul(PAGE))
}

// The second of the numbers in a text; 0 where there is none.
fn second_number(text: &[u8]) -> u64 {
    let Ok(text) = str::from_utf8(text) else {
        return 0;
    };
    match text.split(' ').nth(1) {
        Some(word) => word.parse().unwrap_or(0),
        None => 0,
    }
}
