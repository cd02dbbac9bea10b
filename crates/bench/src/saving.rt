//! Times opening and saving: standard input holds a saved document, and the least times of some
//! rounds are printed.

use crate::fault::Fault;
use crate::times::{now, since};
use canvas_doc::Document;
use canvas_saved::{export, import};
use std::io::Read;

const ROUNDS: u32 = 20;

/// Times the opening and the saving of the document on standard input.
pub fn time_all(rt: &HostRuntime) -> Result<(), Fault> {
    let mut text = Vec::new(rt.alloc());
    rt.stdin().read_to_end(&mut text)?;
    time_text(rt, &text)
}

fn time_text(rt: &HostRuntime, text: &[u8]) -> Result<(), Fault> {
    if text.is_empty() {
        println!(rt; "give a saved document on standard input")?;
        return Ok(());
    }
    let mut least_opening = u64::MAX;
    let mut least_saving = u64::MAX;
    for _ in 0..ROUNDS {
        let (opening, saving) = time_round(rt, text)?;
        least_opening = least_opening.min(opening);
        least_saving = least_saving.min(saving);
    }
    println!(rt;
        "opening {} us, saving {} us",
        least_opening / 1000,
        least_saving / 1000
    )?;
    Ok(())
}

// The times of opening a text and of saving it again.
fn time_round(rt: &HostRuntime, text: &[u8]) -> Result<(u64, u64), Fault> {
    let start = now(rt);
    let document = import(rt.alloc(), text)?;
    let opening = since(rt, start);
    time_saving(rt, &document, text, opening)
}

// The time of opening a document, and that of saving it, whose text this must be.
fn time_saving(
    rt: &HostRuntime,
    document: &Document,
    text: &[u8],
    opening: u64,
) -> Result<(u64, u64), Fault> {
    let start = now(rt);
    let saved = export(rt.alloc(), document)?;
    let saving = since(rt, start);
    if saved.as_slice() == text {
        Ok((opening, saving))
    } else {
        Err(Fault::NoDocument)
    }
}
