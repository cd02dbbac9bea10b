//! How many workers the words of the command line ask for, and statuses. `tests/program/test_program.py` has words that are no command.

use crate::asserts::equal;
use canvas_server::{Command, exit_status};
use std::process::Abort;

// Asserts that words are such a command.
fn check_read(rt: &impl Abort, words: &[&str], wanted: Command) {
    let found = Command::read(words);
    equal(rt, "words", &(words, found), &(words, Some(wanted)));
}

#[test]
fn workers(rt: HostRuntime) {
    for (word, workers) in &[("1", 1), ("2", 2), ("9", 9), ("10", 10), ("16", 16)] {
        let wanted = Command::Script { workers: *workers };
        check_read(&rt, &["script", word], wanted);
    }
    let wanted = Command::Script { workers: 2 };
    check_read(&rt, &["script"], wanted);
    for (words, workers) in [
        (&["serve", "a", "b", "3"][..], 3),
        (&["serve", "a", "b"][..], 2),
    ] {
        let wanted = Command::Serve {
            address: "a",
            file: "b",
            workers,
        };
        check_read(&rt, words, wanted);
    }
}

#[test]
fn statuses(rt: HostRuntime) {
    for row in &[
        (Some(61), 3),
        (Some(62), 3),
        (Some(50), 3),
        (Some(60), 3),
        (Some(74), 4),
        (Some(72), 4),
        (Some(32), 4),
        (Some(1), 5),
        (Some(19), 5),
        (Some(33), 5),
        (None, 4),
    ] {
        let (code, _) = *row;
        let found = (code, exit_status(code));
        equal(&rt, "code and status", &found, row);
    }
}
