//! The rule: what stays of a line is what each thread knows of it.
use crate::published::Published;
use atomic_table::{Join, Split};
use crossbeam_utils::rule::{Outcome, Protocol};
use std::collections::LinkedList;

/// What was published once. No value of it is made.
pub struct View {
    pub known: LinkedList<Published>,
}

pub struct Constant;

impl Protocol<Published, View> for Constant {
    ghost use Rattle.canvas_line.specs.Rule.{Keeps, newcomer};

    ghost holds = { Keeps };

    ghost first = { newcomer };
}

/// The published value was seen.
pub struct Sees;

impl Outcome<Published, View> for Sees {
    ghost use Rattle.canvas_line.specs.Rule.{Seen};

    ghost then = { Seen };
}

/// A copy of what the writer knows, for a reader to take in.
pub struct Note;

impl Split<View> for Note {
    ghost left = { λ v. v };

    ghost right = { λ v. v };
}

impl Join<View> for Note {
    ghost use Rattle.canvas_line.specs.Rule.{newcomer};

    ghost both = { λ v w. w };

    ghost spent = { newcomer };
}
