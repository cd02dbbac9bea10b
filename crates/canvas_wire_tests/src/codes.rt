//! The table of codes and names.

use crate::asserts::{holds, holds_for};
use canvas_code::name_of;

// Each code with its name, written by hand and not taken from the sources.
static NAMES: [(u16, &str); 47] = [
    (1, "OutOfMemory"),
    (2, "NoSuchShape"),
    (3, "NoSuchParent"),
    (4, "NotAContainer"),
    (5, "Cycle"),
    (6, "TooDeep"),
    (7, "TooMany"),
    (8, "BadSize"),
    (9, "BadPose"),
    (10, "BadPolygon"),
    (11, "SpotNotSibling"),
    (12, "IndexTaken"),
    (13, "NoRoom"),
    (14, "WrongKind"),
    (15, "IdsSpent"),
    (16, "VersionsSpent"),
    (17, "Behind"),
    (18, "Strangers"),
    (19, "NoSeats"),
    (20, "BadHead"),
    (21, "TooShort"),
    (22, "BadDigit"),
    (23, "LastZero"),
    (24, "LeastInteger"),
    (25, "KeyTooLong"),
    (30, "BadWindow"),
    (31, "BadWorkers"),
    (32, "BadSetting"),
    (33, "NoView"),
    (34, "BadLevel"),
    (40, "NotP6"),
    (41, "BadHeader"),
    (42, "Truncated"),
    (43, "TooLong"),
    (50, "BadJson"),
    (51, "NotObject"),
    (52, "BadVerb"),
    (53, "BadField"),
    (54, "ExtraField"),
    (60, "BadFormat"),
    (61, "BadRecord"),
    (62, "BadTree"),
    (70, "LineTooLong"),
    (71, "ReadFault"),
    (72, "WriteFault"),
    (73, "TooManyRequests"),
    (74, "CutLine"),
];

// The name that the table gives a number, or an empty text where it has none.
fn listed(code: u16) -> &'static str {
    for (number, name) in &NAMES {
        if *number == code {
            return name;
        }
    }
    ""
}

#[test]
fn every_code_has_its_name_and_no_other_number_has_one(rt: HostRuntime) {
    for code in 0..1_000u16 {
        let is_named = name_of(code) == listed(code);
        holds_for(&rt, "code", usize::from(code), is_named);
    }
    holds(&rt, "the last code", name_of(65_535).is_empty());
}
