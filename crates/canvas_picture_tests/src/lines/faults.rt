//! The number, the name and the text of each refusal of a line.

use crate::asserts::equal;
use canvas_code::Coded;
use canvas_doc::Refusal;
use canvas_line::LineFault;
use std::alloc::Global;
use std::process::Abort;

/// A refusal of a line, its number and its name.
type Row = (LineFault, u16, &'static str);

const FAULTS: [Row; 7] = [
    (LineFault::OutOfMemory, 1, "OutOfMemory"),
    (LineFault::VersionsSpent, 16, "VersionsSpent"),
    (LineFault::Behind { desk: 1, front: 2 }, 17, "Behind"),
    (LineFault::Strangers { own: 1, found: 2 }, 18, "Strangers"),
    (LineFault::NoSeats, 19, "NoSeats"),
    (LineFault::BadSetting, 32, "BadSetting"),
    (LineFault::NoView, 33, "NoView"),
];

const REFUSALS: [Row; 15] = [
    (LineFault::Refused(Refusal::OutOfMemory), 1, "OutOfMemory"),
    (LineFault::Refused(Refusal::NoSuchShape), 2, "NoSuchShape"),
    (LineFault::Refused(Refusal::NoSuchParent), 3, "NoSuchParent"),
    (
        LineFault::Refused(Refusal::NotAContainer),
        4,
        "NotAContainer",
    ),
    (LineFault::Refused(Refusal::Cycle), 5, "Cycle"),
    (LineFault::Refused(Refusal::TooDeep), 6, "TooDeep"),
    (LineFault::Refused(Refusal::TooMany), 7, "TooMany"),
    (LineFault::Refused(Refusal::BadSize), 8, "BadSize"),
    (LineFault::Refused(Refusal::BadPose), 9, "BadPose"),
    (LineFault::Refused(Refusal::BadPolygon), 10, "BadPolygon"),
    (
        LineFault::Refused(Refusal::SpotNotSibling),
        11,
        "SpotNotSibling",
    ),
    (LineFault::Refused(Refusal::IndexTaken), 12, "IndexTaken"),
    (LineFault::Refused(Refusal::NoRoom), 13, "NoRoom"),
    (LineFault::Refused(Refusal::WrongKind), 14, "WrongKind"),
    (LineFault::Refused(Refusal::IdsSpent), 15, "IdsSpent"),
];

// Asserts that each fault has its number and its name, and that it reads as the name.
fn check_told(rt: &impl Abort, alloc: Global, rows: &[Row]) {
    for (fault, code, name) in rows {
        let text = format!(in alloc; "{fault}").expect(rt, "memory");
        equal(rt, name, &fault.code(), code);
        equal(rt, name, &fault.name(), name);
        equal(rt, name, &text.as_str(), name);
    }
}

#[test]
fn faults_of_lines(rt: HostRuntime) {
    check_told(&rt, rt.alloc(), &FAULTS);
}

#[test]
fn refusals_of_a_document_at_a_line(rt: HostRuntime) {
    check_told(&rt, rt.alloc(), &REFUSALS);
}
