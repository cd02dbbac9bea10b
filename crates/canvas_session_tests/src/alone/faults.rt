//! The number, the name and the text of each refusal, but for those of lines and of servers.

use crate::asserts::holds;
use canvas_board::BoardFault;
use canvas_code::{Coded, OutOfMemory};
use canvas_doc::{Refusal, TreeFault};
use canvas_key::KeyFault;
use canvas_paint::PaintFault;
use canvas_plane::{PoseFault, WindowFault};
use canvas_ppm::PpmFault;
use canvas_saved::StoreFault;
use canvas_session::{Cause, SessionFault};
use canvas_shape::KindFault;
use canvas_wire::WireFault;
use std::alloc::Global;
use std::fmt::Display;
use std::process::Abort;

// Asserts that a fault reads as its name, and that its number and name are these.
fn assert_told<T: Display>(
    rt: &impl Abort,
    alloc: Global,
    fault: &T,
    found: (u16, &str),
    wanted: (u16, &str),
) {
    let (_, name) = wanted;
    let is_told = found == wanted;
    holds(rt, name, is_told && reads_as(rt, alloc, fault, name));
}

// Whether a fault reads as such a name.
fn reads_as<T: Display>(rt: &impl Abort, alloc: Global, fault: &T, name: &str) -> bool {
    let text = format!(in alloc; "{fault}").expect(rt, "memory");
    text.as_str() == name
}

#[test]
fn faults_of_keys(rt: HostRuntime) {
    for (fault, code, name) in &[
        (KeyFault::NoRoom, 13, "NoRoom"),
        (KeyFault::BadHead, 20, "BadHead"),
        (KeyFault::TooShort, 21, "TooShort"),
        (KeyFault::BadDigit, 22, "BadDigit"),
        (KeyFault::LastZero, 23, "LastZero"),
        (KeyFault::LeastInteger, 24, "LeastInteger"),
        (KeyFault::KeyTooLong, 25, "KeyTooLong"),
    ] {
        let found = (fault.code(), fault.name());
        assert_told(&rt, rt.alloc(), fault, found, (*code, *name));
    }
}

#[test]
fn faults_of_values(rt: HostRuntime) {
    let alloc = rt.alloc();
    let memory = (OutOfMemory.code(), OutOfMemory.name());
    assert_told(&rt, alloc, &OutOfMemory, memory, (1, "OutOfMemory"));
    let pose = PoseFault::BadPose;
    assert_told(
        &rt,
        alloc,
        &pose,
        (pose.code(), pose.name()),
        (9, "BadPose"),
    );
    for (fault, code, name) in &[
        (WindowFault::BadLevel, 34, "BadLevel"),
        (WindowFault::BadWindow, 30, "BadWindow"),
    ] {
        let found = (fault.code(), fault.name());
        assert_told(&rt, alloc, fault, found, (*code, *name));
    }
    for (fault, code, name) in &[
        (KindFault::BadSize, 8, "BadSize"),
        (KindFault::BadPolygon, 10, "BadPolygon"),
    ] {
        let found = (fault.code(), fault.name());
        assert_told(&rt, alloc, fault, found, (*code, *name));
    }
}

#[test]
fn refusals_of_edits(rt: HostRuntime) {
    for (fault, code, name) in &[
        (Refusal::OutOfMemory, 1, "OutOfMemory"),
        (Refusal::NoSuchShape, 2, "NoSuchShape"),
        (Refusal::NoSuchParent, 3, "NoSuchParent"),
        (Refusal::NotAContainer, 4, "NotAContainer"),
        (Refusal::Cycle, 5, "Cycle"),
        (Refusal::TooDeep, 6, "TooDeep"),
        (Refusal::TooMany, 7, "TooMany"),
        (Refusal::BadSize, 8, "BadSize"),
        (Refusal::BadPose, 9, "BadPose"),
        (Refusal::BadPolygon, 10, "BadPolygon"),
        (Refusal::SpotNotSibling, 11, "SpotNotSibling"),
        (Refusal::IndexTaken, 12, "IndexTaken"),
        (Refusal::NoRoom, 13, "NoRoom"),
        (Refusal::WrongKind, 14, "WrongKind"),
        (Refusal::IdsSpent, 15, "IdsSpent"),
    ] {
        let alloc = rt.alloc();
        let found = (fault.code(), fault.name());
        assert_told(&rt, alloc, fault, found, (*code, *name));
        let board = BoardFault::Refused(*fault);
        let found = (board.code(), board.name());
        assert_told(&rt, alloc, &board, found, (*code, *name));
    }
}

#[test]
fn faults_of_boards(rt: HostRuntime) {
    for (fault, code, name) in &[
        (BoardFault::OutOfMemory, 1, "OutOfMemory"),
        (BoardFault::VersionsSpent, 16, "VersionsSpent"),
        (BoardFault::Behind { desk: 1, front: 2 }, 17, "Behind"),
        (BoardFault::Strangers { own: 1, found: 2 }, 18, "Strangers"),
        (BoardFault::BadWorkers, 31, "BadWorkers"),
        (BoardFault::BadSetting, 32, "BadSetting"),
        (BoardFault::NoView, 33, "NoView"),
    ] {
        let found = (fault.code(), fault.name());
        assert_told(&rt, rt.alloc(), fault, found, (*code, *name));
    }
}

#[test]
fn faults_of_pictures(rt: HostRuntime) {
    let alloc = rt.alloc();
    for (fault, code, name) in &[
        (PaintFault::BadWorkers, 31, "BadWorkers"),
        (PaintFault::OutOfMemory, 1, "OutOfMemory"),
    ] {
        let found = (fault.code(), fault.name());
        assert_told(&rt, alloc, fault, found, (*code, *name));
    }
    for (fault, code, name) in &[
        (PpmFault::NotP6, 40, "NotP6"),
        (PpmFault::BadHeader, 41, "BadHeader"),
        (PpmFault::Truncated, 42, "Truncated"),
        (PpmFault::TooLong, 43, "TooLong"),
        (PpmFault::OutOfMemory, 1, "OutOfMemory"),
    ] {
        let found = (fault.code(), fault.name());
        assert_told(&rt, alloc, fault, found, (*code, *name));
    }
}

#[test]
fn faults_of_saved_documents(rt: HostRuntime) {
    let alloc = rt.alloc();
    for (fault, code, name) in &[
        (TreeFault::OutOfMemory, 1, "OutOfMemory"),
        (TreeFault::BadRecord { position: 3 }, 61, "BadRecord"),
        (TreeFault::BadTree { position: 3 }, 62, "BadTree"),
    ] {
        let found = (fault.code(), fault.name());
        assert_told(&rt, alloc, fault, found, (*code, *name));
    }
    for (fault, code, name) in &[
        (StoreFault::OutOfMemory, 1, "OutOfMemory"),
        (StoreFault::BadJson, 50, "BadJson"),
        (StoreFault::BadFormat, 60, "BadFormat"),
        (StoreFault::BadRecord { position: 3 }, 61, "BadRecord"),
        (StoreFault::BadTree { position: 3 }, 62, "BadTree"),
    ] {
        let found = (fault.code(), fault.name());
        assert_told(&rt, alloc, fault, found, (*code, *name));
    }
}

#[test]
fn faults_of_requests(rt: HostRuntime) {
    for (fault, code, name) in &[
        (WireFault::OutOfMemory, 1, "OutOfMemory"),
        (WireFault::BadJson, 50, "BadJson"),
        (WireFault::NotObject, 51, "NotObject"),
        (WireFault::BadVerb, 52, "BadVerb"),
        (WireFault::BadField, 53, "BadField"),
        (WireFault::ExtraField, 54, "ExtraField"),
    ] {
        let found = (fault.code(), fault.name());
        assert_told(&rt, rt.alloc(), fault, found, (*code, *name));
    }
}

#[test]
fn causes_that_end_a_session(rt: HostRuntime) {
    for (cause, code, name) in &[
        (Cause::OutOfMemory, 1, "OutOfMemory"),
        (Cause::LineTooLong, 70, "LineTooLong"),
        (Cause::ReadFault, 71, "ReadFault"),
        (Cause::WriteFault, 72, "WriteFault"),
        (Cause::TooManyRequests, 73, "TooManyRequests"),
        (Cause::CutLine, 74, "CutLine"),
    ] {
        let alloc = rt.alloc();
        let found = (cause.code(), cause.name());
        assert_told(&rt, alloc, cause, found, (*code, *name));
        let fault = SessionFault {
            cause: *cause,
            answered: 1,
            written: 2,
        };
        let found = (fault.code(), fault.name());
        assert_told(&rt, alloc, &fault, found, (*code, *name));
    }
}
