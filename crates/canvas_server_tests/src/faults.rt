//! The number, the name and the text of each fault of a server.

use crate::asserts::{equal, holds};
use canvas_server::ServerFault;
use std::alloc::Global;
use std::process::Abort;

// Asserts that a fault has such a number, or none, and such a name, and that it reads as the name.
fn assert_told(rt: &impl Abort, alloc: Global, fault: ServerFault, code: Option<u16>, name: &str) {
    let text = format!(in alloc; "{fault}").expect(rt, "memory");
    equal(rt, "a fault", &(fault.code(), fault.name()), &(code, name));
    holds(rt, name, text.as_str() == name);
}

#[test]
fn faults_of_servers(rt: HostRuntime) {
    for (fault, code, name) in &[
        (ServerFault::BadSetting, Some(32), "BadSetting"),
        (ServerFault::BadWorkers, Some(31), "BadWorkers"),
        (ServerFault::NoSeats, Some(19), "NoSeats"),
        (ServerFault::OutOfMemory, Some(1), "OutOfMemory"),
        (ServerFault::AcceptFault, None, "AcceptFault"),
    ] {
        assert_told(&rt, rt.alloc(), *fault, *code, name);
    }
}
