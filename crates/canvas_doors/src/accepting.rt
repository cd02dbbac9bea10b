//! How connections are accepted at doors, and no longer.

ghost use Rattle.std.specs.Prelude.{◌≡◌};
ghost use Rattle.std.specs.IoError.{raw_os_error};
ghost use Rattle.canvas_doors.specs.Accepting.{is_passing, is_passing_number};

use crate::doors::{Accepts, Door, Stream};
use crate::ending::Ending;
use crate::seats::Guest;
use std::net::Net;
use std::sync::Wait;
use std::time::{Clock, Duration};
use std::{io, thread};

/// With how many accepts that fail in a row, and not for want of anything, a door is given up.
const PATIENCE: u32 = 100;

/// How many milliseconds the server waits after an accept that failed.
const PAUSE: u64 = 10;

/// How often the server looks whether all sessions have ended before it cuts those that are left:
/// once in ten milliseconds.
const LOOKS: u32 = 500;

/// What came of waiting for a connection.
#[derive(Debug, Drop)]
pub enum Arrival {
    /// A connection, and who comes by it.
    Came(Stream, Guest),
    /// None could be accepted, for want of memory or files, or it was given up: wait on.
    Missed,
    /// The server ends, or no connection can be accepted any more.
    Over,
}

/// Waits for the next connection that comes to a door.
pub fn next_stream<H: Wait + Clock, D: Accepts>(rt: &H, door: &D, ending: &Ending) -> Arrival {
    for _ in 0..PATIENCE {
        let accepted = door.accept();
        if ending.has_begun() {
            return Arrival::Over;
        }
        match accepted {
            Ok((stream, guest)) => return Arrival::Came(stream, guest),
            Err(error) => {
                thread::sleep(rt, Duration::from_millis(PAUSE));
                if is_passing(&error) {
                    return Arrival::Missed;
                }
            }
        }
    }
    Arrival::Over
}

/// Whether an accept failed for want of memory or of files, or because the connection was given up:
/// the next one may go well.
pub fn is_passing(error: &io::Error) -> bool
    ensures { result ≡ is_passing (raw_os_error error.now) }
{
    match error.raw_os_error() {
        Some(number) => is_passing_number(number),
        None => false,
    }
}

// The numbers of ENOMEM, ENFILE, EMFILE, ECONNABORTED and ENOBUFS.
fn is_passing_number(number: i32) -> bool
    ensures { result ≡ is_passing_number number }
{
    number == 12 || number == 23 || number == 24 || number == 103 || number == 105
}

/// Wakes the threads at the doors, and gives the sessions time to end; then cuts those that are left.
pub fn close_doors<H: Wait + Clock + Net>(rt: &H, doors: &[Door], ending: &Ending) {
    for door in doors {
        door.wake(rt);
    }
    for _ in 0..LOOKS {
        if ending.is_empty(rt) {
            return;
        }
        thread::sleep(rt, Duration::from_millis(PAUSE));
    }
    ending.cut(rt);
}
