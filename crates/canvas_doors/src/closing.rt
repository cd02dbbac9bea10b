//! How a connection is closed, so that its last reply arrives.

use crate::doors::Stream;
use crate::seats::Settling;
use std::io::Read;
use std::net::Shutdown;
use std::sync::{Mutex, Wait};
use std::time::{Clock, Duration, Instant};

/// How many seconds the server reads on after a closing reply.
const SETTLING: u64 = 2;

/// How many pieces of at most 4,096 bytes it then reads at most: 1 MiB.
const MOST_PIECES: u32 = 256;

/// Ends what is sent, and reads what still comes, at most 1 MiB for two seconds, and up to two more
/// where a read waits: a connection that is closed with bytes unread is reset, and a reset may take
/// the closing reply with it.
pub fn settle<H: Clock>(rt: &H, stream: &Stream) {
    let mut reader = stream;
    let patience = Duration::from_secs(SETTLING);
    let Ok(start) = Instant::now(rt) else {
        return;
    };
    if stream.shutdown(Shutdown::Write).is_err() || stream.set_read_timeout(patience).is_err() {
        return;
    }
    let mut bytes = [0u8; 4096];
    for _ in 0..MOST_PIECES {
        match reader.read(&mut bytes) {
            Ok(count) if count > 0 => {}
            _ => return,
        }
        match start.elapsed(rt) {
            Ok(time) if time < patience => {}
            _ => return,
        }
    }
}

/// Settles a connection that was counted.
pub fn settle_counted<H: Wait + Clock>(rt: &H, settling: &Mutex<Settling>, stream: &Stream) {
    settle(rt, stream);
    settling.lock(rt).end();
}
