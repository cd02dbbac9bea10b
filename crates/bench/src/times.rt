//! Times, and what is told of them.

use crate::fault::Fault;
use std::time::Clock;

/// How many nanoseconds the processor is kept busy before anything is timed, for it comes to its
/// speed only then.
const WARM_UP: u64 = 300_000_000;

/// Ends well where the clock can be read, as `now` reads it.
pub fn check_clock<R: Clock>(rt: &R) -> Result<(), Fault> {
    rt.monotonic()?;
    Ok(())
}

/// Keeps the processor busy for a while.
pub fn warm_up<R: Clock>(rt: &R) {
    let start = now(rt);
    for _ in 0..u32::MAX {
        if WARM_UP <= since(rt, start) {
            break;
        }
    }
}

/// The nanoseconds of the clock, which the program has read before; 0 where it can't be read any more.
#[inline(always)]
pub fn now<R: Clock>(rt: &R) -> u64 {
    match rt.monotonic() {
        Ok(time) => time.as_nanos().min(u128::from(u64::MAX)) as u64,
        Err(_) => 0,
    }
}

/// The nanoseconds since a time of the clock.
#[inline(always)]
pub fn since<R: Clock>(rt: &R, start: u64) -> u64 {
    now(rt).saturating_sub(start)
}

/// The least and the middle of some times, both 0 where there are none. The times are put in order.
pub fn least_and_middle(times: &mut [u64]) -> (u64, u64) {
    times.sort_unstable();
    let least = times.first().copied().unwrap_or_default();
    let middle = times.get(times.len() / 2).copied().unwrap_or_default();
    (least, middle)
}
