//! How long a client that is inside a line is waited for.

ghost use Rattle.std.specs.Prelude.{◌≡◌, ◌≤◌, ◌<◌, ◌+◌, ◌^◌, ◌-◌, min, IfNone, IfSome};
ghost use Rattle.canvas_doors.specs.Waits.{has_lf, longer, waited_after};

/// How much time a line has left that has been waited for so long, of the most that it has.
pub fn time_left(waited: u64, most: u64) -> Option<u64>
    ensures left { IfSome result (λ left. waited + left ≡ most) }
    ensures some { IfSome result (λ left. 0 < left) }
    ensures none { IfNone result (most ≤ waited) }
{
    if waited < most {
        Some(most - waited)
    } else {
        None
    }
}

/// How long the line has been waited for in which these bytes end, which came after a wait. A line
/// is waited for from its first byte on; `None` is between two lines.
pub fn waited_after(waited: Option<u64>, bytes: &[u8], passed: u64) -> Option<u64>
    ensures { result ≡ waited_after waited bytes.now passed }
{
    if bytes.ends_with(b"\n") {
        return None;
    }
    if has_lf(bytes) {
        return Some(0);
    }
    Some(longer(waited, passed))
}

fn longer(waited: Option<u64>, passed: u64) -> u64
    ensures { Some result ≡ longer waited passed }
{
    match waited {
        Some(waited) => waited.saturating_add(passed),
        None => 0,
    }
}

fn has_lf(bytes: &[u8]) -> bool
    ensures { result ≡ has_lf bytes.now }
{
    bytes.iter().any(|byte| *byte == b'\n')
}
