//! How far the followers of a feed are, by their places.
ghost use Rattle.std.specs.Prelude.{◌≡◌};
ghost use Rattle.canvas_status.specs.Followers.{behind, followers_at, lag_at};

/// The most followers at once.
pub const MOST_FOLLOWERS: usize = 256;

/// How many follow. At the place of a follower stands one more than the last version that was sent
/// to it, and 0 where nobody follows.
pub(crate) fn followers_at(places: &[u64]) -> u64
    ensures { result ≡ followers_at places.now }
{
    places.iter().filter(|place| **place != 0).count() as u64
}

/// How many of the kept versions were not sent to the follower that is farthest behind.
pub(crate) fn lag_at(places: &[u64], kept: u64) -> u64
    ensures { result ≡ lag_at kept places.now }
{
    let mut most = 0;
    for place in places {
        most = most.max(behind(kept, *place));
    }
    most
}

// How many of the kept versions were not sent to the follower of a place.
fn behind(kept: u64, place: u64) -> u64
    ensures { result ≡ behind kept place }
{
    match place.checked_sub(1) {
        Some(sent) => kept.saturating_sub(sent),
        None => 0,
    }
}
