//! Poses: what they do to points, and how they follow one another.

ghost use Rattle.std.specs.Prelude.{◌≡◌, ◌≤◌, ◌+◌, ◌-◌, ◌%◌, ◌^◌, ◌↔◌, ◌+ℤ◌, FitsSigned, IsOk, IfOk, None, Some, MatchResult, nat_le, ◌&&◌};
ghost use Rattle.std.specs.Int.{w64};
ghost use Rattle.canvas_plane.specs.declared.Point.{Point};
ghost use Rattle.canvas_plane.specs.declared.Pose.{Pose};
ghost use Rattle.canvas_plane.specs.Motion.{carry, flipped, turned, moved, negated, reach_of, turns_of, turns_back, place_of, size_of};
ghost use Rattle.canvas_plane.specs.Limits.{is_pose, pose_fault, IsPose};

use crate::{Point, Pose, PoseFault};
use canvas_code::Coded;

impl Coded for PoseFault {
    ghost code_of = { λ _. 9 };

    fn code(&self) -> u16 {
        match self {
            PoseFault::BadPose => 9,
        }
    }
}

impl Pose {
    /// The pose that moves nothing.
    pub const STILL: Pose = Pose {
        dx: 0,
        dy: 0,
        quarter: 0,
        flip: false,
    };

    /// `STILL`, by the law that it carries each point to itself.
    pub fn law_of_still() -> Pose
        ensures { (p : Point) → carry result p ≡ p }
    {
        Pose::STILL
    }

    /// The pose of these parts, refused as `BadPose` where `check` refuses it.
    pub fn new(dx: i64, dy: i64, quarter: u8, flip: bool) -> Result<Pose, PoseFault>
        ensures fault { MatchResult result
            (λ _. pose_fault (record { dx = dx; dy = dy; quarter = quarter; flip = flip }) ≡ None)
            (λ fault. pose_fault (record { dx = dx; dy = dy; quarter = quarter; flip = flip })
            ≡ Some fault) }
        ensures value { IfOk result
            (λ pose. pose ≡ record { dx = dx; dy = dy; quarter = quarter; flip = flip }) }
        ensures limits { IfOk result IsPose }
    {
        let pose = Pose {
            dx,
            dy,
            quarter,
            flip,
        };
        pose.check()?;
        Ok(pose)
    }

    /// Refuses as `BadPose` a dx or dy above 2^20 in size, and a quarter above 3.
    pub fn check(&self) -> Result<(), PoseFault>
        ensures fault { MatchResult result (λ _. pose_fault self.now ≡ None)
            (λ fault. pose_fault self.now ≡ Some fault) }
        ensures limits { IsOk result ↔ IsPose self.now }
    {
        if self.is_within() {
            Ok(())
        } else {
            Err(PoseFault::BadPose)
        }
    }

    fn is_within(&self) -> bool
        ensures { result ≡ is_pose self.now }
    {
        if self.quarter <= 3 {
            self.reach() <= 1 << 20
        } else {
            false
        }
    }

    /// The greater size of dx and dy.
    pub fn reach(&self) -> u64
        ensures { result ≡ reach_of self.now }
    {
        self.dx.unsigned_abs().max(self.dy.unsigned_abs())
    }

    /// Where the pose carries a point.
    pub fn apply(&self, point: Point) -> Point
        requires quarters { self.now.quarter ≤ 3 }
        requires reach { reach_of self.now ≤ 2 ^ 26 }
        requires within { size_of point ≤ 2 ^ 27 }
        ensures value { result ≡ carry self.now point }
        ensures size { size_of result ≤ size_of point + reach_of self.now }
    {
        turn(self.quarter, flip(self.flip, point)).plus(self.dx, self.dy)
    }

    /// This pose, and then the next.
    pub fn then(&self, next: &Pose) -> Pose
        requires quarters { (self.now.quarter ≤ 3) × (next.now.quarter ≤ 3) }
        requires reaches { reach_of self.now + reach_of next.now ≤ 2 ^ 26 }
        ensures carries { (p : Point) → carry result p ≡ carry next.now (carry self.now p) }
        ensures quarter { result.quarter ≤ 3 }
        ensures reach { reach_of result ≤ reach_of self.now + reach_of next.now }
    {
        let place = next.apply(self.place());
        posed(
            place,
            turns(next.flip, self.quarter, next.quarter),
            self.flip != next.flip,
        )
    }

    /// The pose that carries back what this pose carries, and carries what this pose carries back.
    pub fn inverse(&self) -> Pose
        requires quarters { self.now.quarter ≤ 3 }
        requires reach { reach_of self.now ≤ 2 ^ 26 }
        ensures undoes { (p : Point) → carry result (carry self.now p) ≡ p }
        ensures undone { (p : Point) → carry self.now (carry result p) ≡ p }
        ensures quarter { result.quarter ≤ 3 }
        ensures reach { reach_of result ≡ reach_of self.now }
    {
        let quarter = quarters_back(self.flip, self.quarter);
        let place = turn(quarter, flip(self.flip, self.place()));
        posed(opposite(place), quarter, self.flip)
    }

    // Where the origin is carried.
    fn place(&self) -> Point
        ensures place { result ≡ place_of self.now }
        ensures size { size_of result ≡ reach_of self.now }
    {
        Point {
            x: self.dx,
            y: self.dy,
        }
    }
}

// The pose that carries the origin to a place.
fn posed(place: Point, quarter: u8, flip: bool) -> Pose
    ensures place { place_of result ≡ place }
    ensures quarter { result.quarter ≡ quarter }
    ensures flip { result.flip ≡ flip }
    ensures reach { reach_of result ≡ size_of place }
{
    Pose {
        dx: place.x,
        dy: place.y,
        quarter,
        flip,
    }
}

// How often the composition turns, where the second pose may flip.
fn turns(flip: bool, first: u8, second: u8) -> u8
    requires { (first ≤ 3) × (second ≤ 3) }
    ensures { result ≡ turns_of flip first second }
{
    if flip {
        (4 - first + second) % 4
    } else {
        (first + second) % 4
    }
}

// How often the inverse turns: after a flip the turns run the other way.
fn quarters_back(flip: bool, quarter: u8) -> u8
    requires { quarter ≤ 3 }
    ensures value { result ≡ turns_back flip quarter }
    ensures bound { result ≤ 3 }
{
    if flip { quarter } else { (4 - quarter) % 4 }
}

fn opposite(point: Point) -> Point
    requires { size_of point ≤ 2 ^ 27 }
    ensures value { result ≡ negated point }
    ensures size { size_of result ≡ size_of point }
{
    Point {
        x: -point.x,
        y: -point.y,
    }
}

impl Point {
    fn plus(self, dx: i64, dy: i64) -> Point
        requires x_fits { FitsSigned w64 (self.x +ℤ dx) }
        requires y_fits { FitsSigned w64 (self.y +ℤ dy) }
        ensures value { result ≡ moved (record { x = dx; y = dy }) self }
    {
        Point {
            x: self.x + dx,
            y: self.y + dy,
        }
    }
}

fn flip(flip: bool, point: Point) -> Point
    requires { size_of point ≤ 2 ^ 27 }
    ensures value { result ≡ flipped flip point }
    ensures size { size_of result ≡ size_of point }
{
    if flip {
        Point {
            x: -point.x,
            y: point.y,
        }
    } else {
        point
    }
}

// Both steps are choices between values, not jumps: the quarters of shapes that a walk comes to are
// as good as random.
fn turn(quarter: u8, point: Point) -> Point
    requires quarters { quarter ≤ 3 }
    requires within { size_of point ≤ 2 ^ 27 }
    ensures value { result ≡ turned quarter point }
    ensures size { size_of result ≡ size_of point }
{
    let once = if quarter % 2 == 1 {
        Point {
            x: -point.y,
            y: point.x,
        }
    } else {
        point
    };
    if quarter >= 2 { opposite(once) } else { once }
}
