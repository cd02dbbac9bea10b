//! Which seats of a server are taken, and by whom, and how many connections are being settled.

ghost use Rattle.std.specs.Prelude.{◌≡◌, ◌<◌, ◌+◌, ◌-◌, ◌⊎◌, All, IfSome, IfNone, IsSome, IsTrue, IsFalse, slice_get, slice_set, Some, None, replicate, take, true, false};
ghost use Rattle.std.specs.List.{count_by};
ghost use Rattle.canvas_doors.specs.Seats.{has_room, has_share, is_from, is_shared, may_take};

use std::marker::Model;

/// The most seats of a server.
pub const MOST_SEATS: usize = 64;

/// The most connections that are being settled at once.
pub const MOST_SETTLING: u32 = 16;

/// Who has a seat, or wants one.
#[derive(Clone, Copy, Debug, Drop, PartialEq, Eq)]
pub enum Guest {
    /// One at a door with seats of its own, as the gateway's.
    Own,
    /// A program of this machine.
    Near,
    /// One of another machine, by the number of its address.
    Far(u64),
}

/// How the seats of a server are shared.
#[derive(Clone, Copy, Debug, Drop, PartialEq, Eq)]
pub struct Shares {
    /// How many seats there are.
    pub count: usize,
    /// How many of them only those have who come by a door with seats of its own.
    pub own: usize,
    /// How many of them one address of another machine may have.
    pub each: usize,
}

/// Who has which seat, seen as a list.
#[derive(Drop)]
pub struct Seats {
    guests: [Option<Guest>; MOST_SEATS],
}

impl Model for Seats {
    ghost use Rattle.std.specs.Prelude.{List, Option};
    ghost use Rattle.canvas_doors.specs.declared.seats.Guest.{Guest};

    ghost Value = { List (Option Guest) };

    ghost view = { λ s. s.guests };
}

impl Seats {
    /// No seat is taken.
    pub fn new() -> Seats
        ensures { result ≡ replicate 64 None }
    {
        Seats {
            guests: [None; MOST_SEATS],
        }
    }

    /// Takes the first free seat, or `None` where all of them are taken, or as many as the guest may
    /// have.
    pub fn take(&mut self, guest: Guest, shares: &Shares) -> Option<usize>
        ensures within { IfSome result (λ seat. seat < shares.now.count) }
        ensures free { IfSome result (λ seat. slice_get self.old seat ≡ Some None) }
        ensures first { IfSome result (λ seat. All (λ held. IsSome held) (take seat self.old)) }
        ensures may { IfSome result (λ _. may_take guest shares.now self.old ≡ true) }
        ensures taken { IfSome result (λ seat. self.new ≡ slice_set self.old seat (Some guest)) }
        ensures full { IfNone result
            ((may_take guest shares.now self.old ≡ false)
            ⊎ All (λ held. IsSome held) (take shares.now.count self.old)) }
        ensures same { IfNone result (self.new ≡ self.old) }
    {
        if !may_take(&self.guests, guest, shares) {
            return None;
        }
        let count = shares.count;
        let seat = self
            .guests
            .iter()
            .take(count)
            .position(|held| held.is_none())?;
        self.guests[seat] = Some(guest);
        Some(seat)
    }

    /// Frees a seat.
    pub fn give_back(&mut self, seat: usize)
        ensures { seat < 64 → self.new ≡ slice_set self.old seat None }
    {
        if seat < MOST_SEATS {
            self.guests[seat] = None;
        }
    }
}

// Whether one more may take a seat, where one is free.
fn may_take(held: &[Option<Guest>], guest: Guest, shares: &Shares) -> bool
    ensures { result ≡ may_take guest shares.now held.now }
{
    match guest {
        Guest::Own => true,
        Guest::Near => has_room(held, shares),
        Guest::Far(address) => has_room(held, shares) && has_share(held, address, shares),
    }
}

// Whether not all seats are taken that are no door's own.
fn has_room(held: &[Option<Guest>], shares: &Shares) -> bool
    ensures { result ≡ has_room shares.now held.now }
{
    held.iter().filter(|guest| is_shared(guest)).count() < shares.count.saturating_sub(shares.own)
}

// Whether an address has fewer seats than one may have.
fn has_share(held: &[Option<Guest>], address: u64, shares: &Shares) -> bool
    ensures { result ≡ has_share address shares.now held.now }
{
    held.iter().filter(|guest| is_from(address, guest)).count() < shares.each
}

fn is_shared(held: &Option<Guest>) -> bool
    ensures { result ≡ is_shared held.now }
{
    match held {
        None => false,
        Some(Guest::Own) => false,
        Some(Guest::Near) => true,
        Some(Guest::Far(_)) => true,
    }
}

fn is_from(address: u64, held: &Option<Guest>) -> bool
    ensures { result ≡ is_from address held.now }
{
    match held {
        None => false,
        Some(Guest::Own) => false,
        Some(Guest::Near) => false,
        Some(Guest::Far(other)) => *other == address,
    }
}

/// How many connections are being settled, at most 16.
#[derive(Drop)]
pub struct Settling {
    count: u32,
}

impl Model for Settling {
    ghost use Rattle.std.specs.Prelude.{ℕ, ◌≤◌};

    ghost Value = { ℕ };

    ghost view = { λ s. s.count };

    ghost invariant = { λ s. s.count ≤ 16 };
}

impl Settling {
    /// None is being settled.
    pub fn new() -> Settling
        ensures { result ≡ 0 }
    {
        Settling { count: 0 }
    }

    /// Counts one more, unless there are as many as may be.
    pub fn begin(&mut self) -> bool
        ensures counted { IsTrue result → (self.old < 16) × (self.new ≡ self.old + 1) }
        ensures full { IsFalse result → (self.old ≡ 16) × (self.new ≡ self.old) }
    {
        if self.count >= MOST_SETTLING {
            return false;
        }
        self.count += 1;
        true
    }

    /// Counts one less.
    pub fn end(&mut self)
        ensures { self.new ≡ self.old - 1 }
    {
        self.count = self.count.saturating_sub(1);
    }
}
