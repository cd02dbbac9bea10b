//! Why an edit is refused.

ghost use Rattle.std.specs.Prelude.{◌≡◌};
ghost use Rattle.canvas_record.specs.Refused.{refusal_code};
ghost use Rattle.canvas_record.specs.declared.refusals.Refusal.TheVariants.{OutOfMemory};

use canvas_code::{Coded, OutOfMemory};
use thiserror::Error;

/// Why an edit is refused.
///
/// Where several causes stand, `Document::decide` answers the first in the order `NoSuchShape`,
/// `NoSuchParent`, `NotAContainer`, `Cycle`, `TooDeep`, `TooMany`, `IdsSpent`, `WrongKind`, `BadSize`,
/// `BadPose`, `BadPolygon`, `SpotNotSibling`, `IndexTaken`, `NoRoom`, `OutOfMemory`.
#[derive(Clone, Copy, Debug, PartialEq, Eq, Drop, Error)]
#[error("{}", self.name())]
pub enum Refusal {
    /// 1: a growth was refused.
    OutOfMemory,
    /// 2: no record has the id.
    NoSuchShape,
    /// 3: no record has the parent's id.
    NoSuchParent,
    /// 4: the parent is no group and no frame.
    NotAContainer,
    /// 5: the new parent is the moved shape or lies below it.
    Cycle,
    /// 6: a record would lie more than 32 deep.
    TooDeep,
    /// 7: 16,384 records are there already.
    TooMany,
    /// 8: a side outside 1 to 65,536.
    BadSize,
    /// 9: a translation above 2^20 in size, or more than 3 quarter turns.
    BadPose,
    /// 10: a polygon of less than 3 or more than 256 vertices, or a coordinate above 2^20 in size.
    BadPolygon,
    /// 11: the spot names no sibling.
    SpotNotSibling,
    /// 12: a sibling has the index.
    IndexTaken,
    /// 13: the index at the spot would be longer than a key may be.
    NoRoom,
    /// 14: the new kind is another variant.
    WrongKind,
    /// 15: the next id is 4,294,967,295.
    IdsSpent,
}

impl Coded for Refusal {
    ghost code_of = { refusal_code };

    fn code(&self) -> u16 {
        match self {
            Refusal::OutOfMemory => 1,
            Refusal::NoSuchShape => 2,
            Refusal::NoSuchParent => 3,
            Refusal::NotAContainer => 4,
            Refusal::Cycle => 5,
            Refusal::TooDeep => 6,
            Refusal::TooMany => 7,
            Refusal::BadSize => 8,
            Refusal::BadPose => 9,
            Refusal::BadPolygon => 10,
            Refusal::SpotNotSibling => 11,
            Refusal::IndexTaken => 12,
            Refusal::NoRoom => 13,
            Refusal::WrongKind => 14,
            Refusal::IdsSpent => 15,
        }
    }
}

impl From<OutOfMemory> for Refusal {
    ghost from_gives = { λ _ refusal. refusal ≡ OutOfMemory };

    fn from(_: OutOfMemory) -> Refusal {
        Refusal::OutOfMemory
    }
}
