//! What is changed together with a list: both, or neither.

ghost use Rattle.std.specs.Prelude.{◌≡◌, ◌+◌, OnErr, OnOk, length, ⊤};
ghost use Rattle.canvas_list.specs.Changed.{changed, list_changed, IsKept, IsPositionOf, MayChange};

use crate::contents::Contents;
use crate::in_place::ItemChange;
use crate::list::SharedList;
use crate::moves::ListChange;
use crate::part::Part;
use crate::share::Share;
use crate::sizes::PartSizes;
use canvas_code::OutOfMemory;
use std::alloc::Global;

/// What may be changed together with a list. A list makes that change once its own can't fail any
/// more, and makes its own after that.
pub trait Also {
    /// A change of it.
    type Change: Drop;

    // The change may be made.
    ghost may: { Self.Change → Self → Type 0 };

    // The change leads from one to another.
    ghost makes: { Self.Change → Self → Self → Type 0 };

    /// Makes the change. Where memory is refused, nothing is changed.
    fn make(&mut self, alloc: Global, change: Self::Change) -> Result<(), OutOfMemory>
        requires { may change self.old }
        ensures made { OnOk result (makes change self.old self.new) }
        ensures same { OnErr result (self.new ≡ self.old) };
}

/// Nothing: a list is changed alone.
#[derive(Drop)]
pub struct Alone;

impl Also for Alone {
    type Change = ();

    ghost may = { λ change alone. ⊤ };

    ghost makes = { λ change old new. ⊤ };

    #[inline(always)]
    fn make(&mut self, _: Global, _: ()) -> Result<(), OutOfMemory> {
        Ok(())
    }
}

impl<T: Share> Also for SharedList<T> {
    type Change = ListChange<T>;

    ghost may = { λ change list. MayChange change list };

    ghost makes = { λ change old new. new ≡ list_changed change old };

    fn make(&mut self, alloc: Global, change: ListChange<T>) -> Result<(), OutOfMemory> {
        match change {
            ListChange::At(at, change) => self.change(alloc, at, change),
            ListChange::Move(from, to, item) => self.shift(alloc, from, to, item),
        }
    }
}

/// A change at a position of a part, in a list whose parts get so large.
#[derive(Drop)]
pub struct PartChange<T> {
    pub(crate) at: usize,
    pub(crate) change: ItemChange<T>,
    pub(crate) sizes: PartSizes,
}

impl<T: Share, C: Contents<T>> Also for Part<T, C> {
    type Change = PartChange<T>;

    ghost may = { λ change part. IsPositionOf change.change change.at part
        × IsKept change.change (length part) (C.fits (length part + 1)) };

    ghost makes = { λ change old new. new ≡ changed change.change change.at old };

    fn make(&mut self, alloc: Global, change: PartChange<T>) -> Result<(), OutOfMemory> {
        let PartChange { at, change, sizes } = change;
        self.change(alloc, at, change, sizes, &mut Alone, ())
    }
}
