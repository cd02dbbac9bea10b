//! Look-ups by id.

ghost use Rattle.std.specs.Prelude.{◌≡◌, MatchOption, None};
ghost use Rattle.std.specs.Option.{option_copied};
ghost use Rattle.canvas_record.specs.Contents.{record_of, AreRising, IsStanding, StandsAt};

use crate::records::{Records, hint_of_id};
use canvas_record::{Record, Standing};

// The record of an id, and its position.
pub(crate) fn locate(records: &Records, id: u32) -> Option<Standing<'_>>
    requires { AreRising records.now }
    ensures { MatchOption result (record_of id records.now ≡ None)
        (λ found. IsStanding records.now id found.at found.shape.now) }
{
    let found = records.found_near(hint_of_id(id), |shape| shape.id() < id);
    match found.item {
        Some(shape) if shape.id() == id => Some(Standing {
            at: found.at,
            shape: shape.value(),
        }),
        _ => None,
    }
}

// The record of an id.
pub(crate) fn find(records: &Records, id: u32) -> Option<&Record>
    requires { AreRising records.now }
    ensures { option_copied result ≡ record_of id records.now }
{
    Some(locate(records, id)?.shape)
}

// The position of an id.
pub(crate) fn position_of(records: &Records, id: u32) -> Option<usize>
    requires { AreRising records.now }
    ensures { MatchOption result (record_of id records.now ≡ None)
        (λ at. StandsAt records.now id at) }
{
    Some(locate(records, id)?.at)
}
