//! The codes of refusals and their names: the one table that every crate goes by.
#![tactic(auto)]

ghost use Rattle.std.specs.Prelude.{◌≡◌, ◌≤◌, length};
ghost use Rattle.canvas_code.specs.Names.{name_of};

mod memory;
mod refusals;

pub use memory::OutOfMemory;
pub use refusals::Coded;

/// The name of a refusal's code, as replies give it, or an empty text for a number that is no code.
#[tactic(auto, unfolding(crate::specs::Names::name_of))]
pub fn name_of(code: u16) -> &'static str
    ensures name { result.now ≡ name_of code }
    ensures short { length result.now ≤ 16 }
{
    match code {
        1 => "OutOfMemory",
        2 => "NoSuchShape",
        3 => "NoSuchParent",
        4 => "NotAContainer",
        5 => "Cycle",
        6 => "TooDeep",
        7 => "TooMany",
        8 => "BadSize",
        9 => "BadPose",
        10 => "BadPolygon",
        11 => "SpotNotSibling",
        12 => "IndexTaken",
        13 => "NoRoom",
        14 => "WrongKind",
        15 => "IdsSpent",
        16 => "VersionsSpent",
        17 => "Behind",
        18 => "Strangers",
        19 => "NoSeats",
        20 => "BadHead",
        21 => "TooShort",
        22 => "BadDigit",
        23 => "LastZero",
        24 => "LeastInteger",
        25 => "KeyTooLong",
        30 => "BadWindow",
        31 => "BadWorkers",
        32 => "BadSetting",
        33 => "NoView",
        34 => "BadLevel",
        40 => "NotP6",
        41 => "BadHeader",
        42 => "Truncated",
        43 => "TooLong",
        50 => "BadJson",
        51 => "NotObject",
        52 => "BadVerb",
        53 => "BadField",
        54 => "ExtraField",
        60 => "BadFormat",
        61 => "BadRecord",
        62 => "BadTree",
        70 => "LineTooLong",
        71 => "ReadFault",
        72 => "WriteFault",
        73 => "TooManyRequests",
        74 => "CutLine",
        _ => "",
    }
}
