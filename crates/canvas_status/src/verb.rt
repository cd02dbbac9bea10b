//! What a line asks for.
ghost use Rattle.std.specs.Prelude.{◌≡◌, ◌<◌};
ghost use Rattle.canvas_status.specs.Verbs.{place_of, verb_name};

/// What a line of a session asks for.
#[derive(Clone, Copy, Debug, PartialEq, Eq)]
pub enum Verb {
    Create,
    Move,
    Pose,
    Reshape,
    Show,
    Delete,
    Respace,
    Tile,
    Patch,
    Point,
    Export,
    /// The line is no request.
    Unread,
}

/// All verbs, by their places.
pub const VERBS: [Verb; 12] = [
    Verb::Create,
    Verb::Move,
    Verb::Pose,
    Verb::Reshape,
    Verb::Show,
    Verb::Delete,
    Verb::Respace,
    Verb::Tile,
    Verb::Patch,
    Verb::Point,
    Verb::Export,
    Verb::Unread,
];

impl Verb {
    /// Its name on the page.
    #[tactic(auto, unfolding(crate::specs::Verbs::verb_name))]
    pub fn name(self) -> &'static str
        ensures { result.now ≡ verb_name self }
    {
        match self {
            Verb::Create => "create",
            Verb::Move => "move",
            Verb::Pose => "pose",
            Verb::Reshape => "reshape",
            Verb::Show => "show",
            Verb::Delete => "delete",
            Verb::Respace => "respace",
            Verb::Tile => "tile",
            Verb::Patch => "patch",
            Verb::Point => "point",
            Verb::Export => "export",
            Verb::Unread => "unread",
        }
    }

    /// Its place among the counts.
    pub fn place(self) -> usize
        ensures place { result ≡ place_of self }
        ensures within { result < 12 }
    {
        match self {
            Verb::Create => 0,
            Verb::Move => 1,
            Verb::Pose => 2,
            Verb::Reshape => 3,
            Verb::Show => 4,
            Verb::Delete => 5,
            Verb::Respace => 6,
            Verb::Tile => 7,
            Verb::Patch => 8,
            Verb::Point => 9,
            Verb::Export => 10,
            Verb::Unread => 11,
        }
    }
}
