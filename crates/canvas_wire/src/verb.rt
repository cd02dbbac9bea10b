//! The verbs of requests.
ghost use Rattle.std.specs.Prelude.{◌≡◌, map};
ghost use Rattle.canvas_wire.specs.Verbs.{verb_named, verb_members};

/// What kind of request a line is.
#[derive(Clone, Copy, Debug, PartialEq, Eq)]
pub(crate) enum Verb {
    Create,
    Move,
    Pose,
    Reshape,
    Show,
    Delete,
    Respace,
    Tile,
    Patch,
    Point,
    Export,
}

impl Verb {
    /// The verb of a name.
    #[tactic(auto, unfolding(crate::specs::Verbs::verb_named))]
    pub(crate) fn named(name: &str) -> Option<Verb>
        ensures { result ≡ verb_named name.now }
    {
        match name {
            "create" => Some(Verb::Create),
            "move" => Some(Verb::Move),
            "pose" => Some(Verb::Pose),
            "reshape" => Some(Verb::Reshape),
            "show" => Some(Verb::Show),
            "delete" => Some(Verb::Delete),
            "respace" => Some(Verb::Respace),
            "tile" => Some(Verb::Tile),
            "patch" => Some(Verb::Patch),
            "point" => Some(Verb::Point),
            "export" => Some(Verb::Export),
            _ => None,
        }
    }

    /// The names of all members that a request of the verb may have.
    #[tactic(auto, unfolding(crate::specs::Verbs::verb_members))]
    pub(crate) fn members(self) -> &'static [&'static str]
        ensures { map (λ name. name.now) result.now ≡ verb_members self }
    {
        match self {
            Verb::Create => &["verb", "shape", "pose", "hidden", "parent", "spot"],
            Verb::Move => &["verb", "id", "parent", "spot"],
            Verb::Pose => &["verb", "id", "pose"],
            Verb::Reshape => &["verb", "id", "shape"],
            Verb::Show => &["verb", "id", "hidden"],
            Verb::Delete => &["verb", "id"],
            Verb::Respace => &["verb", "parent"],
            Verb::Tile => &["verb", "col", "row", "level"],
            Verb::Patch => &["verb", "x", "y", "w", "h", "level"],
            Verb::Point => &["verb", "x", "y"],
            Verb::Export => &["verb"],
        }
    }
}
