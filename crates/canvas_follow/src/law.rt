//! The law of followers: what came of a feed is the feed of the line that followed it.
ghost use Rattle.std.specs.Prelude.{List, ℕ};
ghost use Rattle.std.specs.List.{flat_map};
ghost use Rattle.canvas_line.specs.Lines.{Sight};
ghost use Rattle.canvas_follow.specs.Course.{FollowsAll, IsFedBy};

/// A line that goes on by lines of a feed has replayed lines of edits whose feed they are: what it
/// has is the history that they tell, each edit accepted where it stands, in order, and none left
/// out.
pub fn lines_are_the_feed()
    ensures { (s t : Sight) (lines : List (List ℕ)) → FollowsAll s lines t
        → IsFedBy s (flat_map (λ line. line) lines) t }
{}
