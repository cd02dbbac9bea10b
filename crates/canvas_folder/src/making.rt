//! Making a generation.
ghost use Rattle.std.specs.Prelude.{◌≡◌, ◌⊎◌, ◌++◌, [], ◌∷◌, OnErr, OnOk};
ghost use Rattle.canvas_folder.specs.Making.{LeavesSound, LeavesServed, LeavesWhole};

use crate::step::Step;

/// A folder in which a generation is made, step by step.
pub trait Maker {
    ghost use Rattle.std.specs.Prelude.{List};
    ghost use Rattle.canvas_folder.specs.declared.step.Step.{Step};

    /// Why a step was not done.
    type Error: Drop;

    /// The steps that were asked of it, the last one at the end.
    ghost asked: { Self → List Step };

    /// Does a step. One that failed may have been done, in part or not at all.
    fn run(&mut self, step: Step) -> Result<(), Self::Error>
        ensures done { OnOk result (asked self.new ≡ asked self.old ++ step ∷ []) }
        ensures failed { OnErr result
            ((asked self.new ≡ asked self.old) ⊎ (asked self.new ≡ asked self.old ++ step ∷ [])) };
}

/// In this order: the opening has its name when it is on the disk, and the journal comes when the
/// name of the opening is.
const STEPS: [Step; 9] = [
    Step::MakeFolder,
    Step::KeepFolder,
    Step::WriteOpening,
    Step::KeepOpening,
    Step::NameOpening,
    Step::KeepNames,
    Step::MakeJournal,
    Step::KeepJournal,
    Step::KeepNames,
];

/// Makes a generation with an empty journal, of which no journal is there. What a crash left of an
/// opening is written anew.
pub fn make<M: Maker>(maker: &mut M) -> Result<(), M::Error>
    requires { M.asked maker.old ≡ [] }
    // A crash at any moment leaves no half of an opening under its name, and a journal only beside
    // the new opening.
    ensures any_moment { LeavesSound (M.asked maker.new) }
    // So the folder serves what it served before, or the new generation with the whole opening.
    ensures serves { LeavesServed (M.asked maker.new) }
    // From its end on each crash leaves a folder that serves the new generation, with the whole opening.
    ensures made { OnOk result (LeavesWhole (M.asked maker.new)) }
{
    for step in &STEPS {
        maker.run(*step)?;
    }
    Ok(())
}
