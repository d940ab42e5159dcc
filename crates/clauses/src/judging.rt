// The verdict of a pane and a glass held as values: specs/Verdict.antt.
ghost use Rattle.std.specs.Prelude.{◌≡◌};
ghost use Rattle.point_load.specs.Internal.Steps.{point_load_of};
ghost use Rattle.uniform_load.specs.Internal.Steps.{uniform_load_of};
ghost use Rattle.clauses.specs.Verdict.{verdict_of};

use crate::kind::is_barred;
use cut_size::is_too_small;
use job_glass::Glass;
use job_pane::Pane;
use point_load::PointLoad;
use uniform_load::UniformLoad;

// Whether a glass may be used for a pane, and if not, by which clause, from 1 to 4. Document 01 names this form: the enum carries the
// clause's number.
#[derive(Clone, Copy, PartialEq, Eq)]
pub enum Verdict {
    Passes,
    Fails(u32),
}

// A pane with what clauses 3 and 4 read of it, worked out once for all the glasses that it is tried with.
#[derive(Clone, Copy)]
pub struct LoadedPane {
    pub pane: Pane,
    pub point: PointLoad,
    pub uniform: UniformLoad,
    pub ghost point_is: { point ≡ point_load_of pane },
    pub ghost uniform_is: { uniform ≡ uniform_load_of pane },
}

impl LoadedPane {
    pub fn of(pane: Pane) -> Self
        ensures { result.pane ≡ pane }
    {
        LoadedPane {
            pane,
            point: PointLoad::of(pane),
            uniform: UniformLoad::of(pane),
        }
    }

    // The verdict by the first of the four clauses that fails.
    #[tactic(auto, unfolding(crate::specs::Verdict::verdict_of))]
    pub fn judge(&self, glass: Glass) -> Verdict
        ensures { result ≡ verdict_of self.now.pane glass }
    {
        if is_barred(self.pane, glass) {
            Verdict::Fails(1)
        } else if is_too_small(self.pane, glass) {
            Verdict::Fails(2)
        } else if self.point.is_too_wide_for(glass) {
            Verdict::Fails(3)
        } else if self.uniform.overloads(glass) {
            Verdict::Fails(4)
        } else {
            Verdict::Passes
        }
    }
}

// The verdict of a pane and a glass.
pub fn judge(pane: Pane, glass: Glass) -> Verdict
    ensures { result ≡ verdict_of pane glass }
{
    LoadedPane::of(pane).judge(glass)
}
