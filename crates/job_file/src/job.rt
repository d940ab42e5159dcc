// A job as a value.
ghost use Rattle.std.specs.Prelude.{take};
ghost use Rattle.job_glass.specs.GlassLine.{blank_glass};
ghost use Rattle.job_pane.specs.PaneLine.{blank_pane};
ghost use Rattle.job_file.specs.Rules.{Rules};
ghost use Rattle.job_file.specs.Internal.Listed.{Listed};
ghost use Rattle.job_file.specs.Internal.OneProof.{rules_prop};

use job_glass::Glass;
use job_pane::{Pane, Wind};

// The glasses and panes of an accepted file, in file order at the front of their arrays. Every other entry is of zeros, so jobs with the
// same lists are the same. They are arrays, since a job is `Copy` and an `ArrayVec` is not.
#[derive(Clone, Copy)]
pub struct Job {
    pub glasses: [Glass; 64],
    pub glass_count: usize,
    pub panes: [Pane; 256],
    pub pane_count: usize,
    pub ghost glasses_listed: { Listed 64 blank_glass glass_count glasses },
    pub ghost panes_listed: { Listed 256 blank_pane pane_count panes },
    pub ghost rules: { Rules (take glass_count glasses) (take pane_count panes) } by { rules_prop _ _ },
}

// What stands behind the last glass, and behind the last pane. They are constants, and no `default()`: an array of that was made beside
// the job and copied into it.
pub(crate) const NO_GLASS: Glass = Glass {
    id: 0,
    kind: 0,
    thick: 0,
    w: 0,
    h: 0,
    two: 0,
    four: 0,
    stock: 0,
};

pub(crate) const NO_PANE: Pane = Pane {
    id: 0,
    edges: 0,
    angle: 0,
    awning: 0,
    top: 0,
    w: 0,
    h: 0,
    wind: Wind::ByPressure { down: 0, up: 0 },
};

impl Job {
    ghost use Rattle.std.specs.Prelude.{◌≡◌, ◌≤◌, length};
    ghost use Rattle.job_file.specs.Internal.Job.{glasses_of, panes_of};

    // The glasses, in file order.
    pub fn glasses(&self) -> &[Glass]
        ensures { (result.now ≡ glasses_of self.now) × (length result.now ≤ 64) }
    {
        &self.glasses[..self.glass_count]
    }

    // The panes, in file order.
    pub fn panes(&self) -> &[Pane]
        ensures { (result.now ≡ panes_of self.now) × (length result.now ≤ 256) }
    {
        &self.panes[..self.pane_count]
    }
}
