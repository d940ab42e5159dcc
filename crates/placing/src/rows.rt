// The row of each pane of a job, from the verdicts.
ghost use Rattle.std.specs.Prelude.{◌≤◌, ◌&&◌, ltb, length};
ghost use Rattle.glass_set.specs.Internal.Member.{Members};
ghost use Rattle.job_file.specs.Entries.{glass_at, stocks_of};
ghost use Rattle.job_file.specs.Internal.Job.{glasses_of, panes_of};
ghost use Rattle.placing.specs.FileSchedule.{passes_for, schedule_of};
ghost use Rattle.placing.specs.Internal.Steps.{JobRows};

use arrayvec::ArrayVec;
use clauses::{LoadedPane, Verdict};
use glass_set::with;
use job_file::Job;
use job_glass::Glass;
use job_pane::Pane;

// The row of each pane of a job. They are pushed one by one: `collect` takes an allocator, and answers a `Result` whose error can't occur.
pub fn rows_of(job: &Job) -> ArrayVec<u64, 256>
    ensures { JobRows (schedule_of (glasses_of job.now) (stocks_of (glasses_of job.now)) (panes_of job.now)) result.items }
{
    let mut rows = ArrayVec::new();
    for pane in job.panes() {
        rows.push(row_of(*pane, job.glasses()));
    }
    rows
}

// The set of the glasses that pass for a pane. What a verdict takes of the pane alone is worked out once. The loop is that of
// `with_a_sheet` in matching: a function of any test would promise by how its closure is called, and be no plainer than the two.
fn row_of(pane: Pane, glasses: &[Glass]) -> u64
    requires { length glasses.now ≤ 64 }
    ensures { Members result (λ g. ltb g (length glasses.now) && passes_for pane (glass_at glasses.now g)) }
{
    let loaded = LoadedPane::of(pane);
    let mut row = 0;
    for (number, glass) in glasses.iter().enumerate() {
        if let Verdict::Passes = loaded.judge(*glass) {
            row = with(row, number);
        }
    }
    row
}
