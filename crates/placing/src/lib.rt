// The placing: documents 01 and 02, "The placing".
//
// `place` gives the panes of a job file sheets. It answers for every list of bytes and any two lent lists, as
// specs/Promise.antt says. `place_panes` does it for a job that was read: the rows of its panes, and then `place_rows`.
#![tactic(auto)]

mod lists;
mod rows;

ghost use Rattle.std.specs.Prelude.{◌≤◌, length};
ghost use Rattle.basics.specs.Lent.{lent};
ghost use Rattle.job_file.specs.File.{outcome_of};
ghost use Rattle.job_file.specs.Internal.Job.{glasses_of, panes_of};
ghost use Rattle.job_file.specs.Entries.{stocks_of};
ghost use Rattle.row_placing.specs.Glazed.{Glazed};
ghost use Rattle.placing.specs.FileSchedule.{schedule_of};
ghost use Rattle.causes.specs.Answer.{answer_of};
ghost use Rattle.placing.specs.Promise.{call, Promised};

use causes::{Cause, Refusal};
use job_file::{Job, read_job};
use lists::{GlassLists, pane_ids};
use row_placing::{PlaceCounts, place_rows};
pub use rows::rows_of;

// Writes the id of a glass, or 0, for each pane of a file, and the ids of a short group, from the lowest up, where a pane is left
// with 0. The answer is the counts of the placing, or why nothing was placed. Answers and group go down to `place_rows` as two lists,
// since C lends two.
pub fn place(file: &[u8], answers: &mut [u32], group: &mut [u32]) -> Result<PlaceCounts, Refusal>
    ensures { Promised (outcome_of file.now)
        (call (answer_of result) answers.old answers.new group.old group.new) }
{
    let job = read_job(file)?;
    let shorter = answers.len().min(group.len());
    if shorter < job.panes().len() {
        return Err(Cause::ListTooShort.at(0));
    }
    Ok(place_panes(&job, answers, group))
}

// The placing of a job's panes from its stocks. What the panes hold stands in fixed memory, of which the search is lent as much as
// there are panes.
pub fn place_panes(job: &Job, answers: &mut [u32], group: &mut [u32]) -> PlaceCounts
    requires { (length (panes_of job.now) ≤ length answers.old) × (length (panes_of job.now) ≤ length group.old) }
    ensures { Glazed (schedule_of (glasses_of job.now) (stocks_of (glasses_of job.now)) (panes_of job.now)) result
        (lent answers.old answers.new) (lent group.old group.new) }
{
    let rows = rows_of(job);
    let glasses = GlassLists::of(job.glasses());
    let mut held = [None; 256];
    place_rows(
        &rows,
        &glasses.stocks,
        &glasses.ids,
        &pane_ids(job.panes()),
        &mut held[..rows.len()],
        answers,
        group,
    )
}
