// The clause check: document 01, "The four clauses".
//
// `verdict` says whether a glass of a job file may be used for a pane of it. It answers for every list of bytes and any two
// ids, as specs/VerdictAnswer.antt defines. `judge` and `LoadedPane` say it of a pane and a glass held as values.
#![tactic(auto)]

mod judging;
mod kind;
mod question;

ghost use Rattle.std.specs.Prelude.{◌≡◌};
ghost use Rattle.job_file.specs.File.{outcome_of};
ghost use Rattle.causes.specs.Answer.{answer_of};
ghost use Rattle.clauses.specs.VerdictAnswer.{verdict_answer};

use causes::Refusal;
use job_file::read_job;
use job_part::find_by_id;
pub use judging::{LoadedPane, Verdict, judge};
use question::judge_found;

// Whether the glass of that id may be used for the pane of that id; or why there is no verdict.
#[tactic(auto, unfolding(crate::specs::VerdictAnswer::verdict_answer))]
pub fn verdict(file: &[u8], pane: u32, glass: u32) -> Result<Verdict, Refusal>
    ensures { answer_of result ≡ verdict_answer (outcome_of file.now) pane glass }
{
    let job = read_job(file)?;
    judge_found(
        find_by_id(job.panes(), pane),
        find_by_id(job.glasses(), glass),
    )
}
