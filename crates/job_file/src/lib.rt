// The reader of a job file: document 01, "The job file" and "What each cause gives".
//
// `check` says whether a file is accepted, and `read_job` gives its glasses and panes. Both answer for every list of bytes, as
// specs/File.antt defines.
#![tactic(auto)]

mod file;
mod job;
mod lists;
mod parts;
mod trailer;

ghost use Rattle.std.specs.Prelude.{◌≡◌};
ghost use Rattle.job_file.specs.File.{outcome_of};
ghost use Rattle.causes.specs.Answer.{answer_of};
ghost use Rattle.job_file.specs.CheckAnswer.{check_answer};

use causes::Refusal;
pub use file::read_job;
pub use job::Job;
use lists::{Glasses, Panes, read_lists};

// How many glasses and how many panes a file has.
#[derive(Clone, Copy, Debug, PartialEq, Eq)]
pub struct FileCounts {
    pub glasses: usize,
    pub panes: usize,
}

// Whether a file is accepted, and how many glasses and panes it has; or why and where it is refused.
pub fn check(file: &[u8]) -> Result<FileCounts, Refusal>
    ensures { answer_of result ≡ check_answer (outcome_of file.now) }
{
    let mut glasses = Glasses::new();
    let mut panes = Panes::new();
    read_lists(file, &mut glasses, &mut panes)?;
    Ok(FileCounts {
        glasses: glasses.len(),
        panes: panes.len(),
    })
}
