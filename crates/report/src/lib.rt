// The text that `canopy` prints: document 01, "The program `canopy`".
//
// `report` goes from the bytes of a job file to the text, for every list of bytes, as specs/Reported.antt says.
#![tactic(auto)]

mod line;
mod text;

ghost use Rattle.job_file.specs.File.{outcome_of};
ghost use Rattle.job_file.specs.Internal.Job.{glasses_of, panes_of};
ghost use Rattle.report.specs.Reported.{Reported, TextOf, TextOfPlacing};

use job_file::{Job, read_job};
use line::Text;
use placing::place_panes;
use text::{placing_text, refusal_text};

// Writes the text for a file to the front of a buffer, and answers how many bytes it has. The longest text, of 256 panes that
// are all in the short group, has 3,851. C calls it so, with a buffer and for a count.
pub fn report(file: &[u8], text: &mut [u8; 4096]) -> usize
    ensures { Reported (outcome_of file.now) text.old text.new result }
{
    let whole = text_of(file);
    let length = whole.len();
    text[..length].copy_from_slice(whole.as_str().as_bytes());
    length
}

// The text of a file.
fn text_of(file: &[u8]) -> Text
    ensures { TextOf (outcome_of file.now) result.bytes }
{
    match read_job(file) {
        Ok(job) => text_of_job(&job),
        Err(refusal) => refusal_text(refusal),
    }
}

// The text of a job's placing. The placing fills lent lists, as C lends them to `place`, and counts what it writes.
fn text_of_job(job: &Job) -> Text
    ensures { TextOfPlacing (glasses_of job.now) (panes_of job.now) result.bytes }
{
    let mut answers = [0u32; 256];
    let mut group = [0u32; 256];
    let counts = place_panes(job, &mut answers, &mut group);
    placing_text(
        job.panes(),
        &answers[..counts.wanted],
        counts.placed,
        &group[..counts.group],
    )
}
