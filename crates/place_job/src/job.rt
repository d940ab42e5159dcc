// What the rules are held against: the job of a file, and which glasses pass for which pane.
ghost use Rattle.std.specs.Prelude.{◌≤◌, length};

use arrayvec::ArrayVec;
use causes::Refusal;
use clauses::Verdict;
use job_glass::Glass;

// A pane's id, and the ids of the glasses that pass for it, in file order.
#[derive(Default, Drop)]
pub(crate) struct PaneRow {
    pub(crate) id: u32,
    pub(crate) passing: ArrayVec<u32, 64>,
}

// A file with its glasses and panes, in file order. A refused file has none.
#[derive(Drop)]
pub(crate) struct Job<'a> {
    pub(crate) file: &'a [u8],
    // From a call with lists that are long enough. A call with a refused file is lent lists and compared all the same, so each user of a
    // `Result<Job, Refusal>` would make up an empty job.
    pub(crate) due: Result<(), Refusal>,
    pub(crate) glasses: ArrayVec<Glass, 64>,
    pub(crate) panes: ArrayVec<PaneRow, 256>,
}

impl<'a> Job<'a> {
    pub(crate) fn of(file: &'a [u8]) -> Job<'a> {
        match job_file::read_job(file) {
            Err(refusal) => Job {
                file,
                due: Err(refusal),
                glasses: ArrayVec::new(),
                panes: ArrayVec::new(),
            },
            Ok(job) => Job {
                file,
                due: Ok(()),
                // at most 64, so they fit
                glasses: ArrayVec::try_from(job.glasses()).unwrap(),
                panes: rows_of(file, &job),
            },
        }
    }
}

// The rows of a job's panes. They are pushed one by one: `collect` takes an allocator, and answers a `Result` whose error can't occur.
fn rows_of(file: &[u8], job: &job_file::Job) -> ArrayVec<PaneRow, 256> {
    let mut rows = ArrayVec::new();
    for pane in job.panes() {
        rows.push(row_of(file, pane.id, job.glasses()));
    }
    rows
}

// The row of the pane of this id. The ids of glasses are pushed one by one, as rows are in `rows_of`.
fn row_of(file: &[u8], pane: u32, glasses: &[Glass]) -> PaneRow
    requires { length glasses.now ≤ 64 }
{
    let mut passing = ArrayVec::new();
    for glass in glasses {
        if let Ok(Verdict::Passes) = clauses::verdict(file, pane, glass.id) {
            passing.push(glass.id);
        }
    }
    PaneRow { id: pane, passing }
}
