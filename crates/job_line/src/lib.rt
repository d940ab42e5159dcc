// Numbers and lines of a job file: document 01, "The job file". Whoever reads a part calls `read_line`; the calls for the
// outside are job_file's.
#![tactic(auto)]

mod line;
mod number;

pub use line::read_line;
